ghost use Rattle.std.specs.Prelude.{◌≡◌, ◌++◌, ◌∷◌, ◌+◌, ◌<◌, ◌≤◌, [], length, take};

use std::marker::Model;

/// How many bytes are gathered.
const ROOM: usize = 1024;

/// How long a window is.
pub(crate) const WINDOW: usize = 16;

/// Bytes that are gathered, which lie in the value itself. Contracts see those that were appended.
#[derive(Drop)]
pub(crate) struct Gathered {
    bytes: [u8; ROOM],
    len: usize,
}

impl Model for Gathered {
    ghost use Rattle.std.specs.Prelude.{List, ℕ, ◌≡◌, ◌≤◌, length, take};
    ghost use Rattle.std.specs.Coded.{coded_list, coded_ℕ};

    ghost Value = { List ℕ };

    ghost coded = { coded_list coded_ℕ };

    ghost view = { λ g. take g.len g.bytes };

    ghost invariant = { λ g. (g.len ≤ 1024) × (length g.bytes ≡ 1024) };
}

impl Gathered {
    /// None yet.
    pub(crate) fn new() -> Gathered
        ensures { result ≡ [] }
    {
        Gathered {
            bytes: [0; ROOM],
            len: 0,
        }
    }

    /// How many they are.
    #[inline]
    pub(crate) fn len(&self) -> usize
        ensures { result ≡ length self.now }
    {
        self.len
    }

    /// How many more fit.
    #[inline]
    pub(crate) fn room(&self) -> usize
        ensures { result + length self.now ≡ 1024 }
    {
        ROOM - self.len
    }

    /// The bytes.
    #[inline]
    pub(crate) fn as_slice(&self) -> &[u8]
        ensures { result.now ≡ self.now }
    {
        &self.bytes[..self.len]
    }

    /// Appends a byte, for which there is room.
    #[inline]
    pub(crate) fn push(&mut self, byte: u8)
        requires { length self.old < 1024 }
        ensures { self.new ≡ self.old ++ byte ∷ [] }
    {
        let len = self.len;
        self.bytes[len] = byte;
        self.len = len + 1;
    }

    /// Appends bytes, for which there is room.
    #[inline]
    pub(crate) fn extend(&mut self, piece: &[u8])
        requires { length self.old + length piece.now ≤ 1024 }
        ensures { self.new ≡ self.old ++ piece.now }
    {
        let end = self.len + piece.len();
        self.bytes[self.len..end].copy_from_slice(piece);
        self.len = end;
    }

    /// Appends the first bytes of a window, for the whole of which there is room. It is copied whole, which takes less than
    /// to copy as many bytes as are wanted.
    #[inline]
    pub(crate) fn extend_by_window(&mut self, window: &[u8; WINDOW], count: usize)
        requires room { length self.old + 16 ≤ 1024 }
        requires count { count ≤ 16 }
        ensures { self.new ≡ self.old ++ take count window.now }
    {
        let len = self.len;
        self.bytes[len..len + WINDOW].copy_from_slice(window.as_slice());
        self.len = len + count;
    }

    /// Forgets them.
    #[inline]
    pub(crate) fn clear(&mut self)
        ensures { self.new ≡ [] }
    {
        self.len = 0;
    }
}
