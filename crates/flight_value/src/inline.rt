ghost use Rattle.std.specs.Prelude.{◌≡◌, ◌<◌, length, MatchOption};

use std::marker::Model;
use std::str;

/// How many bytes of a text lie in the value itself.
pub const ROOM: usize = 22;

/// A short text in the value itself, which contracts see as its bytes.
#[derive(Drop)]
pub struct Inline {
    bytes: [u8; ROOM],
    len: u8,
}

impl Model for Inline {
    ghost use Rattle.std.specs.Prelude.{◌≡◌, ◌≤◌, ℕ, List, IsUtf8, length, take};
    ghost use Rattle.std.specs.Coded.{coded_list, coded_ℕ};

    ghost Value = { List ℕ };

    ghost coded = { coded_list coded_ℕ };

    ghost view = { λ t. take t.len t.bytes };

    ghost invariant = { λ t. (t.len ≤ 22) × (length t.bytes ≡ 22) × ∥ IsUtf8 (take t.len t.bytes) ∥₁ };
}

impl Inline {
    /// A copy of a text, if there is room for it.
    #[inline]
    pub fn new(text: &str) -> Option<Inline>
        ensures { MatchOption result (22 < length text.now) (λ t. t ≡ text.now) }
    {
        let len = text.len();
        if len > ROOM {
            return None;
        }
        let mut bytes = [0; ROOM];
        bytes[..len].copy_from_slice(text.as_bytes());
        Some(Inline {
            bytes,
            len: len as u8,
        })
    }

    /// The same text.
    pub fn copy(&self) -> Inline
        ensures { result ≡ self.now }
    {
        Inline {
            bytes: self.bytes,
            len: self.len,
        }
    }

    /// The text itself.
    #[inline]
    pub fn as_str(&self) -> &str
        ensures { result.now ≡ self.now }
    {
        // SAFETY: its first bytes are those of a text.
        unsafe { str::from_utf8_unchecked(&self.bytes[..self.len as usize]) }
    }
}
