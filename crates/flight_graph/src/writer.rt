ghost use Rattle.std.specs.Prelude.{◌≡◌, ◌++◌, ◌∷◌, ◌<◌, [], OnOk, IfOk, length, take, ◌≤◌};

use crate::gathered::{Gathered, WINDOW};
use flight_value::{Memory, Text};
use std::alloc::Global;
use std::marker::Model;

/// A text on its way, which contracts see as its bytes. Most pieces are of a few bytes: they are gathered, and go to the
/// text many at once.
#[derive(Drop)]
pub struct Writer {
    text: Vec<u8>,
    /// What stands behind the text.
    gathered: Gathered,
}

impl Model for Writer {
    ghost use Rattle.std.specs.Prelude.{List, ℕ, ◌++◌};
    ghost use Rattle.std.specs.Coded.{coded_list, coded_ℕ};

    ghost Value = { List ℕ };

    ghost coded = { coded_list coded_ℕ };

    ghost view = { λ w. w.text.items ++ w.gathered };
}

impl Writer {
    /// An empty text. It takes no memory yet.
    pub fn new(alloc: Global) -> Writer
        ensures { result ≡ [] }
    {
        Writer {
            text: Vec::new(alloc),
            gathered: Gathered::new(),
        }
    }

    /// How many bytes have been written. More than a `usize` counts are want of memory.
    #[inline]
    pub fn count(&self) -> Result<usize, Memory>
        ensures { IfOk result (λ n. n ≡ length self.now) }
    {
        self.text
            .len()
            .checked_add(self.gathered.len())
            .ok_or(Memory::past_limit())
    }

    /// Appends a piece.
    #[inline]
    pub fn push_str(&mut self, piece: &str) -> Result<(), Memory>
        ensures { OnOk result (self.new ≡ self.old ++ piece.now) }
    {
        self.push_bytes(piece.as_bytes())
    }

    /// Appends bytes. They need be no text: only the whole has to be one.
    #[inline]
    pub fn push_bytes(&mut self, piece: &[u8]) -> Result<(), Memory>
        ensures { OnOk result (self.new ≡ self.old ++ piece.now) }
    {
        if self.gathered.room() < piece.len() {
            return self.push_past(piece);
        }
        self.gathered.extend(piece);
        Ok(())
    }

    /// Appends a character of ASCII.
    #[inline]
    pub fn push(&mut self, character: u8) -> Result<(), Memory>
        requires { character < 128 }
        ensures { OnOk result (self.new ≡ self.old ++ character ∷ []) }
    {
        if self.gathered.room() == 0 {
            return self.push_past([character].as_slice());
        }
        self.gathered.push(character);
        Ok(())
    }

    /// Appends a text in quotation marks. Nothing in it is escaped.
    #[inline]
    pub(crate) fn push_quoted(&mut self, text: &str) -> Result<(), Memory>
        ensures { OnOk result (self.new ≡ self.old ++ 34 ∷ (text.now ++ 34 ∷ [])) }
    {
        let room = self.gathered.room();
        if room < 2 || room - 2 < text.len() {
            return self.push_quoted_past(text.as_bytes());
        }
        self.gathered.push(b'"');
        self.gathered.extend(text.as_bytes());
        self.gathered.push(b'"');
        Ok(())
    }

    /// Appends the first bytes of a window in quotation marks.
    #[inline]
    pub(crate) fn push_window_quoted(
        &mut self,
        window: &[u8; WINDOW],
        count: usize,
    ) -> Result<(), Memory>
        requires { count ≤ 16 }
        ensures { OnOk result (self.new ≡ self.old ++ 34 ∷ (take count window.now ++ 34 ∷ [])) }
    {
        if self.gathered.room() < WINDOW + 2 {
            return self.push_quoted_past(&window[..count]);
        }
        self.gathered.push(b'"');
        self.gathered.extend_by_window(window, count);
        self.gathered.push(b'"');
        Ok(())
    }

    /// Appends bytes for which no room is left.
    #[cold]
    #[inline(never)]
    fn push_past(&mut self, piece: &[u8]) -> Result<(), Memory>
        ensures { OnOk result (self.new ≡ self.old ++ piece.now) }
    {
        self.text.extend_from_slice(self.gathered.as_slice())?;
        self.gathered.clear();
        self.text.extend_from_slice(piece)?;
        Ok(())
    }

    /// Appends bytes in quotation marks for which no room is left.
    #[cold]
    #[inline(never)]
    fn push_quoted_past(&mut self, piece: &[u8]) -> Result<(), Memory>
        ensures { OnOk result (self.new ≡ self.old ++ 34 ∷ (piece.now ++ 34 ∷ [])) }
    {
        self.push(b'"')?;
        self.push_bytes(piece)?;
        self.push(b'"')?;
        Ok(())
    }

    /// The bytes.
    pub fn into_bytes(self) -> Result<Vec<u8>, Memory>
        ensures { IfOk result (λ bytes. bytes.items ≡ self) }
    {
        let Writer { text, gathered } = self;
        let mut text = text;
        text.extend_from_slice(gathered.as_slice())?;
        Ok(text)
    }

    /// The text. Bytes that are none are answered as want of memory: a writer of texts does not meet them.
    pub fn into_text(self) -> Result<Text, Memory>
        ensures { IfOk result (λ t. t ≡ self) }
    {
        let text = self.into_bytes()?;
        if !simdutf8::basic::from_utf8(text.as_slice()).is_ok() {
            return Err(Memory::past_limit());
        }
        // SAFETY: it was tested just now.
        Text::from_string(unsafe { String::from_utf8_unchecked(text) })
    }
}
