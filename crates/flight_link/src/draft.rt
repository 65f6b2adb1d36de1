ghost use Rattle.std.specs.Prelude.{◌≡◌, ◌++◌, ◌∷◌, ◌<◌, [], IfOk, OnErr, OnOk};
ghost use Rattle.flight_graph.specs.Text.{atom_text, number_text, string_text};
ghost use Rattle.flight_graph.specs.Writing.{comma_before};
ghost use Rattle.flight_link.specs.Drafted.{Fits, byte, number, parts, plain};

use crate::gap::Gap;
use crate::key::NodeKey;
use crate::unproved::unproved;
use flight_graph::{Writer, write_atom, write_comma, write_number, write_string};
use flight_value::{Atom, Memory};
use std::alloc::Global;
use std::marker::Model;

/// A text in which the numbers of some keys are still to come, which contracts see as its bytes and these keys. Numbers
/// are given in the order of a walk, and a line is written when its node is met: of the nodes to which it leads, most are
/// met later.
#[derive(Drop)]
pub struct Draft {
    text: Writer,
    gaps: Vec<Gap>,
    /// How many bytes stand before the last gap.
    passed: usize,
}

impl Model for Draft {
    ghost use Rattle.std.specs.Prelude.{List, ◌≡◌};
    ghost use Rattle.flight_link.specs.Drafted.{Part, parts, Fits, reach};

    ghost Value = { List Part };

    ghost view = { λ d. parts d.text d.gaps.items };

    ghost invariant = { λ d. Fits d.text d.gaps.items × (d.passed ≡ reach d.gaps.items) };
}

impl Draft {
    /// An empty text. It takes no memory yet.
    pub fn new(alloc: Global) -> Draft
        ensures { result ≡ [] }
    {
        Draft {
            text: Writer::new(alloc),
            gaps: Vec::new(alloc),
            passed: 0,
        }
    }

    /// Appends a piece.
    pub fn push_str(&mut self, piece: &str) -> Result<(), Memory>
        ensures { OnOk result (self.new ≡ self.old ++ plain piece.now) }
    {
        let written = self.text.push_str(piece);
        kept(written, &mut self.gaps, &mut self.passed)
    }

    /// Appends a character of ASCII.
    pub fn push(&mut self, character: u8) -> Result<(), Memory>
        requires { character < 128 }
        ensures { OnOk result (self.new ≡ self.old ++ byte character ∷ []) }
    {
        let written = self.text.push(character);
        kept(written, &mut self.gaps, &mut self.passed)
    }

    /// Appends an atom.
    pub fn push_atom(&mut self, atom: &Atom) -> Result<(), Memory>
        ensures { OnOk result (self.new ≡ self.old ++ plain (atom_text atom.now)) }
    {
        let written = write_atom(&mut self.text, atom);
        kept(written, &mut self.gaps, &mut self.passed)
    }

    /// Appends a text as a JSON string.
    pub fn push_string(&mut self, text: &str) -> Result<(), Memory>
        ensures { OnOk result (self.new ≡ self.old ++ plain (string_text text.now)) }
    {
        let written = write_string(&mut self.text, text);
        kept(written, &mut self.gaps, &mut self.passed)
    }

    /// Appends a number.
    pub fn push_number(&mut self, number: usize) -> Result<(), Memory>
        ensures { OnOk result (self.new ≡ self.old ++ plain (number_text number)) }
    {
        let written = write_number(&mut self.text, number);
        kept(written, &mut self.gaps, &mut self.passed)
    }

    /// Appends a comma, but before the first of a row.
    pub fn push_comma(&mut self, at: usize) -> Result<(), Memory>
        ensures { OnOk result (self.new ≡ self.old ++ plain (comma_before at)) }
    {
        let written = write_comma(&mut self.text, at);
        kept(written, &mut self.gaps, &mut self.passed)
    }

    /// Leaves a gap for the number of a key. More than 2^32 bytes between two gaps are want of memory.
    pub fn push_key(&mut self, key: NodeKey) -> Result<(), Memory>
        ensures { OnOk result (self.new ≡ self.old ++ number key ∷ []) }
    {
        let len = self.text.count()?;
        let Ok(before) = u32::try_from(len - self.passed) else {
            return Err(unproved());
        };
        self.gaps.push(Gap { before, key })?;
        self.passed = len;
        Ok(())
    }

    /// The bytes, and the gaps among them.
    pub fn into_parts(self) -> Result<(Vec<u8>, Vec<Gap>), Memory>
        ensures parts { IfOk result (λ p. parts p.0.items p.1.items ≡ self) }
        ensures fits { IfOk result (λ p. Fits p.0.items p.1.items) }
    {
        let Draft {
            text,
            gaps,
            passed: _,
        } = self;
        Ok((text.into_bytes()?, gaps))
    }
}

/// What came of writing. Where memory was wanted, nothing is known of the text, and no gap may stand in it.
#[inline]
fn kept(written: Result<(), Memory>, gaps: &mut Vec<Gap>, passed: &mut usize) -> Result<(), Memory>
    ensures result { result ≡ written }
    ensures ok { OnOk written ((gaps.new.items ≡ gaps.old.items) × (passed.new ≡ passed.old)) }
    ensures err { OnErr written ((gaps.new.items ≡ []) × (passed.new ≡ 0)) }
{
    if written.is_err() {
        gaps.clear();
        *passed = 0;
    }
    written
}
