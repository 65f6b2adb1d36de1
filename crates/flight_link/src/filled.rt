ghost use Rattle.std.specs.Prelude.{◌≡◌, ◌≤◌, ◌++◌, IfOk, OnOk, drop, length, take};
ghost use Rattle.flight_graph.specs.Text.{number_text};
ghost use Rattle.flight_link.specs.Drafted.{AllKeys, Fits, IsFilled, fill, parts};
ghost use Rattle.flight_link.specs.Laid.{IsNumbered, number_in};
ghost use Rattle.flight_link.specs.Marks.{AreBases};
ghost use Rattle.flight_link.specs.Nodes.{IsTable};
ghost use Rattle.flight_link.specs.Numbering.{IsKey};

use crate::draft::Draft;
use crate::gap::Gap;
use crate::mention::Bases;
use crate::numbers::Numbers;
use crate::table::Table;
use crate::unproved::unproved;
use flight_graph::{Writer, write_number};
use flight_value::{Memory, Text};
use std::alloc::Global;

impl Table {
    /// A draft as a text, with the number of each key at its gap. A key without a number is want of memory.
    pub fn filled(
        &self,
        bases: Bases<'_>,
        alloc: Global,
        numbers: &Numbers,
        draft: Draft,
    ) -> Result<Text, Memory>
        requires table { IsTable self.now }
        requires bases { AreBases self.now.rows.items bases.before.now bases.total }
        requires keys { AllKeys (IsKey self.now.rows.items) draft }
        ensures { IfOk result (IsFilled self.now.rows.items numbers.now draft) }
    {
        let (text, gaps) = draft.into_parts()?;
        let mut out = Writer::new(alloc);
        let rest = self.fill_gaps(bases, numbers, &mut out, text.as_slice(), gaps.as_slice())?;
        out.push_bytes(rest)?;
        Ok(out.into_text()?)
    }

    /// Appends a text with the numbers of its gaps, up to the last gap, and gives what stands behind that.
    fn fill_gaps<'t>(
        &self,
        bases: Bases<'_>,
        numbers: &Numbers,
        out: &mut Writer,
        text: &'t [u8],
        gaps: &[Gap],
    ) -> Result<&'t [u8], Memory>
        requires table { IsTable self.now }
        requires bases { AreBases self.now.rows.items bases.before.now bases.total }
        requires fits { Fits text.now gaps.now }
        requires keys { AllKeys (IsKey self.now.rows.items) (parts text.now gaps.now) }
        ensures numbered { OnOk result (AllKeys (IsNumbered self.now.rows.items numbers.now) (parts text.now gaps.now)) }
        ensures text { IfOk result (λ rest. out.new ++ rest.now ≡ out.old ++ fill (λ key. number_text (number_in self.now.rows.items numbers.now key)) (parts text.now gaps.now)) }
    {
        let mut rest = text;
        for gap in gaps {
            rest = self.fill_gap(bases, numbers, out, rest, *gap)?;
        }
        Ok(rest)
    }

    /// Appends what stands before a gap and its number, and gives what stands behind it.
    fn fill_gap<'t>(
        &self,
        bases: Bases<'_>,
        numbers: &Numbers,
        out: &mut Writer,
        text: &'t [u8],
        gap: Gap,
    ) -> Result<&'t [u8], Memory>
        requires table { IsTable self.now }
        requires bases { AreBases self.now.rows.items bases.before.now bases.total }
        requires within { gap.before ≤ length text.now }
        requires key { IsKey self.now.rows.items gap.key }
        ensures rest { IfOk result (λ rest. rest.now ≡ drop gap.before text.now) }
        ensures numbered { OnOk result (IsNumbered self.now.rows.items numbers.now gap.key) }
        ensures text { OnOk result (out.new ≡ out.old ++ take gap.before text.now ++ number_text (number_in self.now.rows.items numbers.now gap.key)) }
    {
        let (piece, rest) = text.split_at(gap.before as usize);
        out.push_bytes(piece)?;
        match self.number_of(bases, numbers, gap.key) {
            Some(number) => write_number(out, number as usize)?,
            None => return Err(unproved()),
        }
        Ok(rest)
    }
}
