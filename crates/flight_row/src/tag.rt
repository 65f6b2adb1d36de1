ghost use Rattle.std.specs.Prelude.{◌≡◌};
ghost use Rattle.flight_row.specs.Rows.{tag_of};

use crate::row::RowKind;
use flight_value::Flow;

/// What the byte behind an id's colon says of a row (React 19.0, ReactFlightClient, `processBinaryChunk` and
/// `processFullStringRow`). Rows of developers' builds and rows of typed binary data are not read here.
#[derive(Clone, Copy, Debug, PartialEq, Eq)]
pub enum Tag {
    /// No tag: the byte is the first of a model row's payload, or the newline of an empty one.
    Plain,
    /// The tag of a text row, whose length comes next.
    Sized,
    /// The tag of any other row that is handed out. Its payload comes next, up to a newline.
    Line(RowKind),
    /// The tag of a hint row, which is passed over, up to a newline.
    Hint,
    /// The tag of a row that only developers' builds have.
    Dev,
    /// No row begins so.
    Unknown,
}

/// What a byte behind an id's colon says of the row.
#[tactic(auto, unfolding(crate::specs::Rows::tag_of))]
pub fn read_tag(byte: u8) -> Tag
    ensures { result ≡ tag_of byte }
{
    match byte {
        b'T' => Tag::Sized,
        b'I' => Tag::Line(RowKind::Import),
        b'E' => Tag::Line(RowKind::Error),
        b'R' => Tag::Line(RowKind::Open(Flow::Readable)),
        b'X' => Tag::Line(RowKind::Open(Flow::Iterable)),
        b'x' => Tag::Line(RowKind::Open(Flow::Iterator)),
        b'C' => Tag::Line(RowKind::Close),
        b'H' => Tag::Hint,
        b'D' | b'W' | b'J' | b'N' => Tag::Dev,
        b'A'..=b'Z' | b'#' | b'o' | b's' | b'l' | b'g' | b'm' | b'r' => Tag::Unknown,
        _ => Tag::Plain,
    }
}
