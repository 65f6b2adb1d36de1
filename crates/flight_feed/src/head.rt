ghost use Rattle.std.specs.Prelude.{◌≡◌, ◌≢◌, ◌+◌, ◌++◌, ◌∷◌, ◌<◌, ◌≤◌, [], true, false, None, length, slice_index, take, IfSome, IfOk, IfErr, OnOk, OnErr};
ghost use Rattle.flight_row.specs.Rows.{is_hex, hex_value, tag_of, IsHead};
ghost use Rattle.flight_row.specs.declared.tag.Tag.{Tag};
ghost use Rattle.flight_feed.specs.Parts.{InId, InLength};
ghost use Rattle.flight_feed.specs.Faults.{IsBad};
ghost use Rattle.flight_feed.specs.Begun.{Begins, IsBegun, IsUnfinished, GoesOn, IsStopAt, bytes_of, goes_to_head};
ghost use Rattle.flight_feed.specs.declared.begun.Mode.TheVariants.{Id as AtId};

use crate::arrived::Arrived;
use crate::begun::{Begun, Coming, Mode, Stop, finish};
use crate::fault::FeedKind;
use flight_row::{RowKind, Tag, read_tag};
use std::alloc::Global;

/// A payload has at most so many bytes.
pub const LONGEST: usize = 67_108_864;

/// Takes what a piece has of an id: digits, up to the colon behind them or the piece's end.
pub fn id_bytes(begun: &mut Begun, id: u32, piece: &[u8]) -> Result<usize, Stop>
    requires mode { begun.old.mode ≡ AtId id }
    requires begins { IsBegun begun.old }
    requires some { 0 < length piece.now }
    ensures count { IfOk result (λ n. (0 < n) × (n ≤ length piece.now)) }
    ensures begun { OnOk result (IsBegun begun.new) }
    ensures bytes { IfOk result (λ n. bytes_of begun.new ≡ bytes_of begun.old ++ take n piece.now) }
    ensures refused { IfErr result (IsStopAt (bytes_of begun.old) piece.now) }
    ensures number { begun.new.number ≡ begun.old.number }
{
    let mut id = id;
    for (at, byte) in piece.iter().enumerate() {
        let mode = match after_id(id, &begun.head, *byte) {
            Ok(mode) => mode,
            Err(kind) => return Err(Stop::Refused(kind)),
        };
        begun.head.push(*byte)?;
        let Mode::Id { id: longer } = mode else {
            begun.mode = mode;
            return Ok(at + 1);
        };
        id = longer;
    }
    begun.mode = Mode::Id { id };
    Ok(piece.len())
}

/// Takes a byte between an id and a payload.
pub fn head_byte(
    alloc: Global,
    begun: &mut Begun,
    out: &mut Vec<Arrived>,
    piece: &[u8],
) -> Result<usize, Stop>
    requires begins { IsBegun begun.old }
    requires some { 0 < length piece.now }
    requires head { goes_to_head begun.old.mode (slice_index piece.now 0) ≡ true }
    ensures count { IfOk result (λ n. (0 < n) × (n ≤ length piece.now)) }
    ensures begun { OnOk result (IsBegun begun.new) }
    ensures ok { IfOk result (λ n. GoesOn begun.old begun.new out.old.items out.new.items (take n piece.now)) }
    ensures refused { IfErr result (IsStopAt (bytes_of begun.old) piece.now) }
    ensures kept { OnErr result (out.new.items ≡ out.old.items) }
    ensures number { OnErr result (begun.new.number ≡ begun.old.number) }
{
    let byte = piece[0];
    let mode = match after_head(begun.mode, &begun.head, byte) {
        Ok(mode) => mode,
        Err(kind) => return Err(Stop::Refused(kind)),
    };
    begun.head.push(byte)?;
    begun.mode = mode;
    if let Mode::Text { id, left } = mode
        && left == 0
    {
        let kind = RowKind::Text;
        finish(alloc, begun, Coming::Row { id, kind }, out)?;
    }
    Ok(1)
}

/// Where a byte leads between an id and a payload.
fn after_head(mode: Mode, head: &[u8], byte: u8) -> Result<Mode, FeedKind>
    requires begins { Begins mode head.now [] }
    requires head { goes_to_head mode byte ≡ true }
    ensures ok { IfOk result (λ next. Begins next (head.now ++ byte ∷ []) []) }
    ensures err { IfErr result (λ kind. IsBad kind (head.now ++ byte ∷ [])) }
{
    match mode {
        Mode::Tag { id } => after_tag(id, head, byte),
        Mode::Colon => after_colon(head, byte),
        Mode::Length { id, digits, value } => after_length(id, digits, value, head, byte),
        Mode::Id { .. } | Mode::Text { .. } | Mode::Line { .. } => unreachable!(),
    }
}

/// Where a byte leads among the digits of an id.
#[inline(always)]
fn after_id(id: u32, head: &[u8], byte: u8) -> Result<Mode, FeedKind>
    requires { InId head.now id }
    ensures ok { IfOk result (λ next. Begins next (head.now ++ byte ∷ []) []) }
    ensures unfinished { IfOk result IsUnfinished }
    ensures err { IfErr result (λ kind. IsBad kind (head.now ++ byte ∷ [])) }
{
    let Some(digit) = digit_value(byte) else {
        if byte != b':' {
            return Err(FeedKind::BadId);
        }
        return Ok(if head.is_empty() {
            Mode::Colon
        } else {
            Mode::Tag { id }
        });
    };
    let id = 16 * u64::from(id) + u64::from(digit);
    if head.len() >= 8 || id >= 1 << 31 {
        return Err(FeedKind::BadId);
    }
    Ok(Mode::Id { id: id as u32 })
}

/// Where a tag leads.
fn after_tag(id: u32, head: &[u8], byte: u8) -> Result<Mode, FeedKind>
    requires head { IsHead head.now id }
    requires tag { tag_of byte ≢ Tag.Plain }
    ensures ok { IfOk result (λ next. Begins next (head.now ++ byte ∷ []) []) }
    ensures err { IfErr result (λ kind. IsBad kind (head.now ++ byte ∷ [])) }
{
    match read_tag(byte) {
        Tag::Sized => Ok(Mode::Length {
            id,
            digits: 0,
            value: 0,
        }),
        Tag::Line(kind) => {
            let coming = Coming::Row { id, kind };
            Ok(Mode::Line { coming })
        }
        Tag::Hint => {
            let coming = Coming::Hint;
            Ok(Mode::Line { coming })
        }
        Tag::Dev => Err(FeedKind::DevRow),
        Tag::Unknown => Err(FeedKind::BadTag),
        Tag::Plain => unreachable!(),
    }
}

/// Where a byte leads behind a colon without an id, which only a hint row may have.
fn after_colon(head: &[u8], byte: u8) -> Result<Mode, FeedKind>
    requires { head.now ≡ 58 ∷ [] }
    ensures ok { IfOk result (λ next. Begins next (head.now ++ byte ∷ []) []) }
    ensures err { IfErr result (λ kind. IsBad kind (head.now ++ byte ∷ [])) }
{
    match read_tag(byte) {
        Tag::Hint => {
            let coming = Coming::Hint;
            Ok(Mode::Line { coming })
        }
        _ => Err(FeedKind::BadId),
    }
}

/// Where a byte leads among the digits of a length.
fn after_length(id: u32, digits: u32, value: u64, head: &[u8], byte: u8) -> Result<Mode, FeedKind>
    requires { InLength head.now id digits value }
    ensures ok { IfOk result (λ next. Begins next (head.now ++ byte ∷ []) []) }
    ensures err { IfErr result (λ kind. IsBad kind (head.now ++ byte ∷ [])) }
{
    if byte == b',' && digits > 0 {
        if value > LONGEST as u64 {
            return Err(FeedKind::RowTooLong);
        }
        return Ok(Mode::Text {
            id,
            left: value as usize,
        });
    }
    let Some(digit) = digit_value(byte) else {
        return Err(FeedKind::BadLength);
    };
    if digits >= 8 {
        return Err(FeedKind::BadLength);
    }
    Ok(Mode::Length {
        id,
        digits: digits + 1,
        value: 16 * value + u64::from(digit),
    })
}

/// The value of a lower-case hexadecimal digit, where the byte is one.
#[inline(always)]
fn digit_value(byte: u8) -> Option<u8>
    ensures some { IfSome result (λ value. (is_hex byte ≡ true) × (value ≡ hex_value byte)) }
    ensures none { result ≡ None → is_hex byte ≡ false }
{
    match byte {
        b'0'..=b'9' => Some(byte - b'0'),
        b'a'..=b'f' => Some(byte - b'a' + 10),
        _ => None,
    }
}
