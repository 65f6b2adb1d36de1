ghost use Rattle.std.specs.Prelude.{not, true, ◌≡◌, ◌≢◌, ◌++◌, ◌<◌, ◌≤◌, [], length, slice_index, take, IfOk, IfErr, OnOk, OnErr};
ghost use Rattle.flight_row.specs.Rows.{is_one_line, IsLine};
ghost use Rattle.flight_feed.specs.Begun.{IsBegun, IsBefore, MayBegin, GoesOn, IsStopAt, bytes_of};
ghost use Rattle.flight_feed.specs.declared.begun.Mode.{Mode};

use crate::arrived::Arrived;
use crate::begun::{Begun, Coming, Mode, Stop, finish};
use crate::fault::FeedKind;
use crate::head::LONGEST;
use flight_row::RowKind;
use memchr::memchr;
use std::alloc::{AllocError, Global};

/// Takes bytes of a payload that a newline ends, up to that newline or the piece's end.
#[inline(always)]
pub fn line_bytes(
    alloc: Global,
    begun: &mut Begun,
    coming: Coming,
    out: &mut Vec<Arrived>,
    piece: &[u8],
) -> Result<usize, Stop>
    requires head { IsBefore coming begun.old.head.items }
    requires line { IsLine begun.old.payload.items }
    requires model { MayBegin coming (begun.old.payload.items ++ piece.now) }
    requires some { 0 < length piece.now }
    ensures count { IfOk result (λ n. (0 < n) × (n ≤ length piece.now)) }
    ensures begun { OnOk result (IsBegun begun.new) }
    ensures ok { IfOk result (λ n. GoesOn begun.old begun.new out.old.items out.new.items (take n piece.now)) }
    ensures refused { IfErr result (IsStopAt (bytes_of begun.old) piece.now) }
    ensures kept { OnErr result (out.new.items ≡ out.old.items) }
    ensures number { OnErr result (begun.new.number ≡ begun.old.number) }
{
    let len = before_newline(piece);
    if len > LONGEST - begun.payload.len() {
        return Err(Stop::Refused(FeedKind::RowTooLong));
    }
    append(alloc, &mut begun.payload, &piece[..len])?;
    if len == piece.len() {
        begun.mode = Mode::Line { coming };
        return Ok(len);
    }
    finish(alloc, begun, coming, out)?;
    Ok(len + 1)
}

/// Takes bytes of a text, up to its end or the piece's.
pub fn text_bytes(
    alloc: Global,
    begun: &mut Begun,
    id: u32,
    left: usize,
    out: &mut Vec<Arrived>,
    piece: &[u8],
) -> Result<usize, Stop>
    requires mode { begun.old.mode ≡ Mode.Text id left }
    requires begins { IsBegun begun.old }
    requires some { 0 < length piece.now }
    ensures count { IfOk result (λ n. (0 < n) × (n ≤ length piece.now)) }
    ensures begun { OnOk result (IsBegun begun.new) }
    ensures ok { IfOk result (λ n. GoesOn begun.old begun.new out.old.items out.new.items (take n piece.now)) }
    ensures refused { IfErr result (IsStopAt (bytes_of begun.old) piece.now) }
    ensures kept { OnErr result (out.new.items ≡ out.old.items) }
    ensures number { OnErr result (begun.new.number ≡ begun.old.number) }
{
    let len = left.min(piece.len());
    append(alloc, &mut begun.payload, &piece[..len])?;
    if len < left {
        begun.mode = Mode::Text {
            id,
            left: left - len,
        };
        return Ok(len);
    }
    let kind = RowKind::Text;
    finish(alloc, begun, Coming::Row { id, kind }, out)?;
    Ok(len)
}

/// Appends bytes to a payload. Most payloads come in one piece, so the first bytes take no more room than they need.
#[inline(always)]
fn append(alloc: Global, payload: &mut Vec<u8>, bytes: &[u8]) -> Result<(), AllocError>
    ensures { OnOk result (payload.new.items ≡ payload.old.items ++ bytes.now) }
{
    if payload.is_empty() {
        *payload = Vec::with_capacity(alloc, bytes.len())?;
    }
    payload.extend_from_slice(bytes)
}

/// How many bytes stand before the first newline, or before the end.
fn before_newline(piece: &[u8]) -> usize
    ensures within { result ≤ length piece.now }
    ensures line { is_one_line (take result piece.now) ≡ true }
    ensures end { result < length piece.now → slice_index piece.now result ≡ 10 }
{
    memchr(b'\n', piece).unwrap_or(piece.len())
}
