ghost use Rattle.std.specs.Prelude.{◌≡◌, ◌++◌, ◌<◌, ◌≤◌, length, take, IfOk, IfErr, OnOk, OnErr};
ghost use Rattle.flight_feed.specs.Begun.{IsBegun, GoesOn, IsStopAt, Stops, bytes_of};
ghost use Rattle.flight_feed.specs.Stream.{Advances};

use crate::arrived::Arrived;
use crate::begun::{Begun, Coming, Mode, Stop};
use crate::head::{head_byte, id_bytes};
use crate::payload::{line_bytes, text_bytes};
use flight_row::{RowKind, Tag, read_tag};
use std::alloc::Global;

/// Takes a piece, and hands out the rows that are whole now.
pub fn take_all(
    alloc: Global,
    begun: &mut Begun,
    out: &mut Vec<Arrived>,
    piece: &[u8],
) -> Result<(), Stop>
    requires { IsBegun begun.old }
    ensures begun { OnOk result (IsBegun begun.new) }
    ensures ok { OnOk result (Advances (bytes_of begun.old ++ piece.now) begun.old.number out.old.items out.new.items (bytes_of begun.new) begun.new.number) }
    ensures stops { IfErr result (Stops (bytes_of begun.old ++ piece.now) begun.old.number out.old.items out.new.items begun.new.number) }
{
    let mut at = 0;
    while at < piece.len() {
        at += take_some(alloc, begun, out, &piece[at..])?;
    }
    Ok(())
}

/// Takes the next bytes of a piece, at least one: a byte before a payload, or what the piece has of a payload.
fn take_some(
    alloc: Global,
    begun: &mut Begun,
    out: &mut Vec<Arrived>,
    piece: &[u8],
) -> Result<usize, Stop>
    requires begins { IsBegun begun.old }
    requires some { 0 < length piece.now }
    ensures count { IfOk result (λ n. (0 < n) × (n ≤ length piece.now)) }
    ensures begun { OnOk result (IsBegun begun.new) }
    ensures ok { IfOk result (λ n. GoesOn begun.old begun.new out.old.items out.new.items (take n piece.now)) }
    ensures refused { IfErr result (IsStopAt (bytes_of begun.old) piece.now) }
    ensures kept { OnErr result (out.new.items ≡ out.old.items) }
    ensures number { OnErr result (begun.new.number ≡ begun.old.number) }
{
    let coming = match begun.mode {
        Mode::Id { id } => return id_bytes(begun, id, piece),
        Mode::Tag { id } if read_tag(piece[0]) == Tag::Plain => {
            let kind = RowKind::Model;
            Coming::Row { id, kind }
        }
        Mode::Tag { .. } | Mode::Colon | Mode::Length { .. } => {
            return head_byte(alloc, begun, out, piece);
        }
        Mode::Text { id, left } => return text_bytes(alloc, begun, id, left, out, piece),
        Mode::Line { coming } => coming,
    };
    line_bytes(alloc, begun, coming, out, piece)
}
