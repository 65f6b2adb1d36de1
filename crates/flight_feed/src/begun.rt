ghost use Rattle.std.specs.Prelude.{◌≡◌, ◌+◌, ◌<◌, ◌≤◌, ◌++◌, ◌∷◌, ◌↔◌, ℕ, [], length, slice_index, IsTrue, IsUtf8, OnOk, OnErr, IfErr};
ghost use Rattle.flight_feed.specs.Begun.{IsFit, IsFresh, bytes_of, item_of};
ghost use Rattle.flight_feed.specs.Stream.{numbered};
ghost use Rattle.flight_feed.specs.declared.begun.Stop.{Stop};
ghost use Rattle.flight_feed.specs.declared.fault.FeedKind.{FeedKind};

use crate::arrived::Arrived;
use crate::fault::FeedKind;
use flight_row::{Row, RowKind};
use flight_value::List;
use simdutf8::basic::from_utf8;
use std::alloc::{AllocError, AllocFailed, Global};
use std::mem;

/// What a payload will be the payload of.
#[derive(Clone, Copy, Debug, PartialEq, Eq)]
pub enum Coming {
    Row { id: u32, kind: RowKind },
    Hint,
}

/// How far a row has come.
#[derive(Clone, Copy, Debug, PartialEq, Eq)]
pub enum Mode {
    /// Among the digits of the id.
    Id { id: u32 },
    /// Behind an id and its colon.
    Tag { id: u32 },
    /// Behind a colon without an id.
    Colon,
    /// Among the digits of a length.
    Length { id: u32, digits: u32, value: u64 },
    /// In a text.
    Text { id: u32, left: usize },
    /// In a payload that a newline ends.
    Line { coming: Coming },
}

/// Why a byte was not taken.
#[derive(Clone, Copy, Debug, PartialEq, Eq)]
pub enum Stop {
    Refused(FeedKind),
    Memory,
}

impl From<AllocError> for Stop {
    ghost use Rattle.std.specs.Prelude.{◌≡◌};
    ghost use Rattle.flight_feed.specs.declared.begun.Stop.TheVariants.{Memory};

    ghost from_gives = { λ _ e. e ≡ Memory };

    fn from(_error: AllocError) -> Stop {
        Stop::Memory
    }
}

impl<T: Drop> From<AllocFailed<T>> for Stop {
    ghost use Rattle.std.specs.Prelude.{◌≡◌};
    ghost use Rattle.flight_feed.specs.declared.begun.Stop.TheVariants.{Memory};

    ghost from_gives = { λ _ e. e ≡ Memory };

    fn from(_error: AllocFailed<T>) -> Stop {
        Stop::Memory
    }
}

/// What has come of a row.
#[derive(Drop)]
pub struct Begun {
    pub mode: Mode,
    /// The bytes before the payload.
    pub head: Vec<u8>,
    pub payload: Vec<u8>,
    /// The row's number.
    pub number: u64,
}

impl Begun {
    /// The first row of a stream, before its first byte.
    pub fn new(alloc: Global) -> Begun
        ensures { IsFresh result 1 }
    {
        Begun {
            mode: Mode::Id { id: 0 },
            head: Vec::new(alloc),
            payload: Vec::new(alloc),
            number: 1,
        }
    }

    /// Whether nothing has come of the row.
    pub fn is_empty(&self) -> bool
        ensures { IsTrue result ↔ (bytes_of self.now ≡ []) }
    {
        self.head.is_empty() && self.payload.is_empty()
    }
}

/// Whether a payload is what it has to be: UTF-8, but for a hint's.
pub fn is_fit(coming: Coming, payload: &[u8]) -> bool
    ensures { IsTrue result ↔ IsFit coming payload.now }
{
    match coming {
        Coming::Row { .. } => is_text(payload),
        Coming::Hint => true,
    }
}

/// Whether bytes are UTF-8. Most payloads are short and ASCII, which their greatest byte tells.
fn is_text(bytes: &[u8]) -> bool
    ensures { IsTrue result ↔ IsUtf8 bytes.now }
{
    greatest(bytes) < 128 || is_utf8(bytes)
}

/// Whether bytes are UTF-8, read whole.
#[inline(never)]
fn is_utf8(bytes: &[u8]) -> bool
    ensures { IsTrue result ↔ IsUtf8 bytes.now }
{
    from_utf8(bytes).is_ok()
}

/// The greatest of some bytes, or 0. So plain a loop is compiled to steps of many bytes.
fn greatest(bytes: &[u8]) -> u8
    ensures { (i : ℕ) → i < length bytes.now → slice_index bytes.now i ≤ result }
{
    let mut most = 0;
    for byte in bytes {
        most = most.max(*byte);
    }
    most
}

/// Ends a row, and hands it out unless it is a hint.
#[inline(always)]
pub fn finish(
    alloc: Global,
    begun: &mut Begun,
    coming: Coming,
    out: &mut Vec<Arrived>,
) -> Result<(), Stop>
    ensures fresh { OnOk result (IsFresh begun.new (begun.old.number + 1)) }
    ensures rows { OnOk result (out.new.items ≡ out.old.items ++ numbered begun.old.number (item_of coming begun.old.payload.items ∷ [])) }
    ensures fit { OnOk result (IsFit coming begun.old.payload.items) }
    ensures bad { (kind : FeedKind) → result ≡ Err (Stop.Refused kind) → (kind ≡ FeedKind.BadText) × ¬ (IsFit coming begun.old.payload.items) }
    ensures kept { OnErr result (out.new.items ≡ out.old.items) }
    ensures number { OnErr result (begun.new.number ≡ begun.old.number) }
{
    if !is_fit(coming, &begun.payload) {
        return Err(Stop::Refused(FeedKind::BadText));
    }
    let next = begun.number.checked_add(1).ok_or(Stop::Memory)?;
    let payload = mem::replace(&mut begun.payload, Vec::new(alloc));
    begun.head.clear();
    begun.mode = Mode::Id { id: 0 };
    hand_out(begun.number, coming, payload, out)?;
    begun.number = next;
    Ok(())
}

/// Hands a row out.
#[inline(always)]
fn hand_out(
    number: u64,
    coming: Coming,
    payload: Vec<u8>,
    out: &mut Vec<Arrived>,
) -> Result<(), Stop>
    ensures rows { OnOk result (out.new.items ≡ out.old.items ++ numbered number (item_of coming payload.items ∷ [])) }
    ensures memory { IfErr result (λ stop. stop ≡ Stop.Memory) }
    ensures kept { OnErr result (out.new.items ≡ out.old.items) }
{
    if let Coming::Row { id, kind } = coming {
        let payload = List::new(payload);
        out.push(Arrived {
            number,
            row: Row { id, kind, payload },
        })?;
    }
    Ok(())
}
