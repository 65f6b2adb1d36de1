use flight_value::Memory;
use std::alloc::{AllocError, AllocFailed};

/// Why a graph has no fields.
#[derive(Clone, Copy, Debug, PartialEq, Eq)]
pub enum ReplyOut {
    /// The root's slot, or else the least node of the canon, can't be sent: it is an element or a stream, or a client
    /// module, a symbol, a failure or something pending stands in it.
    NotSendable { node: Option<u32> },
    Memory,
}

impl From<Memory> for ReplyOut {
    ghost use Rattle.std.specs.Prelude.{◌≡◌};
    ghost use Rattle.flight_reply_out.specs.declared.fault.ReplyOut.TheVariants as out;

    ghost from_gives = { λ _ e. e ≡ out.Memory };

    fn from(_memory: Memory) -> ReplyOut {
        ReplyOut::Memory
    }
}

impl From<AllocError> for ReplyOut {
    ghost use Rattle.std.specs.Prelude.{◌≡◌};
    ghost use Rattle.flight_reply_out.specs.declared.fault.ReplyOut.TheVariants as out;

    ghost from_gives = { λ _ e. e ≡ out.Memory };

    fn from(_error: AllocError) -> ReplyOut {
        ReplyOut::Memory
    }
}

impl<T: Drop> From<AllocFailed<T>> for ReplyOut {
    ghost use Rattle.std.specs.Prelude.{◌≡◌};
    ghost use Rattle.flight_reply_out.specs.declared.fault.ReplyOut.TheVariants as out;

    ghost from_gives = { λ _ e. e ≡ out.Memory };

    fn from(_error: AllocFailed<T>) -> ReplyOut {
        ReplyOut::Memory
    }
}
