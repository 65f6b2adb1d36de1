use flight_value::{Memory, Text};
use std::alloc::{AllocError, AllocFailed};

/// What is wrong with a script.
#[derive(Drop)]
pub enum ScriptFault {
    /// It is no JSON.
    BadJson,
    /// A part has not the form of that part: `script`, `sources.NAME`, `streams.NAME` or `settlers`.
    BadShape { place: Text },
    /// The value of a source is no slot, or one of its nodes, by its number from 0, is no node.
    BadNode { source: Text, node: Option<u32> },
    /// A number in a source is not whole, or not from −(2^53−1) to 2^53−1.
    Number { source: Text },
    /// No source, or no stream, has that name.
    UnknownSource { name: Text },
    /// A source is settled twice.
    SettledTwice { name: Text },
    Memory,
}

impl From<Memory> for ScriptFault {
    ghost use Rattle.std.specs.Prelude.{◌≡◌};
    ghost use Rattle.flight_script.specs.declared.fault.ScriptFault.TheVariants as fault;

    ghost from_gives = { λ _ e. e ≡ fault.Memory };

    fn from(_memory: Memory) -> ScriptFault {
        ScriptFault::Memory
    }
}

impl From<AllocError> for ScriptFault {
    ghost use Rattle.std.specs.Prelude.{◌≡◌};
    ghost use Rattle.flight_script.specs.declared.fault.ScriptFault.TheVariants as fault;

    ghost from_gives = { λ _ e. e ≡ fault.Memory };

    fn from(_error: AllocError) -> ScriptFault {
        ScriptFault::Memory
    }
}

impl<T: Drop> From<AllocFailed<T>> for ScriptFault {
    ghost use Rattle.std.specs.Prelude.{◌≡◌};
    ghost use Rattle.flight_script.specs.declared.fault.ScriptFault.TheVariants as fault;

    ghost from_gives = { λ _ e. e ≡ fault.Memory };

    fn from(_error: AllocFailed<T>) -> ScriptFault {
        ScriptFault::Memory
    }
}
