use flight_value::Memory;
use std::alloc::{AllocError, AllocFailed};

/// What is wrong with a payload. `at` is the number of a place.
#[derive(Clone, Copy, Debug, PartialEq, Eq)]
pub enum PlaceKind {
    /// It is no JSON, or has not the form that its row asks for.
    BadModel,
    /// A number is not whole, or not from −(2^53−1) to 2^53−1. That only such numbers are read is this project's
    /// limit.
    Number,
    /// A string begins with `$` and may not stand there.
    BadToken { at: u32 },
    /// An array begins with the string `$` and is no element.
    BadElement { at: u32 },
}

/// Why a row gave no places.
#[derive(Clone, Copy, Debug, PartialEq, Eq)]
pub enum PlaceFault {
    Fault(PlaceKind),
    Memory,
}

impl From<Memory> for PlaceFault {
    ghost use Rattle.std.specs.Prelude.{◌≡◌};
    ghost use Rattle.flight_place.specs.declared.fault.PlaceFault.TheVariants as fault;

    ghost from_gives = { λ _ e. e ≡ fault.Memory };

    fn from(_memory: Memory) -> PlaceFault {
        PlaceFault::Memory
    }
}

impl From<AllocError> for PlaceFault {
    ghost use Rattle.std.specs.Prelude.{◌≡◌};
    ghost use Rattle.flight_place.specs.declared.fault.PlaceFault.TheVariants as fault;

    ghost from_gives = { λ _ e. e ≡ fault.Memory };

    fn from(_error: AllocError) -> PlaceFault {
        PlaceFault::Memory
    }
}

impl<T: Drop> From<AllocFailed<T>> for PlaceFault {
    ghost use Rattle.std.specs.Prelude.{◌≡◌};
    ghost use Rattle.flight_place.specs.declared.fault.PlaceFault.TheVariants as fault;

    ghost from_gives = { λ _ e. e ≡ fault.Memory };

    fn from(_error: AllocFailed<T>) -> PlaceFault {
        PlaceFault::Memory
    }
}
