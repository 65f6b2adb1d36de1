use flight_syntax::Token;
use flight_value::Memory;
use std::alloc::{AllocError, AllocFailed};

/// Why a program was not read.
#[derive(Clone, Copy, Debug, PartialEq, Eq)]
pub enum Unbuilt {
    /// It is none of those that are read.
    NotBuilt,
    Memory,
}

impl From<Memory> for Unbuilt {
    ghost use Rattle.std.specs.Prelude.{◌≡◌};
    ghost use Rattle.flight_top.specs.declared.static_code.Unbuilt.TheVariants as unbuilt;

    ghost from_gives = { λ _ e. e ≡ unbuilt.Memory };

    fn from(_error: Memory) -> Unbuilt {
        Unbuilt::Memory
    }
}

impl From<AllocError> for Unbuilt {
    ghost use Rattle.std.specs.Prelude.{◌≡◌};
    ghost use Rattle.flight_top.specs.declared.static_code.Unbuilt.TheVariants as unbuilt;

    ghost from_gives = { λ _ e. e ≡ unbuilt.Memory };

    fn from(_error: AllocError) -> Unbuilt {
        Unbuilt::Memory
    }
}

impl<T: Drop> From<AllocFailed<T>> for Unbuilt {
    ghost use Rattle.std.specs.Prelude.{◌≡◌};
    ghost use Rattle.flight_top.specs.declared.static_code.Unbuilt.TheVariants as unbuilt;

    ghost from_gives = { λ _ e. e ≡ unbuilt.Memory };

    fn from(_error: AllocFailed<T>) -> Unbuilt {
        Unbuilt::Memory
    }
}

/// A program's text, and its tokens.
#[derive(Clone, Copy)]
pub struct Code<'a> {
    pub text: &'a [u8],
    pub tokens: &'a [Token],
}
