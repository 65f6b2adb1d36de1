ghost use Rattle.std.specs.Prelude.{◌≡◌, suc, false, true, length};
ghost use Rattle.flight_parse.specs.Code.{words};
ghost use Rattle.flight_parse.specs.declared.stop.Stop.TheVariants as stop;

use crate::lexeme::Lexeme;
use flight_value::Memory;
use std::alloc::{AllocError, AllocFailed};

/// Where reading stops, with the number of tokens that are left there.
#[derive(Drop)]
pub enum Stop {
    Memory,
    Fault { too_deep: bool, left: usize },
}

impl From<Memory> for Stop {
    ghost from_gives = { λ _ e. e ≡ stop.Memory };

    fn from(_error: Memory) -> Stop {
        Stop::Memory
    }
}

impl From<AllocError> for Stop {
    ghost from_gives = { λ _ e. e ≡ stop.Memory };

    fn from(_error: AllocError) -> Stop {
        Stop::Memory
    }
}

impl<T: Drop> From<AllocFailed<T>> for Stop {
    ghost from_gives = { λ _ e. e ≡ stop.Memory };

    fn from(_error: AllocFailed<T>) -> Stop {
        Stop::Memory
    }
}

/// The next token, or the end, is one that nothing continues with.
pub fn unexpected(lexemes: &[Lexeme]) -> Stop
    ensures { result ≡ stop.Fault false (length (words lexemes.now)) }
{
    Stop::Fault {
        too_deep: false,
        left: lexemes.len(),
    }
}

/// At the next token, or the end, the nesting or the postfixes pass their limit.
pub fn too_deep(lexemes: &[Lexeme]) -> Stop
    ensures { result ≡ stop.Fault true (length (words lexemes.now)) }
{
    Stop::Fault {
        too_deep: true,
        left: lexemes.len(),
    }
}

/// The token before these is one that nothing continues with.
pub fn refused(rest: &[Lexeme]) -> Stop
    ensures { result ≡ stop.Fault false (suc (length (words rest.now))) }
{
    Stop::Fault {
        too_deep: false,
        left: rest.len() + 1,
    }
}
