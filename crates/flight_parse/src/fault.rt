ghost use Rattle.std.specs.Prelude.{◌≡◌};
ghost use Rattle.flight_parse.specs.Reports.{of_lexed};
ghost use Rattle.flight_parse.specs.declared.fault.TreeFault.TheVariants as fault;

use flight_syntax::{LexFault, Lexed};
use flight_value::Memory;

/// Why a text spells no declarations. Places are in bytes of the text.
#[derive(Drop)]
pub enum TreeFault {
    /// The text has no tokens.
    Lex(LexFault),
    /// No program continues with the token that stands there, or with the end of the text.
    Unexpected { at: u32 },
    /// The 101st of nested expressions, child elements or JSON values begins there, or the 101st postfix on one
    /// atom.
    TooDeep { at: u32 },
    /// Memory was wanting.
    Memory,
}

impl From<Memory> for TreeFault {
    ghost from_gives = { λ _ e. e ≡ fault.Memory };

    fn from(_error: Memory) -> TreeFault {
        TreeFault::Memory
    }
}

impl From<Lexed> for TreeFault {
    ghost from_gives = { λ lexed e. e ≡ of_lexed lexed };

    fn from(lexed: Lexed) -> TreeFault {
        match lexed {
            Lexed::Fault(fault) => TreeFault::Lex(fault),
            Lexed::Memory => TreeFault::Memory,
        }
    }
}
