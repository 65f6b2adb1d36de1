ghost use Rattle.std.specs.Prelude.{◌≡◌};
ghost use Rattle.flight_resolve.specs.Reports.{of_tree, of_name};
ghost use Rattle.flight_resolve.specs.declared.fault.ParseFault.TheVariants as fault;

use crate::name_fault::NameFault;
use flight_parse::TreeFault;
use flight_syntax::LexFault;
use flight_value::{Memory, Text};

/// Why a text is no program. Places are in bytes of the text.
#[derive(Drop)]
pub enum ParseFault {
    /// The text has no tokens.
    Lex(LexFault),
    /// No program continues with the token that stands there, or with the end of the text.
    Unexpected { at: u32 },
    /// The 101st of nested expressions, child elements or JSON values begins there, or the 101st postfix on one
    /// atom.
    TooDeep { at: u32 },
    /// A name stands there that is no variable in scope, no component or no action.
    Unknown { name: Text, at: u32 },
    /// A name stands there for the second time: of a component, an action, a parameter, a property or an attribute;
    /// or an attribute `children` beside children.
    Twice { name: Text, at: u32 },
    /// An attribute `key` of a server component stands there.
    KeyOnServer { at: u32 },
    /// No server component is named `App`.
    NoApp,
    /// Memory was wanting.
    Memory,
}

impl From<Memory> for ParseFault {
    ghost from_gives = { λ _ e. e ≡ fault.Memory };

    fn from(_error: Memory) -> ParseFault {
        ParseFault::Memory
    }
}

impl From<TreeFault> for ParseFault {
    ghost from_gives = { λ f e. e ≡ of_tree f };

    fn from(fault: TreeFault) -> ParseFault {
        match fault {
            TreeFault::Lex(fault) => ParseFault::Lex(fault),
            TreeFault::Unexpected { at } => ParseFault::Unexpected { at },
            TreeFault::TooDeep { at } => ParseFault::TooDeep { at },
            TreeFault::Memory => ParseFault::Memory,
        }
    }
}

impl From<NameFault> for ParseFault {
    ghost from_gives = { λ f e. e ≡ of_name f };

    fn from(fault: NameFault) -> ParseFault {
        match fault {
            NameFault::Unknown(name) => ParseFault::Unknown {
                name: name.bytes,
                at: name.at,
            },
            NameFault::Twice(name) => ParseFault::Twice {
                name: name.bytes,
                at: name.at,
            },
            NameFault::KeyOnServer(name) => ParseFault::KeyOnServer { at: name.at },
        }
    }
}
