use flight_value::Memory;

/// Why a row may not follow those of its id.
#[derive(Clone, Copy, Debug, PartialEq, Eq)]
pub enum LinkKind {
    /// A row of the id has come already, and this one is none of a stream that goes on.
    Twice { id: u32 },
    /// The row would close a stream, and the id is none.
    NotOpen { id: u32 },
    /// The stream of the id has ended.
    Closed { id: u32 },
    /// The row opens or closes a stream, which is not linked yet.
    NotBuilt { id: u32 },
}

/// Why a row was not added.
#[derive(Clone, Copy, Debug, PartialEq, Eq)]
pub enum LinkFault {
    Fault(LinkKind),
    Memory,
}

impl From<Memory> for LinkFault {
    ghost use Rattle.std.specs.Prelude.{◌≡◌};
    ghost use Rattle.flight_link.specs.declared.fault.LinkFault.TheVariants as fault;

    ghost from_gives = { λ _ e. e ≡ fault.Memory };

    fn from(_memory: Memory) -> LinkFault {
        LinkFault::Memory
    }
}
