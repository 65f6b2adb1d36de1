use flight_feed::FeedKind;
use flight_link::LinkKind;
use flight_place::PlaceKind;
use flight_value::Memory;
use thiserror::Error;

/// Why a stream is refused. Rows are numbered from 1, hint rows too.
#[derive(Clone, Copy, Debug, Drop, PartialEq, Eq, Error)]
pub enum ClientFault {
    /// The bytes go on as no row does.
    #[error("row {number}: {kind:?}")]
    Feed { number: u64, kind: FeedKind },
    /// A row has no places.
    #[error("row {number}: {kind:?}")]
    Place { number: u64, kind: PlaceKind },
    /// A row may not follow those before it.
    #[error("row {number}: {kind:?}")]
    Link { number: u64, kind: LinkKind },
    /// The stream has no row 0.
    #[error("no root")]
    NoRoot,
    /// A reference to this id is not defined; it is the least such id.
    #[error("undefined {id:x}")]
    Undefined { id: u32 },
    #[error("out of memory")]
    Memory,
}

impl From<Memory> for ClientFault {
    ghost use Rattle.std.specs.Prelude.{◌≡◌};
    ghost use Rattle.flight_client.specs.declared.fault.ClientFault.TheVariants as fault;

    ghost from_gives = { λ _ e. e ≡ fault.Memory };

    fn from(_memory: Memory) -> ClientFault {
        ClientFault::Memory
    }
}
