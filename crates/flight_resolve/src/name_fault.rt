ghost use Rattle.std.specs.Prelude.{◌≡◌, ◌++◌, List, option_map, Some};
ghost use Rattle.flight_syntax.specs.Faults as faults;
ghost use Rattle.flight_resolve.specs.Names.{fault_of, IsFirst};

use flight_parse::Name;

/// A fault of a name, with the name and where it stands.
#[derive(Drop)]
pub enum NameFault {
    Unknown(Name),
    Twice(Name),
    KeyOnServer(Name),
}

/// Where a fault stands.
fn place(fault: &NameFault) -> u32
    ensures { result ≡ faults.place (fault_of fault.now) }
{
    match fault {
        NameFault::Unknown(name) | NameFault::Twice(name) | NameFault::KeyOnServer(name) => name.at,
    }
}

/// The first fault of two parts: of the first faults of each the one that stands first, and of two at one place that
/// of the first part.
pub fn first_of(first: Option<NameFault>, other: Option<NameFault>) -> Option<NameFault>
    ensures is { option_map fault_of result ≡ faults.first_of (option_map fault_of first) (option_map fault_of other) }
    ensures parts { (part rest : List faults.NameFault) → IsFirst first part → IsFirst other rest → IsFirst result (part ++ rest) }
{
    earlier(first, other)
}

/// Of two faults the one that stands first, and of two at one place the first.
fn earlier(first: Option<NameFault>, other: Option<NameFault>) -> Option<NameFault>
    ensures { option_map fault_of result ≡ faults.first_of (option_map fault_of first) (option_map fault_of other) }
{
    match (first, other) {
        (Some(first), Some(other)) => Some(nearer(first, other)),
        (Some(first), None) => Some(first),
        (None, other) => other,
    }
}

/// Of two faults the one that stands first, and of two at one place the first.
fn nearer(first: NameFault, other: NameFault) -> NameFault
    ensures { Some (fault_of result) ≡ faults.earlier (fault_of first) (Some (fault_of other)) }
{
    if place(&other) < place(&first) {
        other
    } else {
        first
    }
}
