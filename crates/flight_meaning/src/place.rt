use flight_row::RowKind;
use flight_text::Ref;
use flight_value::{Atom, List, Text};

/// What stands at a number. Places in it are named by their numbers.
#[derive(Drop)]
pub enum Place {
    Atom(Atom),
    Array(List<u32>),
    /// By the bytes of the names, each of which stands once.
    Object(List<Named>),
    Element { tag: u32, key: u32, props: u32 },
    /// The value of a row, which may come later.
    Lazy(u32),
    /// The promise of a row's value.
    Promise(u32),
    /// The value at a place of a row.
    Value(Ref),
    /// The Map whose entries stand at a place of a row.
    Map(Ref),
    /// The Set whose items stand at a place of a row.
    Set(Ref),
    /// The server reference that a row describes.
    Action(u32),
}

/// A property.
#[derive(Drop)]
pub struct Named {
    pub name: Text,
    pub place: u32,
}

/// The places of a row, the root first. An open row has none.
#[derive(Drop)]
pub struct PlaceTree {
    pub kind: RowKind,
    pub places: List<Place>,
}

/// A row with its places. A list of them is all that linking knows of a stream.
#[derive(Drop)]
pub struct PlacedRow {
    /// Below 2^31.
    pub id: u32,
    pub tree: PlaceTree,
}
