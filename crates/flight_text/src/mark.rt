use flight_value::{Constant, List, Memory, Text};

/// A place in a row's value: the row's id, and the names of the steps from its root.
#[derive(Debug, Drop, PartialEq, Eq)]
pub struct Ref {
    pub id: u32,
    pub path: List<Text>,
}

/// What a model string stands for (React 19.0, `parseModelString` of ReactFlightClient).
#[derive(Debug, Drop, PartialEq, Eq)]
pub enum Mark {
    /// A text, which is written with one `$` more where it begins with `$`.
    Plain(Text),
    /// That the array in which it stands first is an element.
    Element,
    /// The value of a row, which may come later.
    Lazy(u32),
    /// The promise of a row's value.
    Promise(u32),
    /// The value at a place.
    Value(Ref),
    /// The Map whose entries stand at a place.
    Map(Ref),
    /// The Set whose items stand at a place.
    Set(Ref),
    /// The server reference that a row describes.
    Action(u32),
    /// A date, of the form that `flight_value::is_date` tests.
    Date(Text),
    /// A BigInt. That it has 128 bits at most is this project's limit.
    Big(i128),
    /// A symbol of the global registry, by its name.
    Symbol(Text),
    Undefined,
    Constant(Constant),
}

/// Why a string was not read.
#[derive(Clone, Copy, Debug, PartialEq, Eq)]
pub enum Marked {
    /// It begins with `$` and spells no mark.
    BadToken,
    /// Memory was wanting.
    Memory,
}

impl From<Memory> for Marked {
    ghost use Rattle.std.specs.Prelude.{◌≡◌};
    ghost use Rattle.flight_text.specs.declared.mark.Marked.TheVariants as marked;

    ghost from_gives = { λ _ e. e ≡ marked.Memory };

    fn from(_memory: Memory) -> Marked {
        Marked::Memory
    }
}
