use flight_syntax::{Program, Script};
use flight_value::Graph;

/// What is rendered first.
#[derive(Drop)]
pub enum Root {
    /// The server component `App`, with no properties.
    App,
    /// An action, by the position of its declaration. Its arguments are the items of the array that is the
    /// graph's root.
    Call { action: u32, args: Graph },
}

/// A program, the data that it is rendered over, and what is rendered first.
#[derive(Drop)]
pub struct Ground {
    pub program: Program,
    pub script: Script,
    pub root: Root,
}
