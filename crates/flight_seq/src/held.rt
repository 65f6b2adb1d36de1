use flight_value::{Flow, List, Slot, Text, Tree};

/// What stands in a slot before it is followed.
#[derive(Drop)]
pub enum Held {
    Tree(Tree),
    /// What the root's body comes to.
    Root,
    /// What a source comes to.
    Outcome { source: u32 },
    /// A slot of the arguments that a promise there holds.
    Known { slot: Slot },
    /// The final value of a stream that has none.
    Blank,
}

/// How a job ends.
#[derive(Drop)]
pub enum End {
    Gave(Tree),
    /// With a digest.
    Threw(Text),
    /// It waits for a source that is not settled.
    Waits { source: u32 },
}

/// Whether more may come of a stream.
#[derive(Drop)]
pub enum FlowState {
    Flowing,
    Closed,
    /// With a digest.
    Broken(Text),
}

/// What a node is, beside its slots.
#[derive(Drop)]
pub enum Label {
    Array,
    /// With the names of its properties.
    Object(List<Text>),
    Map,
    Set,
    Element,
    Promise,
    Stream { flow: Flow, state: FlowState },
    /// With what it is called.
    Action(Text),
}

/// A node before its slots are followed.
#[derive(Drop)]
pub struct Shape {
    pub label: Label,
    pub held: List<Held>,
}
