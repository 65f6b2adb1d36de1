use flight_value::{Flow, Graph, List, Text};

/// What a source comes to.
#[derive(Drop)]
pub enum Outcome {
    /// A value.
    Value(Graph),
    /// A failure, with its digest.
    Reject(Text),
}

/// A source of data.
#[derive(Drop)]
pub struct Data {
    pub name: Text,
    pub outcome: Outcome,
}

/// A stream, with the sources of its items and of its final value, by their positions.
#[derive(Drop)]
pub struct Flowing {
    pub name: Text,
    pub flow: Flow,
    pub items: List<u32>,
    pub last: Option<u32>,
}

/// The sources and the streams, each ascending by the bytes of their names, and for each settler the
/// sources that it settles, by their positions.
#[derive(Drop)]
pub struct Script {
    pub sources: List<Data>,
    pub streams: List<Flowing>,
    pub settlers: List<List<u32>>,
}

/// Which sources are settled, by their positions.
#[derive(Drop)]
pub struct Seen {
    pub settled: List<bool>,
}
