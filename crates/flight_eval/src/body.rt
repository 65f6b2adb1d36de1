use flight_value::{List, Made, Shared, Tables, Text, Tree};

/// What a body that finished came to.
#[derive(Drop)]
pub enum Gave {
    /// A value.
    Tree(Tree),
    /// A digest, thrown.
    Threw(Text),
}

/// A body that finished.
#[derive(Drop)]
pub struct Body {
    /// Where it was rendered.
    pub address: Shared<List<u32>>,
    /// The nodes that the bodies at the proper prefixes of its address made.
    pub tables: Shared<Tables>,
    /// The nodes that it made, in the order of their serials.
    pub made: Shared<List<Made>>,
    pub gave: Gave,
    /// What it cost.
    pub cost: u32,
}

/// What an attempt at a job came to.
#[derive(Drop)]
pub enum Attempt {
    /// The job's body finished: it is the first of these.
    Finished { bodies: List<Body> },
    /// The job waits for a source that is not settled.
    Waits { source: u32 },
    /// The job's body costs more than the fuel before its end or its wait.
    OverFuel,
}
