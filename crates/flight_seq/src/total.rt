use flight_value::Graph;

/// What a rendering costs: the sum over the bodies that finish in it, each once.
#[derive(Clone, Copy, Debug, PartialEq, Eq)]
pub enum Cost {
    Within { total: u32 },
    /// More than the fuel, in the sum or in one body before its end or its wait.
    Over,
}

/// A rendering: what it costs and its graph, where it is within its fuel.
#[derive(Drop)]
pub enum Rendered {
    Within { total: u32, graph: Graph },
    /// It costs more than the fuel.
    Over,
}
