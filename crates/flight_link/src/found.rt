use flight_graph::Label;

/// A place of the rows that were added.
#[derive(Clone, Copy, Debug, PartialEq, Eq)]
pub struct Spot {
    /// Which of the added rows, from 0.
    pub row: u32,
    /// The number of the place in its row.
    pub place: u32,
}

/// Where a reference leads.
#[derive(Clone, Copy, Debug, PartialEq, Eq)]
pub enum Found {
    /// To a place; to a stream by its opening row and the place 0.
    At(Spot),
    /// On the way stands an id that has no row so far.
    NotYet { id: u32 },
    /// Nowhere; the id is that of the reference.
    Nowhere { id: u32 },
}

/// What a path from the root shows.
#[derive(Clone, Copy)]
pub enum Seen<'a> {
    Label(Label<'a>),
    /// The way meets an id that has no row so far, or steps past the last item of the open stream of that id.
    NotYet { id: u32 },
    /// The way leaves a node's slots, steps into an atom, or meets a reference that leads nowhere.
    NoPlace,
}
