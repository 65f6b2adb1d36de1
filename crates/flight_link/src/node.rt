use crate::found::Spot;

/// Whose walk it is.
#[derive(Clone, Copy)]
pub enum Start {
    /// The way to the value of an id.
    Id(u32),
    /// The way from a lazy or a value reference.
    Place(Spot),
}

/// Where a walk stands.
#[derive(Clone, Copy)]
pub enum State {
    /// Its id has no row yet.
    Absent,
    /// It has ended at a place.
    Ended(Spot),
    /// It leads nowhere.
    Lost,
    /// It stands where the walk of another node begins, with so many of its names left.
    Behind { node: u32, left: usize },
}

/// A walk that stands behind one that has ended.
#[derive(Clone, Copy)]
pub struct Loose {
    pub node: usize,
    pub behind: u32,
    pub left: usize,
}
