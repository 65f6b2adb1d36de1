use flight_row::Row;

/// A row that came, with its number in the stream.
#[derive(Debug, Drop, PartialEq, Eq)]
pub struct Arrived {
    /// From 1. Hint rows are counted too, and not handed out.
    pub number: u64,
    pub row: Row,
}
