use flight_meaning::Place;
use std::alloc::Global;

/// Memory that is kept from row to row.
#[derive(Drop)]
pub struct Scratch {
    /// For reading JSON.
    pub(crate) json: json::Scratch,
    /// Where the places of a row are made. A row that failed may leave some in it.
    pub(crate) places: Vec<Place>,
}

impl Scratch {
    pub fn new(alloc: Global) -> Scratch {
        Scratch {
            json: json::Scratch::new(alloc),
            places: Vec::new(alloc),
        }
    }
}
