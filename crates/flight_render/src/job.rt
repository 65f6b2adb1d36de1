use flight_syntax::Seen;
use flight_value::{List, Name, Shared, Slot, Tables};

/// What a task is for.
#[derive(Drop)]
pub enum What {
    Root,
    /// A server element, with the tables of its address.
    Element {
        element: Name,
        tables: Shared<Tables>,
    },
    /// The promise of a source.
    Promise {
        source: u32,
    },
    /// A promise in the arguments of a call, with its slot.
    Known {
        slot: Slot,
    },
    /// An item of a stream, from 0.
    Item {
        stream: u32,
        index: u32,
    },
    /// The end of a stream.
    Last {
        stream: u32,
    },
}

/// One attempt at a task: with which sources settled, and how many further server elements it may finish.
#[derive(Drop)]
pub struct Job {
    pub task: u32,
    pub turn: u64,
    pub address: Shared<List<u32>>,
    pub what: What,
    pub seen: Shared<Seen>,
    pub room: u32,
}
