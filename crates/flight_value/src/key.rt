use crate::name::Name;
use crate::text::Text;

/// What a row or a place is the home of.
#[derive(Drop, PartialEq, Eq, Hash)]
pub enum Key {
    /// A node that a body made.
    Made(Name),
    /// A node of a source's value.
    Source { source: u32, node: u32 },
    /// The promise of a source.
    Settled { source: u32 },
    Stream { stream: u32 },
    /// A server reference with no bound arguments.
    Action { action: u32 },
    /// The import of a client component.
    Client { client: u32 },
    Symbol(Text),
    /// The row of a server element's task.
    Server(Name),
}
