use crate::found::Spot;

/// What a node is known by, whatever its number.
#[derive(Clone, Copy)]
pub enum NodeKey {
    /// The place at which it is written.
    Made(Spot),
    /// The promise of an id's value.
    Promise(u32),
    /// The server reference that the row of an id describes.
    Action(u32),
}
