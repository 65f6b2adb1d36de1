use crate::key::NodeKey;

/// A gap in a text, where the number of a key is still to come.
#[derive(Clone, Copy)]
pub struct Gap {
    /// How many bytes stand between it and the gap before it.
    pub before: u32,
    pub key: NodeKey,
}
