use flight_value::{Flow, List};

/// What a row brings.
#[derive(Clone, Copy, Debug, PartialEq, Eq)]
pub enum RowKind {
    /// A value, as JSON.
    Model,
    /// A client module, as JSON.
    Import,
    /// A failure, as JSON with a digest.
    Error,
    /// A text, as it is.
    Text,
    /// Opens a stream. The payload is empty in a good stream.
    Open(Flow),
    /// Closes a stream, with a final value as JSON or with nothing.
    Close,
}

/// A row. Its payload is what stands between the tag and the newline; in a text row it is the counted bytes.
#[derive(Debug, Drop, PartialEq, Eq)]
pub struct Row {
    /// Below 2^31.
    pub id: u32,
    pub kind: RowKind,
    /// UTF-8, at most 67,108,864 bytes.
    pub payload: List<u8>,
}
