/// Where a payload comes from.
#[derive(Clone, Copy, Debug, PartialEq, Eq)]
pub enum Manner {
    /// From a server, in a stream of rows.
    Wire,
    /// From a client, in a reply. It has no elements, lazy values and symbols, and no server references behind `$h`
    /// (React 19.0, `parseModelString` of ReactFlightReplyServer).
    Reply,
}
