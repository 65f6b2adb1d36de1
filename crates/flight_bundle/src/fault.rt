use flight_resolve::ParseFault;
use flight_script::ScriptFault;

/// Why bytes are no bundle. Places are in bytes, from 0.
#[derive(Drop)]
pub enum BundleFault {
    /// There are more than 1,048,576 bytes.
    TooLong,
    /// The longest front that is UTF-8 has so many bytes, and is not the whole.
    NotUtf8 { at: u32 },
    /// A reply is wanted, and there is none.
    ReplyWanted,
    /// There is a reply, and none is wanted.
    ReplyNotWanted,
    /// The first fault of the program. It is never want of memory.
    Program(ParseFault),
    /// The first fault of the script. It is never want of memory.
    Script(ScriptFault),
    /// Memory was wanting.
    Memory,
}
