ghost use Rattle.std.specs.Prelude.{true, false, ◌≡◌, ◌<◌, ◌≤◌, [], length, OnOk, OnErr, IsOk};
ghost use Rattle.flight_base.specs.Outside.{Rose, WentOut, appended};

use crate::outside::{Sink, Unwritten};

/// Writes all bytes.
///
/// They are appended to those held. `Failed` comes only where the count of faults rose, and
/// `Memory` only from a sink that takes memory; after either, a front of the bytes went out, and
/// not all of them. With no bytes the sink is not touched. Nothing is finished here.
pub fn write_all<K: Sink>(sink: &mut K, bytes: &[u8]) -> Result<(), Unwritten>
    ensures ok { OnOk result (K.held sink.new ≡ appended (K.held sink.old) bytes.now) }
    ensures unfinished { OnOk result (0 < length bytes.now → K.finished sink.new ≡ false) }
    ensures empty { bytes.now ≡ [] → IsOk result × (sink.new ≡ sink.old) }

    ensures err { OnErr result (WentOut (K.held sink.old) (K.held sink.new) bytes.now) }
    ensures cause { result ≡ Err Unwritten.Failed → Rose (K.faults sink.old) (K.faults sink.new) }
    ensures memory { result ≡ Err Unwritten.Memory → K.takes_memory sink.old ≡ true }

    ensures later { K.faults sink.old ≤ K.faults sink.new }
    ensures same { K.takes_memory sink.new ≡ K.takes_memory sink.old }
{
    let mut at = 0;
    'turns: while at < bytes.len() {
        at += sink.write(&bytes[at..])?;
    }
    Ok(())
}
