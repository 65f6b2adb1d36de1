ghost use Rattle.std.specs.Prelude.{◌≡◌, ◌↔◌, ◌≢◌, ◌⊎◌, ℕ, List, [], ◌∷◌, true, false, IsTrue};
ghost use Rattle.flight_base.specs.Outside.{Rose, appended};
ghost use Rattle.flight_top.specs.Told.{is_whole};
ghost use Rattle.flight_top.specs.Due.{IsCommand, IsDue, PartOut, DuePartOut, texts};

use crate::due::{Undue, due_for};
use crate::told::{Status, Told};
use flight_base::{Sink, Source, Unwritten, write_all};
use std::alloc::Global;

/// Writes what is due, and finishes the sink.
fn answer<K: Sink>(sink: &mut K, status: Status, text: &str) -> Status
    requires { is_whole status ≡ true }
    ensures whole { is_whole result ≡ true → (result ≡ status) × (K.held sink.new ≡ appended (K.held sink.old) text.now) × (K.finished sink.new ≡ true) }
    ensures read { result ≢ Status.Read }
    ensures write { result ≡ Status.Write → Rose (K.faults sink.old) (K.faults sink.new) }
    ensures memory { result ≡ Status.Memory → K.takes_memory sink.old ≡ true }
    ensures part { is_whole result ≡ false → PartOut (K.held sink.old) (K.held sink.new) text.now }
{
    match write_all(sink, text.as_bytes()) {
        Ok(()) => match sink.finish() {
            Ok(()) => status,
            Err(_) => Status::Write,
        },
        Err(Unwritten::Failed) => Status::Write,
        Err(Unwritten::Memory) => Status::Memory,
    }
}

/// The program on one thread: reads what the words ask for from the source, writes to the sink, and tells how
/// it ended.
///
/// It is what a process does before it ends: the rows of a stream whose text `view` prints are not freed.
pub fn flight_alone<S: Source, K: Sink>(
    alloc: Global,
    words: &[String],
    source: &mut S,
    sink: &mut K,
) -> Told
    // With any other status than these three all that was due is printed, and the sink is finished.
    ensures whole { is_whole result.status ≡ true → (text : List ℕ) × IsDue (texts words.now) (S.left source.old) result.status text
        × (K.held sink.new ≡ appended (K.held sink.old) text) × (K.finished sink.new ≡ true) }

    // The source failed: nothing is printed.
    ensures read { result.status ≡ Status.Read → IsCommand (texts words.now) × Rose (S.faults source.old) (S.faults source.new) × (K.held sink.new ≡ K.held sink.old) }

    // The sink failed: a front of what was due is printed.
    ensures write { result.status ≡ Status.Write → Rose (K.faults sink.old) (K.faults sink.new) × DuePartOut (texts words.now) (S.left source.old) (K.held sink.old) (K.held sink.new) }

    // Memory was wanting: nothing is printed, or a front of what was due.
    ensures memory { result.status ≡ Status.Memory → (K.held sink.new ≡ K.held sink.old) ⊎ DuePartOut (texts words.now) (S.left source.old) (K.held sink.old) (K.held sink.new) }

    // Words that are no command leave the source as it was.
    ensures unread { ¬ (IsCommand (texts words.now)) → source.new ≡ source.old }
{
    match due_for(alloc, words, source) {
        Ok(due) => Told {
            status: answer(sink, due.status, due.text.as_str()),
        },
        Err(Undue::Read) => Told {
            status: Status::Read,
        },
        Err(Undue::Memory) => Told {
            status: Status::Memory,
        },
    }
}
