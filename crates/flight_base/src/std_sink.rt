ghost use Rattle.std.specs.Prelude.{true, false, ◌≡◌, ◌≢◌, ◌<◌, ◌≤◌, length, None, IfOk, OnOk, OnErr};
ghost use Rattle.std.specs.Io.KnownBytes.{Keeps, WriteAppends};
ghost use Rattle.flight_base.specs.Outside.{raised};

use crate::outside::{Failed, Sink, Unwritten};
use std::io::Write;
use std::marker::Model;

/// A sink over a writer, such as standard output.
///
/// Every error of the writer is a fault, and so is a write that takes nothing. Finishing flushes
/// the writer. The sink tells no bytes: this is the edge where the writer is trusted. It takes no
/// memory of its own.
///
/// Contracts see the writer, how often it failed, counted up to 2^64 - 1, and whether it was
/// flushed since the last write.
#[derive(Drop)]
pub struct StdSink<W> {
    writer: W,
    failed: u64,
    finished: bool,
}

impl<W> Model for StdSink<W> {
    ghost use Rattle.flight_base.specs.Adapters.{WriterState};

    ghost Value = { WriterState W };

    ghost view = { λ s. record { writer = s.writer; failed = s.failed; finished = s.finished } };
}

impl<W> StdSink<W> {
    /// A sink over this writer, which did not fail so far, and not finished.
    pub fn new(writer: W) -> StdSink<W>
        ensures { result ≡ record { writer = writer; failed = 0; finished = false } }
    {
        StdSink {
            writer,
            failed: 0,
            finished: false,
        }
    }
}

impl<W: Write> Sink for StdSink<W> {
    ghost held = { λ _. None };

    ghost faults = { λ s. s.failed };

    ghost finished = { λ s. s.finished };

    ghost takes_memory = { λ _. false };

    fn write(&mut self, piece: &[u8]) -> Result<usize, Unwritten>
        requires { 0 < length piece.now }
        ensures bound { IfOk result (λ n. (0 < n) × (n ≤ length piece.now)) }
        ensures writer { WriteAppends (W.contents self.old.writer) (W.contents self.new.writer)
            result piece.now }
        ensures unfinished { OnOk result (self.new.finished ≡ false) }
        ensures faultless { OnOk result (self.new.failed ≡ self.old.failed) }

        ensures kept { OnErr result (self.new.finished ≡ self.old.finished) }
        ensures failed { OnErr result (self.new.failed ≡ raised self.old.failed 1) }
        ensures no_memory { result ≢ Err Unwritten.Memory }
    {
        match self.writer.write(piece) {
            Ok(count) if count > 0 => {
                self.finished = false;
                Ok(count)
            }
            _ => {
                self.failed = self.failed.saturating_add(1);
                Err(Unwritten::Failed)
            }
        }
    }

    fn finish(&mut self) -> Result<(), Failed>
        ensures writer { Keeps (W.contents self.old.writer) (W.contents self.new.writer) }
        ensures ok { OnOk result (self.new.finished ≡ true) }
        ensures faultless { OnOk result (self.new.failed ≡ self.old.failed) }

        ensures err { OnErr result (self.new.finished ≡ false) }
        ensures failed { OnErr result (self.new.failed ≡ raised self.old.failed 1) }
    {
        match self.writer.flush() {
            Ok(()) => {
                self.finished = true;
                Ok(())
            }
            Err(_) => {
                self.finished = false;
                self.failed = self.failed.saturating_add(1);
                Err(Failed)
            }
        }
    }
}
