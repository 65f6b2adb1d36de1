ghost use Rattle.std.specs.Prelude.{true, false, ◌≡◌, ◌<◌, ◌≤◌, ◌↔◌, min, length, take, Some, [], IsErr, IfOk, OnOk, OnErr};
ghost use Rattle.flight_base.specs.Calls.{FailsNext, unmade, after_write, after_failed_write, after_unheld_write, after_finish, after_failed_finish};

use crate::outside::{Failed, Sink, Unwritten};
use crate::schedule::Schedule;
use std::alloc::Global;
use std::marker::Model;

/// A sink over memory, which takes few bytes a call and fails at calls that are given to it.
///
/// Contracts see the bytes held, at most how many it takes a call, its calls, and whether it is
/// finished. Writing and finishing are numbered together, from 0. The number of calls that failed
/// is its count of faults.
#[derive(Drop)]
pub struct MemSink {
    bytes: Vec<u8>,
    most: usize,
    schedule: Schedule,
    finished: bool,
}

impl Model for MemSink {
    ghost use Rattle.std.specs.Prelude.{◌≤◌};
    ghost use Rattle.flight_base.specs.Calls.{SinkState};

    ghost Value = { SinkState };

    ghost view = { λ s. record {
      held = s.bytes.items;
      most = s.most;
      calls = s.schedule;
      finished = s.finished;
    } };

    ghost invariant = { λ s. 1 ≤ s.most };
}

impl MemSink {
    /// An empty sink, not finished, which takes at most `most` bytes a call, at least 1, and fails
    /// exactly at the calls whose numbers stand in `fails`. It takes memory only as bytes are
    /// written.
    pub fn new(alloc: Global, most: usize, fails: Vec<u32>) -> MemSink
        requires { 1 ≤ most }
        ensures { result
            ≡ record { held = []; most = most; calls = unmade fails.items; finished = false } }
    {
        MemSink {
            bytes: Vec::new(alloc),
            most,
            schedule: Schedule::new(fails),
            finished: false,
        }
    }

    /// The bytes that were written so far.
    pub fn held(&self) -> &[u8]
        ensures { result.now ≡ self.now.held }
    {
        self.bytes.as_slice()
    }
}

impl Sink for MemSink {
    ghost held = { λ s. Some s.held };

    ghost faults = { λ s. s.calls.failed };

    ghost finished = { λ s. s.finished };

    ghost takes_memory = { λ _. true };

    /// Takes `most` bytes, or all of `piece` where that is fewer.
    fn write(&mut self, piece: &[u8]) -> Result<usize, Unwritten>
        requires { 0 < length piece.now }
        ensures fails { (result ≡ Err Unwritten.Failed) ↔ FailsNext self.old.calls }
        ensures amount { IfOk result (λ n. n ≡ min (length piece.now) self.old.most) }
        ensures some { IfOk result (λ n. 0 < n) }
        ensures ok { IfOk result (λ n. self.new ≡ after_write self.old (take n piece.now)) }
        ensures failed { result ≡ Err Unwritten.Failed → self.new ≡ after_failed_write self.old }
        ensures memory { result ≡ Err Unwritten.Memory → self.new ≡ after_unheld_write self.old }
    {
        if self.schedule.call_fails() {
            return Err(Unwritten::Failed);
        }
        let count = piece.len().min(self.most);
        if self.bytes.extend_from_slice(&piece[..count]).is_err() {
            return Err(Unwritten::Memory);
        }
        self.finished = false;
        Ok(count)
    }

    /// Finishes the sink, or leaves it unfinished where the call fails.
    fn finish(&mut self) -> Result<(), Failed>
        ensures fails { IsErr result ↔ FailsNext self.old.calls }
        ensures ok { OnOk result (self.new ≡ after_finish self.old) }
        ensures err { OnErr result (self.new ≡ after_failed_finish self.old) }
    {
        self.finished = !self.schedule.call_fails();
        if self.finished { Ok(()) } else { Err(Failed) }
    }
}
