ghost use Rattle.std.specs.Prelude.{◌≡◌, ◌<◌, ◌≤◌, ◌↔◌, ◌++◌, min, length, take, drop, Some, [], IsErr, IfOk, OnErr};
ghost use Rattle.flight_base.specs.Calls.{FailsNext, unmade, after_read, after_failed_read};

use crate::outside::{Failed, Source};
use crate::schedule::Schedule;
use std::marker::Model;

/// A source over memory, which gives few bytes a call and fails at calls that are given to it.
///
/// Contracts see the bytes left, how many it gave, at most how many it gives a call, and its calls:
/// the numbers of those that fail, how many were made and how many of them failed. The last is its
/// count of faults. Calls are numbered from 0.
#[derive(Drop)]
pub struct MemSource {
    bytes: Vec<u8>,
    at: usize,
    most: usize,
    schedule: Schedule,
}

impl Model for MemSource {
    ghost use Rattle.std.specs.Prelude.{◌≤◌, drop};
    ghost use Rattle.std.specs.Vec.{vec_len};
    ghost use Rattle.flight_base.specs.Calls.{SourceState};

    ghost Value = { SourceState };

    ghost view = { λ s. record {
      left = drop s.at s.bytes.items;
      given = s.at;
      most = s.most;
      calls = s.schedule;
    } };

    ghost invariant = { λ s. (s.at ≤ vec_len s.bytes) × (1 ≤ s.most) };
}

impl MemSource {
    /// A source of these bytes, which gives at most `most` a call, at least 1, and fails exactly at
    /// the calls whose numbers stand in `fails`.
    pub fn new(bytes: Vec<u8>, most: usize, fails: Vec<u32>) -> MemSource
        requires { 1 ≤ most }
        ensures { result
            ≡ record { left = bytes.items; given = 0; most = most; calls = unmade fails.items } }
    {
        MemSource {
            bytes,
            at: 0,
            most,
            schedule: Schedule::new(fails),
        }
    }
}

impl Source for MemSource {
    ghost left = { λ s. Some s.left };

    ghost faults = { λ s. s.calls.failed };

    ghost met = { λ s. s.given };

    ghost reads = { λ s. s.calls.made };

    /// Gives `most` bytes, or as many as are left and as `buf` takes where that is fewer. What
    /// stands in `buf` behind them stays.
    fn read(&mut self, buf: &mut [u8]) -> Result<usize, Failed>
        requires { 0 < length buf.old }
        ensures fails { IsErr result ↔ FailsNext self.old.calls }
        ensures amount { IfOk result (λ n.
            n ≡ min (length buf.old) (min self.old.most (length self.old.left))) }
        ensures end { result ≡ Ok 0 → self.old.left ≡ [] }
        ensures ok { IfOk result (λ n. self.new ≡ after_read self.old n) }
        ensures buffer { IfOk result (λ n. buf.new ≡ take n self.old.left ++ drop n buf.old) }
        ensures err { OnErr result ((self.new ≡ after_failed_read self.old) × (buf.new ≡ buf.old)) }
    {
        if self.schedule.call_fails() {
            return Err(Failed);
        }
        let count = buf.len().min(self.most).min(self.bytes.len() - self.at);
        buf[..count].copy_from_slice(&self.bytes[self.at..self.at + count]);
        self.at += count;
        Ok(count)
    }
}
