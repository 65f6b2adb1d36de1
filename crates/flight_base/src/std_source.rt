ghost use Rattle.std.specs.Prelude.{◌≡◌, ◌<◌, ◌≤◌, length, None, IfOk, OnOk, OnErr};
ghost use Rattle.std.specs.Io.KnownBytes.{ReadConsumes};
ghost use Rattle.flight_base.specs.Outside.{raised};

use crate::outside::{Failed, Source};
use std::io::Read;
use std::marker::Model;

/// A source over a reader, such as standard input.
///
/// Every error of the reader is a fault, an interrupted read too. What comes is what the reader
/// gives, and the source tells no bytes: this is the edge where the reader is trusted.
///
/// Contracts see the reader, how many bytes it gave and how often it failed, both counted up to
/// 2^64 - 1.
#[derive(Drop)]
pub struct StdSource<R> {
    reader: R,
    given: u64,
    failed: u64,
}

impl<R> Model for StdSource<R> {
    ghost use Rattle.flight_base.specs.Adapters.{ReaderState};

    ghost Value = { ReaderState R };

    ghost view = { λ s. record { reader = s.reader; given = s.given; failed = s.failed } };
}

impl<R> StdSource<R> {
    /// A source over this reader, which gave nothing and did not fail so far.
    pub fn new(reader: R) -> StdSource<R>
        ensures { result ≡ record { reader = reader; given = 0; failed = 0 } }
    {
        StdSource {
            reader,
            given: 0,
            failed: 0,
        }
    }
}

impl<R: Read> Source for StdSource<R> {
    ghost left = { λ _. None };

    ghost faults = { λ s. s.failed };

    ghost met = { λ s. s.given };

    fn read(&mut self, buf: &mut [u8]) -> Result<usize, Failed>
        requires { 0 < length buf.old }
        ensures bound { IfOk result (λ n. n ≤ length buf.new) }
        ensures reader { ReadConsumes (R.remaining self.old.reader) (R.remaining self.new.reader)
            result buf.new }
        ensures given { IfOk result (λ n. self.new.given ≡ raised self.old.given n) }
        ensures faultless { OnOk result (self.new.failed ≡ self.old.failed) }

        ensures none { OnErr result (self.new.given ≡ self.old.given) }
        ensures failed { OnErr result (self.new.failed ≡ raised self.old.failed 1) }
    {
        match self.reader.read(buf) {
            Ok(count) => {
                self.given = self.given.saturating_add(count as u64);
                Ok(count)
            }
            Err(_) => {
                self.failed = self.failed.saturating_add(1);
                Err(Failed)
            }
        }
    }
}
