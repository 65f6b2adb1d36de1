ghost use Rattle.std.specs.Prelude.{ℕ, List, Bool, Option, ◌≡◌, ◌+◌, ◌<◌, ◌≤◌, true, false, [], length, take, IfOk, OnOk, OnErr};
ghost use Rattle.flight_base.specs.Outside.{raised, HasCause, FailsOnlyIfRose, Takes, IsAll, appended};

/// The outside failed: a read, or passing on what a sink held back.
#[derive(Clone, Copy, Debug, PartialEq, Eq)]
pub struct Failed;

/// Why nothing was written.
#[derive(Clone, Copy, Debug, PartialEq, Eq)]
pub enum Unwritten {
    /// The outside failed.
    Failed,
    /// The sink found no memory.
    Memory,
}

/// Bytes that come in, a piece at a time.
///
/// A source means the bytes that it has left, where it tells them, and a count of faults that never
/// falls. Whether it tells its bytes never changes.
pub trait Source {
    /// The bytes that are left, where the source tells them.
    ghost left: { Self → Option (List ℕ) };

    /// How often the source has failed. Counted up to 2^64 - 1.
    ghost faults: { Self → ℕ };

    /// How many bytes the source has given. Counted up to 2^64 - 1.
    ghost met: { Self → ℕ };

    /// At least so often it was read.
    ghost reads: { Self → ℕ } = { λ _. 0 };

    /// Puts the next bytes at the front of `buf`, which has room for at least one, and answers how
    /// many.
    ///
    /// The answer 0 comes exactly at the end, where the source tells its bytes. `Failed` comes only
    /// where the count of faults rose; nothing was taken then. Nothing is said of `buf` behind
    /// those bytes.
    fn read(&mut self, buf: &mut [u8]) -> Result<usize, Failed>
        requires { 0 < length buf.old }
        ensures bound { IfOk result (λ n. n ≤ length buf.new) }
        ensures bytes { IfOk result (λ n. Takes (left self.old) (left self.new) (take n buf.new)) }
        ensures end { result ≡ Ok 0 → IsAll (left self.old) [] }
        ensures counted { IfOk result (λ n. met self.new ≡ raised (met self.old) n) }

        ensures kept { OnErr result (left self.new ≡ left self.old) }
        ensures uncounted { OnErr result (met self.new ≡ met self.old) }
        ensures cause { HasCause (faults self.old) (faults self.new) result }

        ensures once { reads self.new ≤ reads self.old + 1 };
}

/// Bytes that go out, a piece at a time.
///
/// A sink means the bytes that it holds, where it tells them, a count of faults that never falls,
/// and whether it is finished. Whether it tells its bytes never changes.
pub trait Sink {
    /// The bytes that went into the sink, where it tells them.
    ghost held: { Self → Option (List ℕ) };

    /// How often the sink has failed. Counted up to 2^64 - 1.
    ghost faults: { Self → ℕ };

    /// Whether all that the sink holds is passed on.
    ghost finished: { Self → Bool };

    /// Whether the sink takes memory, so that it may want some.
    ghost takes_memory: { Self → Bool };

    /// Takes bytes from the front of `piece`, which has at least one, and answers how many: between
    /// one and all.
    ///
    /// They are appended to the bytes held, and the sink is unfinished. `Failed` comes only where
    /// the count of faults rose, and `Memory` only from a sink that takes memory. After either,
    /// nothing was taken.
    fn write(&mut self, piece: &[u8]) -> Result<usize, Unwritten>
        requires { 0 < length piece.now }
        ensures bound { IfOk result (λ n. (0 < n) × (n ≤ length piece.now)) }
        ensures bytes { IfOk result (λ n.
            held self.new ≡ appended (held self.old) (take n piece.now)) }
        ensures unfinished { OnOk result (finished self.new ≡ false) }

        ensures kept { OnErr result (held self.new ≡ held self.old) }
        ensures cause { FailsOnlyIfRose (faults self.old) (faults self.new) result }
        ensures memory { result ≡ Err Unwritten.Memory → takes_memory self.old ≡ true }

        ensures later { faults self.old ≤ faults self.new }
        ensures same { takes_memory self.new ≡ takes_memory self.old };

    /// Passes on what is held back. The bytes that the sink means stay as they were, whatever it
    /// answers.
    ///
    /// After `Ok` the sink is finished, after `Failed` it is not. `Failed` comes only where the
    /// count of faults rose.
    fn finish(&mut self) -> Result<(), Failed>
        ensures bytes { held self.new ≡ held self.old }
        ensures ok { OnOk result (finished self.new ≡ true) }
        ensures err { OnErr result (finished self.new ≡ false) }
        ensures cause { HasCause (faults self.old) (faults self.new) result }
        ensures same { takes_memory self.new ≡ takes_memory self.old };
}
