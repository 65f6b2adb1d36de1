ghost use Rattle.std.specs.Prelude.{◌≡◌, ◌≢◌, ◌↔◌, ◌++◌, [], OnOk, IfErr, ℕ};
ghost use Rattle.flight_feed.specs.Parts.{IsPart};
ghost use Rattle.flight_feed.specs.Stream.{Advances, IsRefused, IsLeft};
ghost use Rattle.flight_feed.specs.declared.fault.FeedFault.{FeedFault};
ghost use Rattle.flight_feed.specs.declared.fault.FeedKind.{FeedKind};

use crate::arrived::Arrived;
use crate::begun::{Begun, Stop};
use crate::fault::{FeedFault, FeedKind};
use crate::take::take_all;
use std::alloc::Global;
use std::marker::Model;

/// A reader of rows that come in pieces.
#[derive(Drop)]
pub struct Feed {
    alloc: Global,
    begun: Begun,
    fault: Option<FeedFault>,
}

impl Model for Feed {
    ghost use Rattle.std.specs.Prelude.{◌≡◌, None};
    ghost use Rattle.flight_feed.specs.Fed.{Fed};
    ghost use Rattle.flight_feed.specs.Begun.{IsBegun, bytes_of};

    ghost Value = { Fed };

    ghost view = { λ f. record { fault = f.fault; number = f.begun.number; bytes = bytes_of f.begun } };

    ghost invariant = { λ f. f.fault ≡ None → IsBegun f.begun };
}

impl Feed {
    /// A reader before the first byte. It takes no memory yet.
    pub fn new(alloc: Global) -> Feed
        ensures { result ≡ record { fault = None; number = 1; bytes = [] } }
    {
        Feed {
            alloc,
            begun: Begun::new(alloc),
            fault: None,
        }
    }

    /// Takes the next bytes of the stream, and appends the rows that are whole now. Where a row is faulty, the rows
    /// before it are appended; where memory is wanting, some of them. Every later call answers the same fault.
    pub fn feed(&mut self, piece: &[u8], out: &mut Vec<Arrived>) -> Result<(), FeedFault>
        ensures ok { OnOk result ((self.old.fault ≡ None) × (self.new.fault ≡ None) × Advances (self.old.bytes ++ piece.now) self.old.number out.old.items out.new.items self.new.bytes self.new.number) }
        ensures part { OnOk result (IsPart self.new.bytes) }
        ensures again { (f : FeedFault) → self.old.fault ≡ Some f → (result ≡ Err f) × (out.new.items ≡ out.old.items) }
        ensures kept { IfErr result (λ f. self.new.fault ≡ Some f) }
        ensures refused { (number : ℕ) (kind : FeedKind) → self.old.fault ≡ None → result ≡ Err (FeedFault.Row number kind) → IsRefused number kind (self.old.bytes ++ piece.now) self.old.number out.old.items out.new.items }
        ensures memory { self.old.fault ≡ None → result ≡ Err FeedFault.Memory → IsLeft (self.old.bytes ++ piece.now) self.old.number out.old.items out.new.items }
    {
        if let Some(fault) = self.fault {
            return Err(fault);
        }
        let fault = match take_all(self.alloc, &mut self.begun, out, piece) {
            Ok(()) => return Ok(()),
            Err(Stop::Refused(kind)) => FeedFault::Row {
                number: self.begun.number,
                kind,
            },
            Err(Stop::Memory) => FeedFault::Memory,
        };
        self.fault = Some(fault);
        Err(fault)
    }

    /// Ends the stream. A row that has begun is cut.
    pub fn end(&mut self) -> Result<(), FeedFault>
        ensures whole { (result ≡ Ok tt) ↔ ((self.old.fault ≡ None) × (self.old.bytes ≡ [])) }
        ensures same { OnOk result (self.new ≡ self.old) }
        ensures cut { self.old.fault ≡ None → self.old.bytes ≢ [] → result ≡ Err (FeedFault.Row self.old.number FeedKind.Cut) }
        ensures again { (f : FeedFault) → self.old.fault ≡ Some f → result ≡ Err f }
        ensures kept { IfErr result (λ f. self.new.fault ≡ Some f) }
    {
        if let Some(fault) = self.fault {
            return Err(fault);
        }
        if self.begun.is_empty() {
            return Ok(());
        }
        let fault = FeedFault::Row {
            number: self.begun.number,
            kind: FeedKind::Cut,
        };
        self.fault = Some(fault);
        Err(fault)
    }
}
