ghost use Rattle.std.specs.Prelude.{◌≡◌, ◌++◌, ◌∷◌, [], IfOk, OnOk, None, Some, slice_get};
ghost use Rattle.std.specs.Option.{option_copied};
ghost use Rattle.flight_seq.specs.Walk.{known_at, made_at, Adds};

use crate::known::Known;
use flight_value::{Key, List, Made, Memory, Name, Shared};
use indexmap::{IndexMap, IndexSet};
use std::alloc::Global;

/// What a walk has met: the bodies by their addresses, and the nodes, numbered in the order of meeting.
#[derive(Drop)]
pub struct Walk {
    pub bodies: IndexMap<Shared<List<u32>>, Known>,
    /// What the bodies cost together that finished.
    pub spent: u32,
    pub keys: IndexSet<Key>,
}

impl Walk {
    /// Nothing is met.
    pub fn new(alloc: Global) -> Walk
        ensures bodies { result.bodies.entries ≡ [] }
        ensures spent { result.spent ≡ 0 }
        ensures keys { result.keys.keys ≡ [] }
    {
        Walk {
            bodies: IndexMap::new(alloc),
            spent: 0,
            keys: IndexSet::new(alloc),
        }
    }

    /// What is known of the body at an address.
    pub fn known(&self, address: &Shared<List<u32>>) -> Option<&Known>
        ensures { option_copied result ≡ known_at self.now.bodies.entries address.now }
    {
        self.bodies.get(address)
    }

    /// The node of a name.
    pub fn made(&self, name: &Name) -> Option<&Made>
        ensures { option_copied result ≡ made_at self.now.bodies.entries name.now }
    {
        match self.known(&name.render) {
            Some(Known::Finished { made, .. }) => made.get().as_slice().get(name.serial as usize),
            Some(Known::Waits { .. }) | None => None,
        }
    }

    /// Adds what is known of the body at a new address.
    pub fn add(&mut self, address: Shared<List<u32>>, known: Known) -> Result<(), Memory>
        requires { known_at self.old.bodies.entries address ≡ None }
        ensures bodies { OnOk result (self.new.bodies.entries ≡ self.old.bodies.entries ++ (address, known) ∷ []) }
        ensures spent { self.new.spent ≡ self.old.spent }
        ensures keys { self.new.keys ≡ self.old.keys }
    {
        self.bodies.insert(address, known)?;
        Ok(())
    }

    /// The number of a key, the next one if it has none.
    pub fn number(&mut self, key: Key) -> Result<u32, Memory>
        ensures keys { OnOk result (Adds self.old.keys.keys key self.new.keys.keys) }
        ensures number { IfOk result (λ n. slice_get self.new.keys.keys n ≡ Some key) }
        ensures bodies { self.new.bodies ≡ self.old.bodies }
        ensures spent { self.new.spent ≡ self.old.spent }
    {
        let (number, _) = self.keys.insert_full(key)?;
        match u32::try_from(number) {
            Ok(number) => Ok(number),
            Err(_) => Err(Memory::past_limit()),
        }
    }
}
