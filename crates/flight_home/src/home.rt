ghost use Rattle.std.specs.Prelude.{◌≡◌, ◌++◌, ◌∷◌, [], OnOk, OnErr, IfSome, IfNone, MatchOption, Some, ◌≤◌, length, slice_get, take};
ghost use Rattle.flight_value.specs.Listed.{In};
ghost use Rattle.flight_home.specs.Homes.{IsNew};

use flight_text::Ref;
use flight_value::{Key, Memory};
use indexmap::IndexMap;
use std::alloc::Global;
use std::marker::Model;

/// The homes of keys, which contracts see as the list of their pairs, in the order in which they were put.
#[derive(Drop)]
pub struct Home {
    refs: IndexMap<Key, Ref>,
}

impl Model for Home {
    ghost use Rattle.flight_home.specs.Homes.{Homes};

    ghost Value = { Homes };

    ghost view = { λ h. h.refs.entries };
}

impl Home {
    /// No homes so far.
    pub fn new(alloc: Global) -> Home
        ensures { result ≡ [] }
    {
        Home {
            refs: IndexMap::new(alloc),
        }
    }

    /// How many homes there are.
    pub fn len(&self) -> usize
        ensures { result ≡ length self.now }
    {
        self.refs.len()
    }

    /// The home of a key, if it has one.
    pub fn get(&self, key: &Key) -> Option<&Ref>
        ensures found { IfSome result (λ home. In (key.now, home.now) self.now) }
        ensures absent { IfNone result (IsNew key.now self.now) }
    {
        self.refs.get(key)
    }

    /// The key and the home of a number, in the order in which they were put.
    pub fn entry(&self, number: usize) -> Option<(&Key, &Ref)>
        ensures { MatchOption result (length self.now ≤ number) (λ entry. slice_get self.now number ≡ Some (entry.0.now, entry.1.now)) }
    {
        self.refs.get_index(number)
    }

    /// Puts the home of a key that has none.
    pub fn put(&mut self, key: Key, home: Ref) -> Result<(), Memory>
        requires absent { IsNew key self.old }
        ensures added { OnOk result (self.new ≡ self.old ++ (key, home) ∷ []) }
        ensures same { OnErr result (self.new ≡ self.old) }
    {
        self.refs.insert(key, home)?;
        Ok(())
    }

    /// Keeps the homes that were put first.
    pub fn cut(&mut self, len: usize)
        ensures { self.new ≡ take len self.old }
    {
        self.refs.truncate(len);
    }
}
