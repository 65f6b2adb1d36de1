ghost use Rattle.std.specs.Prelude.{◌≡◌, ◌≤◌, ◌<◌, ◌^◌, ◌++◌, ◌∷◌, [], IfOk, OnOk, List, length, slice_get, None, Some, ℕ, nat_eq, cond};
ghost use Rattle.std.specs.HashMap.{get};
ghost use Rattle.flight_meaning.specs.declared.place.PlacedRow.{PlacedRow};
ghost use Rattle.flight_link.specs.Marks.{AreBases};
ghost use Rattle.flight_link.specs.Nodes.{IsTable};
ghost use Rattle.flight_link.specs.Numbering.{AreNumbered, Grows, IsKey, IsPut, number_of as its_number};
ghost use Rattle.flight_link.specs.Spots.{places_in};

use crate::backlog::{cell_at, put_cell, reach};
use crate::cell::Cell;
use crate::key::NodeKey;
use crate::mention::Bases;
use crate::room::put_last;
use crate::table::Table;
use crate::unproved::unproved;
use flight_value::Memory;
use std::alloc::Global;
use std::collections::HashMap;

/// Keys of nodes, each under a number of its own.
#[derive(Drop)]
pub struct Numbers {
    pub keys: Vec<NodeKey>,
    /// For each place among all places the number of its key.
    pub places: Vec<Cell>,
    pub promises: HashMap<u32, u32>,
    pub actions: HashMap<u32, u32>,
}

impl Numbers {
    /// No keys, with room for those of so many places.
    pub fn new(alloc: Global, places: u64) -> Result<Numbers, Memory>
        ensures numbered { IfOk result (λ n. (rows : List PlacedRow) → places ≡ places_in rows → AreNumbered rows n) }
        ensures none { IfOk result (λ n. n.keys.items ≡ []) }
    {
        let Ok(count) = usize::try_from(places) else {
            return Err(unproved());
        };
        let mut places = Vec::with_capacity(alloc, count)?;
        reach(&mut places, count)?;
        Ok(Numbers {
            keys: Vec::new(alloc),
            places,
            promises: HashMap::new(alloc),
            actions: HashMap::new(alloc),
        })
    }

    /// The key of a number.
    pub fn key(&self, number: usize) -> Option<NodeKey>
        ensures { result ≡ slice_get self.now.keys.items number }
    {
        self.keys.get(number).copied()
    }
}

impl Table {
    /// The number of a key, the next one if it has none.
    pub fn number_key(
        &self,
        bases: Bases<'_>,
        numbers: &mut Numbers,
        key: NodeKey,
    ) -> Result<u32, Memory>
        requires table { IsTable self.now }
        requires bases { AreBases self.now.rows.items bases.before.now bases.total }
        requires key { IsKey self.now.rows.items key }
        requires numbered { AreNumbered self.now.rows.items numbers.old }
        ensures numbered { OnOk result (AreNumbered self.now.rows.items numbers.new) }
        ensures grows { OnOk result (Grows numbers.old.keys.items numbers.new.keys.items) }
        ensures number { IfOk result (λ n. slice_get numbers.new.keys.items n ≡ Some key) }
    {
        match self.number_of(bases, numbers, key) {
            Some(number) => Ok(number),
            None => self.add_key(bases, numbers, key),
        }
    }

    /// The next number, for a key that has none.
    pub fn add_key(
        &self,
        bases: Bases<'_>,
        numbers: &mut Numbers,
        key: NodeKey,
    ) -> Result<u32, Memory>
        requires table { IsTable self.now }
        requires bases { AreBases self.now.rows.items bases.before.now bases.total }
        requires key { IsKey self.now.rows.items key }
        requires numbered { AreNumbered self.now.rows.items numbers.old }
        requires fresh { its_number self.now.rows.items numbers.old key ≡ None }
        ensures numbered { OnOk result (AreNumbered self.now.rows.items numbers.new) }
        ensures keys { OnOk result (numbers.new.keys.items ≡ numbers.old.keys.items ++ key ∷ []) }
        ensures room { OnOk result (length numbers.old.keys.items < 2 ^ 32) }
        ensures number { IfOk result (λ n. slice_get numbers.new.keys.items n ≡ Some key) }
    {
        let Ok(number) = u32::try_from(numbers.keys.len()) else {
            return Err(unproved());
        };
        numbers.keys.reserve(1)?;
        self.put_number(bases, numbers, key, number)?;
        put_last(&mut numbers.keys, key);
        Ok(number)
    }

    /// The number of a key, if it has one.
    pub fn number_of(&self, bases: Bases<'_>, numbers: &Numbers, key: NodeKey) -> Option<u32>
        requires table { IsTable self.now }
        requires bases { AreBases self.now.rows.items bases.before.now bases.total }
        requires key { IsKey self.now.rows.items key }
        ensures { result ≡ its_number self.now.rows.items numbers.now key }
    {
        match key {
            NodeKey::Made(spot) => {
                cell_at(numbers.places.as_slice(), self.number(bases, spot)).get()
            }
            NodeKey::Promise(id) => numbers.promises.get(&id).copied(),
            NodeKey::Action(id) => numbers.actions.get(&id).copied(),
        }
    }

    fn put_number(
        &self,
        bases: Bases<'_>,
        numbers: &mut Numbers,
        key: NodeKey,
        number: u32,
    ) -> Result<(), Memory>
        requires table { IsTable self.now }
        requires bases { AreBases self.now.rows.items bases.before.now bases.total }
        requires key { IsKey self.now.rows.items key }
        requires room { places_in self.now.rows.items ≤ length numbers.old.places.items }
        ensures put { OnOk result (IsPut self.now.rows.items numbers.old numbers.new key number) }
        ensures keys { numbers.new.keys ≡ numbers.old.keys }
    {
        match key {
            NodeKey::Made(spot) => {
                let at = self.number(bases, spot);
                put_cell(&mut numbers.places, at, Cell::try_of(number)?);
                Ok(())
            }
            NodeKey::Promise(id) => put_id(&mut numbers.promises, id, number),
            NodeKey::Action(id) => put_id(&mut numbers.actions, id, number),
        }
    }
}

fn put_id(numbers: &mut HashMap<u32, u32>, id: u32, number: u32) -> Result<(), Memory>
    ensures { OnOk result ((q : ℕ) → get nat_eq numbers.new q ≡ cond (nat_eq id q) (Some number) (get nat_eq numbers.old q)) }
{
    numbers.insert(id, number)?;
    Ok(())
}
