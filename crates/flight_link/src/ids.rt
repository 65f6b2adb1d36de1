ghost use Rattle.std.specs.Prelude.{ℕ, ◌≡◌, ◌<◌, cond, nat_eq, None, OnErr, OnOk, Some, length, slice_set};
ghost use Rattle.std.specs.HashMap.{IsUnchanged, get};
ghost use Rattle.flight_link.specs.Known.{Learns, known_in, known_of};

use crate::cell::Cell;
use flight_value::Memory;
use std::alloc::Global;
use std::collections::HashMap;

/// What is known of an id.
#[derive(Clone, Copy)]
pub struct Known {
    /// The node whose walk goes to its value.
    pub node: u32,
    /// Its row, once it is there.
    pub row: Cell,
}

/// What is known of ids. Most streams count theirs from 0: such ids have cells of their own, and others stand in a map.
#[derive(Drop)]
pub struct Ids {
    /// By the id.
    pub dense: Vec<Option<Known>>,
    pub sparse: HashMap<u32, Known>,
    /// How often something was said of an id.
    pub count: usize,
}

impl Ids {
    /// Nothing is known.
    pub fn new(alloc: Global) -> Ids
        ensures { (id : ℕ) → known_of result id ≡ None }
    {
        Ids {
            dense: Vec::new(alloc),
            sparse: HashMap::new(alloc),
            count: 0,
        }
    }

    /// What is known of an id.
    pub fn get(&self, id: u32) -> Option<Known>
        ensures { result ≡ known_of self.now id }
    {
        match known_at(self.dense.as_slice(), id) {
            Some(known) => Some(known),
            None => entry_at(&self.sparse, id),
        }
    }

    /// Says what is known of an id.
    pub fn insert(&mut self, id: u32, known: Known) -> Result<(), Memory>
        ensures ok { OnOk result (Learns self.old id known self.new) }
        ensures err { OnErr result ((q : ℕ) → known_of self.new q ≡ known_of self.old q) }
    {
        self.reach(id)?;
        if (id as usize) < self.dense.len() {
            put_known(&mut self.dense, id, known);
            return Ok(());
        }
        put_entry(&mut self.sparse, id, known)
    }

    /// Gives a cell to an id that is small for the count, so that there are never many more cells than ids that came.
    fn reach(&mut self, id: u32) -> Result<(), Memory>
        ensures { (q : ℕ) → known_of self.new q ≡ known_of self.old q }
    {
        self.count = self.count.saturating_add(1);
        let cells = self.count.saturating_mul(2).saturating_add(64);
        if (id as usize) < cells {
            fill(&mut self.dense, cells, id)?;
        }
        Ok(())
    }
}

/// Appends empty cells up to a count, if an id has none.
fn fill(cells: &mut Vec<Option<Known>>, count: usize, id: u32) -> Result<(), Memory>
    ensures { (q : ℕ) → known_in cells.new.items q ≡ known_in cells.old.items q }
{
    if (id as usize) < cells.len() {
        return Ok(());
    }
    if cells.len() < count {
        cells.resize(count, None)?;
    }
    Ok(())
}

fn known_at(cells: &[Option<Known>], id: u32) -> Option<Known>
    ensures { result ≡ known_in cells.now id }
{
    match cells.get(id as usize) {
        Some(known) => *known,
        None => None,
    }
}

fn put_known(cells: &mut Vec<Option<Known>>, id: u32, known: Known)
    requires { id < length cells.old.items }
    ensures { cells.new.items ≡ slice_set cells.old.items id (Some known) }
{
    cells[id as usize] = Some(known);
}

/// What a map has for an id; most are empty, and then nothing is hashed.
fn entry_at(entries: &HashMap<u32, Known>, id: u32) -> Option<Known>
    ensures { result ≡ get nat_eq entries.now id }
{
    if entries.is_empty() {
        return None;
    }
    entries.get(&id).copied()
}

fn put_entry(entries: &mut HashMap<u32, Known>, id: u32, known: Known) -> Result<(), Memory>
    ensures ok { OnOk result ((q : ℕ) → get nat_eq entries.new q ≡ cond (nat_eq id q) (Some known) (get nat_eq entries.old q)) }
    ensures err { OnErr result ((q : ℕ) → get nat_eq entries.new q ≡ get nat_eq entries.old q) }
{
    entries.insert(id, known)?;
    Ok(())
}
