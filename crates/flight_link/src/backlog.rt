ghost use Rattle.std.specs.Prelude.{take, ◌-◌, MatchOption, OnOk, ◌≡◌, ◌∷◌, [], ◌++◌, ◌+◌, ◌^◌, ◌<◌, ◌≤◌, ℕ, List, length, slice_set, vec_capacity};
ghost use Rattle.flight_link.specs.Backlogs.{cell, Puts, Takes, IsLast, IsAtRest, HasRoom};
ghost use Rattle.flight_link.specs.declared.node.State.{State};
ghost use Rattle.flight_link.specs.declared.node.State.TheVariants.{Behind};

use crate::cell::Cell;
use crate::node::State;
use flight_value::Memory;

/// The walks that stand behind each node, and the nodes whose walks have ended since.
#[derive(Drop)]
pub struct Backlog {
    /// For each node the first walk that stands behind it.
    pub first: Vec<Cell>,
    /// For each walk the next one that stands behind the same node.
    pub next: Vec<Cell>,
    /// Nodes whose walks have ended, behind which walks may still stand.
    pub ended: Vec<u32>,
}

impl Backlog {
    /// The last of the nodes whose walks have ended.
    pub fn last(&self) -> Option<u32>
        ensures { MatchOption result (self.now.ended.items ≡ []) (IsLast self.now.ended.items) }
    {
        self.ended.last().copied()
    }

    /// Removes the last of the nodes whose walks have ended.
    pub fn leave(&mut self)
        ensures ended { self.new.ended.items ≡ take (length self.old.ended.items - 1) self.old.ended.items }
        ensures rest { (self.new.first.items ≡ self.old.first.items) × (self.new.next.items ≡ self.old.next.items) }
        ensures capacity { vec_capacity self.old.ended ≤ vec_capacity self.new.ended }
    {
        let _ = self.ended.pop();
    }

    /// Makes room for so many nodes.
    pub fn reach(&mut self, count: u32) -> Result<(), Memory>
        requires { self.old.ended.items ≡ [] }
        ensures rest { (states : List State) → IsAtRest states self.old → IsAtRest states self.new }
        ensures room { (states : List State) → length states ≡ count → OnOk result (HasRoom states self.new) }
    {
        let count = count as usize;
        reach(&mut self.first, count)?;
        reach(&mut self.next, count)?;
        self.ended.reserve(count.saturating_add(1))?;
        Ok(())
    }

    /// Puts a walk where it stands: behind another, or among those that have ended.
    pub fn put(&mut self, node: u32, state: State)
        requires number { node + 1 < 2 ^ 32 }
        requires next { node < length self.old.next.items }
        requires first { (behind left : ℕ) → state ≡ Behind behind left → behind < length self.old.first.items }
        requires room { length self.old.ended.items < vec_capacity self.old.ended }
        ensures puts { Puts self.old node state self.new }
        ensures capacity { vec_capacity self.old.ended ≤ vec_capacity self.new.ended }
    {
        match state {
            State::Behind { node: behind, .. } => {
                put_cell(&mut self.next, node, cell_at(self.first.as_slice(), behind));
                put_cell(&mut self.first, behind, Cell::of(node));
            }
            State::Ended(_) | State::Lost => queue(&mut self.ended, node),
            State::Absent => {}
        }
    }

    /// Takes the first walk that stands behind a node.
    pub fn take(&mut self, behind: u32) -> Option<u32>
        requires { behind < length self.old.first.items }
        ensures takes { Takes self.old behind result self.new }
        ensures capacity { vec_capacity self.old.ended ≤ vec_capacity self.new.ended }
    {
        match cell_at(self.first.as_slice(), behind).get() {
            Some(node) => {
                put_cell(&mut self.first, behind, cell_at(self.next.as_slice(), node));
                Some(node)
            }
            None => None,
        }
    }
}

/// Appends empty cells up to a count.
pub fn reach(cells: &mut Vec<Cell>, count: usize) -> Result<(), Memory>
    ensures same { (n : ℕ) → cell cells.new.items n ≡ cell cells.old.items n }
    ensures count { OnOk result (count ≤ length cells.new.items) }
    ensures exact { length cells.old.items ≤ count → OnOk result (length cells.new.items ≡ count) }
{
    if cells.len() < count {
        cells.resize(count, Cell::none())?;
    }
    Ok(())
}

pub fn cell_at(cells: &[Cell], node: u32) -> Cell
    ensures { result ≡ cell cells.now node }
{
    match cells.get(node as usize) {
        Some(next) => *next,
        None => Cell::none(),
    }
}

/// Queues a node, where there is room.
fn queue(ended: &mut Vec<u32>, node: u32)
    requires { length ended.old.items < vec_capacity ended.old }
    ensures items { ended.new.items ≡ ended.old.items ++ node ∷ [] }
    ensures capacity { vec_capacity ended.old ≤ vec_capacity ended.new }
{
    ended.push_reserved(node);
}

pub fn put_cell(cells: &mut Vec<Cell>, node: u32, next: Cell)
    requires { node < length cells.old.items }
    ensures { cells.new.items ≡ slice_set cells.old.items node next }
{
    cells[node as usize] = next;
}
