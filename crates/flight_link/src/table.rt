ghost use Rattle.std.specs.Prelude.{◌≡◌, ◌≢◌, ◌↔◌, IsTrue, [], false, ℕ, length, slice_get, option_copied, option_and_then, drop};
ghost use Rattle.flight_meaning.specs.Linked.{rows_of, FollowOn};
ghost use Rattle.flight_link.specs.Nodes.{IsTable, IsStop, IsStep, place_in, node_in, spot_of, Reaches, Gets, steps_left};

use crate::cell::Cell;
use crate::found::Spot;
use crate::ids::Ids;
use crate::node::{Start, State};
use crate::step::{is_failure, step_down};
use flight_meaning::{Place, PlacedRow};
use flight_value::{List, Text};

/// The rows, and the nodes of their ids and of the places that are followed.
#[derive(Drop)]
pub struct Table {
    pub rows: Vec<PlacedRow>,
    /// Whose walks the nodes are.
    pub starts: Vec<Start>,
    /// For each row and each place in it the node of that place, if it is followed. A list may end before the places do.
    pub index: Vec<List<Cell>>,
    pub known: Ids,
}

/// A step from a place.
#[derive(Clone, Copy)]
pub enum Step {
    /// The walk ends where it is, at a failure.
    Stops,
    /// The name leads nowhere.
    Leaves,
    /// To a place that is not followed.
    To(Spot),
    /// To a place that is followed, whose node has this number.
    Meets(u32),
}

impl Table {
    /// What stands at a place.
    pub fn place(&self, spot: Spot) -> Option<&Place>
        ensures { option_copied result ≡ place_in self.now.rows.items spot }
    {
        match row_at(self.rows.as_slice(), spot.row as usize) {
            Some(row) => place_at(row.tree.places.as_slice(), spot.place as usize),
            None => None,
        }
    }

    /// A fact alone: no row was refused.
    pub fn follow_on(&self)
        requires { IsTable self.now }
        ensures { FollowOn self.now.rows.items }
    {}

    /// Whether an id has a row.
    pub fn has_row(&self, id: u32) -> bool
        requires { IsTable self.now }
        ensures some { IsTrue result ↔ (rows_of id self.now.rows.items ≢ []) }
        ensures none { result ≡ false → rows_of id self.now.rows.items ≡ [] }
    {
        match self.known.get(id) {
            Some(known) => known.row.get().is_some(),
            None => false,
        }
    }

    /// The node of a place that is followed.
    pub fn node(&self, spot: Spot) -> Option<u32>
        ensures { result ≡ node_in self.now.index.items spot }
    {
        match list_at(self.index.as_slice(), spot.row as usize) {
            Some(row) => node_at(row.as_slice(), spot.place as usize),
            None => None,
        }
    }

    /// A step from a place that is not followed.
    pub fn step(&self, spot: Spot, name: &Text) -> Step
        requires table { IsTable self.now }
        requires stop { IsStop self.now.rows.items spot }
        ensures { IsStep self.now.rows.items self.now.starts.items spot name.now result }
    {
        let Some(place) = self.place(spot) else {
            return Step::Leaves;
        };
        if is_failure(place) {
            return Step::Stops;
        }
        let Some(number) = step_down(place, name) else {
            return Step::Leaves;
        };
        let next = Spot {
            row: spot.row,
            place: number,
        };
        match self.node(next) {
            Some(node) => Step::Meets(node),
            None => Step::To(next),
        }
    }
}

/// The row of a number.
pub fn row_at(rows: &[PlacedRow], index: usize) -> Option<&PlacedRow>
    ensures { option_copied result ≡ slice_get rows.now index }
{
    rows.get(index)
}

/// The place of a number.
pub fn place_at(places: &[Place], index: usize) -> Option<&Place>
    ensures { option_copied result ≡ slice_get places.now index }
{
    places.get(index)
}

fn list_at(lists: &[List<Cell>], index: usize) -> Option<&List<Cell>>
    ensures { option_copied result ≡ slice_get lists.now index }
{
    lists.get(index)
}

/// The number of a place's node.
pub fn node_at(nodes: &[Cell], index: usize) -> Option<u32>
    ensures { result ≡ option_and_then (λ o. o) (slice_get nodes.now index) }
{
    match nodes.get(index) {
        Some(node) => node.get(),
        None => None,
    }
}
