ghost use Rattle.std.specs.Prelude.{◌≡◌, false, MatchOption};
ghost use Rattle.flight_link.specs.Nodes.{AreLinked, HasNode, has_ended};
ghost use Rattle.flight_link.specs.Finding.{IsFound};
ghost use Rattle.flight_link.specs.Waiting.{IsResolved, WaitsFor, WaitsForever, id_of_start};

use crate::advance::state_at;
use crate::found::Found;
use crate::node::{Start, State};
use crate::settle::start_at;
use crate::table::Table;
use flight_text::Ref;
use flight_value::Text;

impl Table {
    /// Where a reference leads.
    pub fn find(&self, states: &[State], reference: &Ref) -> Found
        requires { AreLinked self.now states.now }
        ensures { IsFound self.now.rows.items reference.now result }
    {
        let id = reference.id;
        match self.resolve(states, id, reference.path.as_slice()) {
            State::Ended(spot) => Found::At(spot),
            State::Lost => Found::Nowhere { id },
            State::Absent => Found::NotYet { id },
            State::Behind { node, .. } => match self.awaited(states, node) {
                Some(id) => Found::NotYet { id },
                None => Found::Nowhere { id },
            },
        }
    }

    /// Where names lead from the value of an id: to an end, behind a node whose walk has not ended, or nowhere as
    /// long as the id has no row.
    pub fn resolve(&self, states: &[State], id: u32, names: &[Text]) -> State
        requires { AreLinked self.now states.now }
        ensures { IsResolved self.now states.now id names.now result }
    {
        match self.known.get(id) {
            Some(known) => self.advance(states, known.node, names),
            None => State::Absent,
        }
    }

    /// The id without a row for which a walk waits. None where walks wait for one another.
    pub fn awaited(&self, states: &[State], node: u32) -> Option<u32>
        requires linked { AreLinked self.now states.now }
        requires node { HasNode self.now.starts.items node }
        requires waits { has_ended states.now node ≡ false }
        ensures { MatchOption result (WaitsForever self.now node) (WaitsFor self.now node) }
    {
        let mut behind = node;
        'chain: for _ in 0..states.len() {
            match state_at(states, behind) {
                State::Behind { node, .. } => behind = node,
                State::Absent => return id_of(start_at(self.starts.as_slice(), behind as usize)),
                // No walk stands behind one that has ended.
                State::Ended(_) | State::Lost => return None,
            }
        }
        None
    }
}

/// The id of a node.
fn id_of(start: Start) -> Option<u32>
    ensures { result ≡ id_of_start start }
{
    match start {
        Start::Id(id) => Some(id),
        Start::Place(_) => None,
    }
}
