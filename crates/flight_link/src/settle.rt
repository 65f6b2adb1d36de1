ghost use Rattle.std.specs.Prelude.{Some, None, ℕ, ◌≡◌, ◌≢◌, ◌<◌, ◌≤◌, length, slice_get, slice_set, true, MatchOption, vec_capacity};
ghost use Rattle.flight_link.specs.declared.node.Start.{Start};
ghost use Rattle.flight_link.specs.Backlogs.{AreBegun, AreListed, HasRoom, IsAtRest, IsSettled, StandsBehind, GoesOn, to_do};
ghost use Rattle.flight_link.specs.Nodes.{IsTable, AreStates, AreQuiet, IsQuiet, IsLoose, Moves, IsNodeAt, names_of, names_in, followed, has_ended};

use crate::advance::{last_of, state_at};
use crate::backlog::Backlog;
use crate::node::{Loose, Start, State};
use crate::step::walk_of;
use crate::table::Table;
use flight_meaning::Place;
use flight_value::Text;
use std::ops::Range;

impl Table {
    /// Lets walks go on until none stands behind one that has ended. One of the nodes and those from a number on are
    /// not in the lists yet.
    pub fn settle(&self, states: &mut [State], backlog: &mut Backlog, nodes: Range<u32>, node: u32)
        requires table { IsTable self.now }
        requires states { AreStates self.now states.old }
        requires begun { AreBegun nodes.start node states.old backlog.old }
        requires room { HasRoom states.old backlog.old }
        requires below { node < nodes.start }
        requires all { (nodes.start ≤ nodes.end) × (nodes.end ≡ length states.old) }
        ensures states { AreStates self.now states.new }
        ensures settled { IsSettled states.new backlog.new }
    {
        self.hang(states, backlog, node);
        for fresh in nodes.start..nodes.end {
            self.hang(states, backlog, fresh);
        }
        self.drain(states, backlog);
    }

    /// Lets the walks go on that stand behind those that have ended.
    fn drain(&self, states: &mut [State], backlog: &mut Backlog)
        requires table { IsTable self.now }
        requires states { AreStates self.now states.old }
        requires listed { AreListed (length states.old) None states.old backlog.old }
        requires room { HasRoom states.old backlog.old }
        ensures states { AreStates self.now states.new }
        ensures quiet { AreQuiet states.new }
        ensures rest { IsAtRest states.new backlog.new }
    {
        while let Some(ended) = backlog.last() {
            match backlog.take(ended) {
                Some(node) => self.hang(states, backlog, node),
                None => backlog.leave(),
            }
        }
    }

    /// Lets a walk go on as far as it can, and puts it where it stands then.
    fn hang(&self, states: &mut [State], backlog: &mut Backlog, node: u32)
        requires table { IsTable self.now }
        requires states { AreStates self.now states.old }
        requires node { node < length states.old }
        requires room { HasRoom states.old backlog.old }
        requires space { length backlog.old.ended.items < vec_capacity backlog.old.ended }
        ensures states { AreStates self.now states.new }
        ensures room { HasRoom states.new backlog.new }
        ensures listed { (count : ℕ) → node < count → AreListed count (Some node) states.old backlog.old → AreListed count None states.new backlog.new }
        ensures fewer { (behind : ℕ) → StandsBehind states.old node behind → has_ended states.old behind ≡ true → to_do states.new backlog.new < to_do states.old backlog.old }
        ensures count { length states.new ≡ length states.old }
        ensures others { (n : ℕ) → node ≢ n → slice_get states.new n ≡ slice_get states.old n }
    {
        let next = self.onward(states, node);
        put_at(states, node, next);
        backlog.put(node, next);
    }

    /// Where a walk goes on to, if the one behind which it stands has ended.
    fn onward(&self, states: &[State], node: u32) -> State
        requires table { IsTable self.now }
        requires states { AreStates self.now states.now }
        requires node { node < length states.now }
        ensures { GoesOn self.now states.now node result }
    {
        let state = state_at(states, node);
        match ended_behind(states, state) {
            Some((behind, left)) => self.moved(
                states,
                Loose {
                    node: node as usize,
                    behind,
                    left,
                },
            ),
            None => state,
        }
    }

    /// Where a loose walk goes on to.
    fn moved(&self, states: &[State], loose: Loose) -> State
        requires table { IsTable self.now }
        requires states { AreStates self.now states.now }
        requires loose { IsLoose states.now loose }
        ensures moves { Moves self.now loose result }
        ensures quiet { IsQuiet states.now result }
    {
        let names = last_of(self.names(loose.node), loose.left);
        self.advance(states, loose.behind, names)
    }

    /// The names of a node's walk.
    fn names(&self, node: usize) -> &[Text]
        requires { node < length self.now.starts.items }
        ensures { (start : Start) → IsNodeAt self.now.starts.items node start → result.now ≡ names_of self.now.rows.items start }
    {
        match start_at(self.starts.as_slice(), node) {
            Start::Id(_) => &[],
            Start::Place(spot) => match self.place(spot) {
                Some(place) => names_at(place),
                None => &[],
            },
        }
    }
}

/// Whose walk a node is.
pub fn start_at(starts: &[Start], node: usize) -> Start
    requires { node < length starts.now }
    ensures { IsNodeAt starts.now node result }
{
    starts[node]
}

/// The names of a lazy or a value reference.
fn names_at(place: &Place) -> &[Text]
    ensures { result.now ≡ names_in (followed place.now) }
{
    match walk_of(place) {
        Some((_, names)) => names,
        None => &[],
    }
}

fn put_at(states: &mut [State], node: u32, state: State)
    requires { node < length states.old }
    ensures { states.new ≡ slice_set states.old node state }
{
    states[node as usize] = state;
}

/// The node behind which a walk stands, if that one's has ended, and how many names are left.
fn ended_behind(states: &[State], state: State) -> Option<(u32, usize)>
    ensures { MatchOption result (IsQuiet states.now state) (λ p. (state ≡ State.Behind p.0 p.1) × (has_ended states.now p.0 ≡ true)) }
{
    match state {
        State::Behind { node, left } if ended_at(states, node) => Some((node, left)),
        _ => None,
    }
}

/// Whether the walk of a node has ended.
fn ended_at(states: &[State], node: u32) -> bool
    ensures { result ≡ has_ended states.now node }
{
    matches!(
        states.get(node as usize),
        Some(State::Ended(_) | State::Lost)
    )
}
