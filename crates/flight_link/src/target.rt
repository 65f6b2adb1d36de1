ghost use Rattle.std.specs.Prelude.{ℕ, ◌≡◌, ◌≢◌, false, true, None, Some};
ghost use Rattle.flight_meaning.specs.declared.place.Place.{Place};
ghost use Rattle.flight_meaning.specs.declared.place.Place.TheVariants as place;
ghost use Rattle.flight_meaning.specs.Meaning.{at_place, value_of, Token, map_token, set_token};
ghost use Rattle.flight_link.specs.declared.found.Spot.{Spot};
ghost use Rattle.flight_link.specs.Least.{token_at};
ghost use Rattle.flight_link.specs.Nodes.{AreLinked, IsTable, IsStop, HasNode, followed, has_ended, place_in, spot_of};
ghost use Rattle.flight_link.specs.Waiting.{IsResolved};
ghost use Rattle.flight_link.specs.Targets.{IsTargetOf, IsTargetFrom, IsTargetBehind, IsTokenTarget, IsMissing, missing_target as target_missing};

use crate::advance::state_at;
use crate::found::Spot;
use crate::node::State;
use crate::step::walk_of;
use crate::table::Table;
use flight_meaning::Place;
use flight_text::Ref;
use flight_value::{Atom, Text};

/// What a slot leads to.
#[derive(Clone, Copy)]
pub enum Target<'a> {
    Atom(&'a Atom),
    /// The node at a place.
    Node(Spot),
    /// The promise of an id's value.
    Promise(u32),
    /// The server reference that the row of an id describes.
    Action(u32),
    /// Nothing so far: an id on the way has no row yet.
    Awaits(u32),
    /// Nothing, whatever rows come.
    Lost,
}

impl Table {
    /// What the slot leads to that is written at a place.
    pub fn target_at(&self, states: &[State], spot: Spot) -> Target<'_>
        requires linked { AreLinked self.now states.now }
        requires place { (at : Place) × (place_in self.now.rows.items spot ≡ Some at) }
        ensures { IsTargetOf self.now.rows.items (at_place (spot_of self.now.rows.items spot)) result }
    {
        match self.node(spot) {
            Some(node) => self.target_behind(states, node),
            None => self.target_from(states, spot),
        }
    }

    /// The same, where what stands at the place is at hand.
    pub fn target_written<'a>(
        &'a self,
        states: &[State],
        spot: Spot,
        place: &'a Place,
    ) -> Target<'a>
        requires linked { AreLinked self.now states.now }
        requires place { place_in self.now.rows.items spot ≡ Some place.now }
        ensures { IsTargetOf self.now.rows.items (at_place (spot_of self.now.rows.items spot)) result }
    {
        match walk_of(place) {
            Some(_) => self.target_at(states, spot),
            None => self.target_in(states, spot, place),
        }
    }

    /// What the value of an id is.
    pub fn target_of(&self, states: &[State], id: u32) -> Target<'_>
        requires { AreLinked self.now states.now }
        ensures { IsTargetOf self.now.rows.items (value_of id) result }
    {
        match self.known.get(id) {
            Some(known) => self.target_behind(states, known.node),
            None => Target::Awaits(id),
        }
    }

    /// What the slot leads to whose walk is that of a node.
    fn target_behind(&self, states: &[State], node: u32) -> Target<'_>
        requires linked { AreLinked self.now states.now }
        requires node { HasNode self.now.starts.items node }
        ensures { IsTargetBehind self.now.rows.items self.now.starts.items node result }
    {
        match state_at(states, node) {
            State::Ended(end) => self.target_from(states, end),
            State::Lost => Target::Lost,
            State::Absent | State::Behind { .. } => self.target_unended(states, node),
        }
    }

    fn target_unended(&self, states: &[State], node: u32) -> Target<'_>
        requires linked { AreLinked self.now states.now }
        requires node { HasNode self.now.starts.items node }
        requires waits { has_ended states.now node ≡ false }
        ensures { IsTargetBehind self.now.rows.items self.now.starts.items node result }
    {
        match self.awaited(states, node) {
            Some(id) => Target::Awaits(id),
            None => Target::Lost,
        }
    }

    /// What a slot leads to whose walk ends at a place.
    fn target_from(&self, states: &[State], end: Spot) -> Target<'_>
        requires linked { AreLinked self.now states.now }
        requires stop { IsStop self.now.rows.items end }
        ensures { IsTargetFrom self.now.rows.items end result }
    {
        match self.place(end) {
            Some(place) => self.target_in(states, end, place),
            // A walk ends at a place.
            None => Target::Lost,
        }
    }

    /// The same, where what stands at the place is at hand.
    fn target_in<'a>(&'a self, states: &[State], end: Spot, place: &'a Place) -> Target<'a>
        requires linked { AreLinked self.now states.now }
        requires place { place_in self.now.rows.items end ≡ Some place.now }
        requires stop { followed place.now ≡ None }
        ensures { IsTargetFrom self.now.rows.items end result }
    {
        match place {
            Place::Atom(atom) => Target::Atom(atom),
            Place::Array(_) => Target::Node(end),
            Place::Object(_) => Target::Node(end),
            Place::Element { .. } => Target::Node(end),
            Place::Promise(id) => Target::Promise(*id),
            Place::Action(id) => self.action_target(end, *id),
            Place::Map(at) => self.map_target(states, end, at),
            Place::Set(at) => self.set_target(states, end, at),
            // No walk ends at a place that is followed.
            Place::Lazy(_) | Place::Value(_) => Target::Lost,
        }
    }

    fn action_target(&self, end: Spot, id: u32) -> Target<'_>
        requires table { IsTable self.now }
        requires place { place_in self.now.rows.items end ≡ Some (place.Action id) }
        ensures { IsTargetFrom self.now.rows.items end result }
    {
        if self.has_reference(id) {
            Target::Action(id)
        } else if self.has_row(id) {
            Target::Lost
        } else {
            Target::Awaits(id)
        }
    }

    fn map_target(&self, states: &[State], end: Spot, reference: &Ref) -> Target<'_>
        requires linked { AreLinked self.now states.now }
        requires place { place_in self.now.rows.items end ≡ Some (place.Map reference.now) }
        ensures { IsTargetFrom self.now.rows.items end result }
    {
        match self.resolve(states, reference.id, reference.path.as_slice()) {
            State::Ended(spot) => {
                if self.is_map_at(spot) {
                    self.token_target(end, spot)
                } else {
                    Target::Lost
                }
            }
            state => missing_target(self.missing(
                states,
                reference.id,
                reference.path.as_slice(),
                state,
            )),
        }
    }

    fn set_target(&self, states: &[State], end: Spot, reference: &Ref) -> Target<'_>
        requires linked { AreLinked self.now states.now }
        requires place { place_in self.now.rows.items end ≡ Some (place.Set reference.now) }
        ensures { IsTargetFrom self.now.rows.items end result }
    {
        match self.resolve(states, reference.id, reference.path.as_slice()) {
            State::Ended(spot) => {
                if self.is_set_at(spot) {
                    self.token_target(end, spot)
                } else {
                    Target::Lost
                }
            }
            state => missing_target(self.missing(
                states,
                reference.id,
                reference.path.as_slice(),
                state,
            )),
        }
    }

    /// A Map or a Set, by the place at which its entries stand, or a failure.
    fn token_target(&self, token: Spot, entries: Spot) -> Target<'_>
        ensures { IsTokenTarget self.now.rows.items token entries result }
    {
        match self.place(entries) {
            Some(Place::Atom(atom)) => Target::Atom(atom),
            _ => Target::Node(token),
        }
    }

    /// The id without a row that names from an id want, where they have come to no end. None where they lead nowhere.
    fn missing(&self, states: &[State], id: u32, names: &[Text], state: State) -> Option<u32>
        requires linked { AreLinked self.now states.now }
        requires resolved { IsResolved self.now states.now id names.now state }
        requires unended { (s : Spot) → state ≢ State.Ended s }
        ensures { IsMissing self.now.rows.items id names.now result }
    {
        match state {
            State::Absent => Some(id),
            State::Behind { node, .. } => self.awaited(states, node),
            State::Ended(_) | State::Lost => None,
        }
    }
}

fn missing_target<'a>(wanting: Option<u32>) -> Target<'a>
    ensures { result ≡ target_missing wanting }
{
    match wanting {
        Some(id) => Target::Awaits(id),
        None => Target::Lost,
    }
}
