ghost use Rattle.std.specs.Prelude.{◌≡◌, ◌↔◌, IsTrue, is_some, slice_get, Some};
ghost use Rattle.flight_meaning.specs.Resolve.{to, ComesToAnEnd};
ghost use Rattle.flight_meaning.specs.Good.{id_of as id_of_place, IsDefined, IsTokenDefined, IsLeastUndefined};
ghost use Rattle.flight_meaning.specs.Meaning.{map_token, set_token, entries, Reference, reference_of};
ghost use Rattle.flight_meaning.specs.declared.place.Place.{Place};
ghost use Rattle.flight_meaning.specs.declared.place.PlacedRow.{PlacedRow};
ghost use Rattle.flight_link.specs.Nodes.{AreLinked, IsTable, place_in, spot_of};
ghost use Rattle.flight_link.specs.Least.{IsLeastIn, IsIn, IsInRows, token_at, is_pair, refers_in, text_in, bound_in, lesser as lesser_of};

use crate::found::Spot;
use crate::node::State;
use crate::step::{is_failure, property_of};
use crate::table::{Table, row_at};
use flight_meaning::Place;
use flight_row::RowKind;
use flight_text::Ref;
use flight_value::{Atom, Text};

impl Table {
    /// The least id of a reference that is not defined.
    pub fn least_undefined(&self, states: &[State]) -> Option<u32>
        requires { AreLinked self.now states.now }
        ensures { IsLeastUndefined self.now.rows.items result }
    {
        self.undefined(states)
    }

    /// The same, of all places that stand in the rows.
    fn undefined(&self, states: &[State]) -> Option<u32>
        requires { AreLinked self.now states.now }
        ensures { IsLeastIn self.now.rows.items (IsInRows self.now.rows.items) result }
    {
        let mut least = None;
        'rows: for row in self.rows.as_slice() {
            least = lesser(least, self.undefined_in(states, row.tree.places.as_slice()));
        }
        least
    }

    fn undefined_in(&self, states: &[State], places: &[Place]) -> Option<u32>
        requires { AreLinked self.now states.now }
        ensures { IsLeastIn self.now.rows.items (IsIn places.now) result }
    {
        let mut least = None;
        'places: for place in places {
            least = lesser(least, self.undefined_at(states, place));
        }
        least
    }

    fn undefined_at(&self, states: &[State], place: &Place) -> Option<u32>
        requires { AreLinked self.now states.now }
        ensures { IsLeastIn self.now.rows.items (λ at. at ≡ place.now) result }
    {
        if self.is_defined(states, place) {
            None
        } else {
            id_of(place)
        }
    }

    /// Whether what a place needs to be defined is there.
    fn is_defined(&self, states: &[State], place: &Place) -> bool
        requires { AreLinked self.now states.now }
        ensures { IsTrue result ↔ IsDefined self.now.rows.items place.now }
    {
        match place {
            Place::Lazy(id) | Place::Promise(id) => self.comes_to_an_end(states, *id, &[]),
            Place::Value(at) => self.comes_to_an_end(states, at.id, at.path.as_slice()),
            Place::Map(at) => self.is_map_defined(states, at),
            Place::Set(at) => self.is_set_defined(states, at),
            Place::Action(id) => self.has_reference(*id),
            Place::Atom(_) => true,
            Place::Array(_) => true,
            Place::Object(_) => true,
            Place::Element { .. } => true,
        }
    }

    fn is_map_defined(&self, states: &[State], reference: &Ref) -> bool
        requires { AreLinked self.now states.now }
        ensures { IsTrue result ↔ IsTokenDefined self.now.rows.items map_token reference.now }
    {
        match self.resolve(states, reference.id, reference.path.as_slice()) {
            State::Ended(spot) => self.is_map_at(spot),
            _ => false,
        }
    }

    fn is_set_defined(&self, states: &[State], reference: &Ref) -> bool
        requires { AreLinked self.now states.now }
        ensures { IsTrue result ↔ IsTokenDefined self.now.rows.items set_token reference.now }
    {
        match self.resolve(states, reference.id, reference.path.as_slice()) {
            State::Ended(spot) => self.is_set_at(spot),
            _ => false,
        }
    }

    /// Whether at a place stand the entries of a Map, or a failure.
    pub fn is_map_at(&self, spot: Spot) -> bool
        requires { IsTable self.now }
        ensures { result ≡ token_at map_token self.now.rows.items spot }
    {
        match self.place(spot) {
            Some(Place::Array(numbers)) => self.are_entries(spot, numbers.as_slice()),
            Some(place) => is_failure(place),
            None => false,
        }
    }

    /// Whether at a place stand the items of a Set, or a failure.
    pub fn is_set_at(&self, spot: Spot) -> bool
        ensures { result ≡ token_at set_token self.now.rows.items spot }
    {
        match self.place(spot) {
            Some(Place::Array(_)) => true,
            Some(place) => is_failure(place),
            None => false,
        }
    }

    /// Whether each of these places of a row is an array of two.
    fn are_entries(&self, spot: Spot, numbers: &[u32]) -> bool
        requires table { IsTable self.now }
        requires there { (at : Place) × (place_in self.now.rows.items spot ≡ Some at) }
        ensures { result ≡ is_some (entries self.now.rows.items (spot_of self.now.rows.items spot) numbers.now) }
    {
        for number in numbers {
            if !self.is_entry(Spot {
                row: spot.row,
                place: *number,
            }) {
                return false;
            }
        }
        true
    }

    fn is_entry(&self, spot: Spot) -> bool
        ensures { result ≡ is_pair (place_in self.now.rows.items spot) }
    {
        match self.place(spot) {
            Some(Place::Array(numbers)) => matches!(numbers.as_slice(), [_, _]),
            _ => false,
        }
    }

    /// Whether the row of an id describes a server reference.
    pub fn has_reference(&self, id: u32) -> bool
        requires { IsTable self.now }
        ensures { IsTrue result ↔ ((r : Reference) × (reference_of self.now.rows.items id ≡ Some r)) }
    {
        match self.known.get(id) {
            Some(known) => match known.row.get() {
                Some(row) => self.is_reference(row),
                None => false,
            },
            None => false,
        }
    }

    fn is_reference(&self, row: u32) -> bool
        requires { IsTable self.now }
        ensures { (r : PlacedRow) → slice_get self.now.rows.items row ≡ Some r → result ≡ refers_in self.now.rows.items row r.tree.kind (place_in self.now.rows.items (record { row = row; place = 0 })) }
    {
        match row_at(self.rows.as_slice(), row as usize) {
            Some(placed) => self.refers(row, placed.tree.kind),
            None => false,
        }
    }

    fn refers(&self, row: u32, kind: RowKind) -> bool
        requires { IsTable self.now }
        ensures { result ≡ refers_in self.now.rows.items row kind (place_in self.now.rows.items (record { row = row; place = 0 })) }
    {
        match kind {
            RowKind::Model => match self.place(Spot { row, place: 0 }) {
                Some(Place::Object(props)) => {
                    self.is_text(row, property_of(props.as_slice(), "id"))
                        && self.is_bound(row, property_of(props.as_slice(), "bound"))
                }
                _ => false,
            },
            _ => false,
        }
    }

    fn is_text(&self, row: u32, number: Option<u32>) -> bool
        ensures { result ≡ text_in self.now.rows.items row number }
    {
        match number {
            Some(place) => matches!(
                self.place(Spot { row, place }),
                Some(Place::Atom(Atom::Text(_)))
            ),
            None => false,
        }
    }

    fn is_bound(&self, row: u32, number: Option<u32>) -> bool
        ensures { result ≡ bound_in self.now.rows.items row number }
    {
        match number {
            Some(place) => matches!(
                self.place(Spot { row, place }),
                Some(Place::Atom(Atom::Null) | Place::Promise(_))
            ),
            None => false,
        }
    }

    /// Whether names lead from the value of an id to a place.
    fn comes_to_an_end(&self, states: &[State], id: u32, names: &[Text]) -> bool
        requires { AreLinked self.now states.now }
        ensures { IsTrue result ↔ ComesToAnEnd self.now.rows.items (to id names.now) }
    {
        matches!(self.resolve(states, id, names), State::Ended(_))
    }
}

/// The id that a reference names.
fn id_of(place: &Place) -> Option<u32>
    ensures { result ≡ id_of_place place.now }
{
    match place {
        Place::Lazy(id) | Place::Promise(id) | Place::Action(id) => Some(*id),
        Place::Value(at) | Place::Map(at) | Place::Set(at) => Some(at.id),
        _ => None,
    }
}

fn lesser(a: Option<u32>, b: Option<u32>) -> Option<u32>
    ensures { result ≡ lesser_of a b }
{
    match (a, b) {
        (Some(m), Some(n)) => Some(m.min(n)),
        (Some(m), None) => Some(m),
        (None, other) => other,
    }
}
