ghost use Rattle.std.specs.Prelude.{◌≡◌, slice_get, option_map, Some};
ghost use Rattle.flight_meaning.specs.declared.place.Place.{Place};
ghost use Rattle.flight_meaning.specs.Meaning.{made_at, map_token, set_token};
ghost use Rattle.flight_link.specs.Slots.{number_in as number_of_slot, beside as spot_beside, item_at, property_at, IsSlotAt, IsThere, IsTokenSlot, IsEntrySlot, IsBound, IsBelowTarget, IsTargetOfSome};
ghost use Rattle.flight_link.specs.Nodes.{AreLinked, IsTable, place_in, spot_of};

use crate::found::Spot;
use crate::node::State;
use crate::step::{number_at, property_of};
use crate::table::Table;
use crate::target::Target;
use flight_meaning::{Named, Place};
use flight_text::Ref;

/// What stands in a slot below another.
#[derive(Clone, Copy)]
pub enum Below<'a> {
    Slot(Target<'a>),
    /// An id on the way has no row yet.
    NotYet(u32),
    NoPlace,
}

impl Table {
    /// What stands in a slot of a number below what another slot leads to.
    pub fn below<'a>(&'a self, states: &[State], target: Target<'a>, slot: u32) -> Below<'a>
        requires linked { AreLinked self.now states.now }
        requires target { IsTargetOfSome self.now.rows.items target }
        ensures { IsBelowTarget self.now.rows.items target.entry slot result }
    {
        match target {
            Target::Node(node) => self.below_node(states, node, slot),
            Target::Promise(id) => self.below_promise(states, id, slot),
            Target::Action(id) => self.below_action(states, id, slot),
            Target::Awaits(id) => Below::NotYet(id),
            Target::Atom(_) => Below::NoPlace,
            Target::Lost => Below::NoPlace,
        }
    }

    fn below_node(&self, states: &[State], node: Spot, slot: u32) -> Below<'_>
        requires linked { AreLinked self.now states.now }
        requires target { IsTargetOfSome self.now.rows.items (Target.Node node) }
        ensures { IsBelowTarget self.now.rows.items (Target.Node node) slot result }
    {
        match self.slot(states, node, slot) {
            Some(spot) => Below::Slot(self.target_at(states, spot)),
            None => Below::NoPlace,
        }
    }

    fn below_promise(&self, states: &[State], id: u32, slot: u32) -> Below<'_>
        requires { AreLinked self.now states.now }
        ensures { IsBelowTarget self.now.rows.items (Target.Promise id) slot result }
    {
        if slot == 0 {
            Below::Slot(self.target_of(states, id))
        } else {
            Below::NoPlace
        }
    }

    fn below_action(&self, states: &[State], id: u32, slot: u32) -> Below<'_>
        requires { AreLinked self.now states.now }
        ensures { IsBelowTarget self.now.rows.items (Target.Action id) slot result }
    {
        if slot != 0 {
            return Below::NoPlace;
        }
        match self.bound(id) {
            Some(spot) => Below::Slot(self.target_at(states, spot)),
            // A server reference is bound to something.
            None => Below::NoPlace,
        }
    }

    /// Where a slot of the node at a place is written.
    fn slot(&self, states: &[State], node: Spot, slot: u32) -> Option<Spot>
        requires linked { AreLinked self.now states.now }
        requires place { (at : Place) × (place_in self.now.rows.items node ≡ Some at) }
        ensures slot { IsSlotAt self.now.rows.items (made_at (spot_of self.now.rows.items node)) slot result }
        ensures there { IsThere self.now.rows.items result }
    {
        let Some(place) = self.place(node) else {
            return None;
        };
        match place {
            Place::Map(at) => self.map_slot(states, at, slot),
            Place::Set(at) => self.set_slot(states, at, slot),
            _ => beside(node, number_in(place, slot)),
        }
    }

    fn map_slot(&self, states: &[State], reference: &Ref, slot: u32) -> Option<Spot>
        requires { AreLinked self.now states.now }
        ensures slot { IsTokenSlot self.now.rows.items map_token reference.now slot result }
        ensures there { IsThere self.now.rows.items result }
    {
        match self.resolve(states, reference.id, reference.path.as_slice()) {
            State::Ended(spot) => self.entry_slot(spot, slot),
            _ => None,
        }
    }

    fn set_slot(&self, states: &[State], reference: &Ref, slot: u32) -> Option<Spot>
        requires { AreLinked self.now states.now }
        ensures slot { IsTokenSlot self.now.rows.items set_token reference.now slot result }
        ensures there { IsThere self.now.rows.items result }
    {
        match self.resolve(states, reference.id, reference.path.as_slice()) {
            State::Ended(spot) => self.item_slot(spot, slot),
            _ => None,
        }
    }

    /// Where a key or a value of a Map's entries is written.
    fn entry_slot(&self, entries: Spot, slot: u32) -> Option<Spot>
        requires { IsTable self.now }
        ensures slot { IsEntrySlot self.now.rows.items map_token entries slot result }
        ensures there { IsThere self.now.rows.items result }
    {
        match self.item_slot(entries, slot / 2) {
            Some(entry) => self.item_slot(entry, slot % 2),
            None => None,
        }
    }

    /// Where an item of an array is written.
    fn item_slot(&self, array: Spot, slot: u32) -> Option<Spot>
        requires { IsTable self.now }
        ensures item { result ≡ item_at self.now.rows.items array slot }
        ensures there { IsThere self.now.rows.items result }
    {
        match self.place(array) {
            Some(Place::Array(numbers)) => {
                beside(array, number_at(numbers.as_slice(), slot as usize))
            }
            _ => None,
        }
    }

    /// What the server reference of an id is bound to.
    fn bound(&self, id: u32) -> Option<Spot>
        requires { IsTable self.now }
        ensures bound { IsBound self.now.rows.items id result }
        ensures there { IsThere self.now.rows.items result }
    {
        match self.known.get(id) {
            Some(known) => match known.row.get() {
                Some(row) => self.property(Spot { row, place: 0 }, "bound"),
                None => None,
            },
            None => None,
        }
    }

    /// Where the property of a name is written.
    fn property(&self, object: Spot, name: &str) -> Option<Spot>
        requires { IsTable self.now }
        ensures property { result ≡ property_at self.now.rows.items object name.now }
        ensures there { IsThere self.now.rows.items result }
    {
        match self.place(object) {
            Some(Place::Object(props)) => beside(object, property_of(props.as_slice(), name)),
            _ => None,
        }
    }
}

/// Another place of the same row.
fn beside(spot: Spot, number: Option<u32>) -> Option<Spot>
    ensures { result ≡ spot_beside spot number }
{
    match number {
        Some(place) => Some(Spot {
            row: spot.row,
            place,
        }),
        None => None,
    }
}

/// The number of the place in a slot of an array, an object or an element.
fn number_in(place: &Place, slot: u32) -> Option<u32>
    ensures { result ≡ number_of_slot place.now slot }
{
    match place {
        Place::Array(numbers) => number_at(numbers.as_slice(), slot as usize),
        Place::Object(props) => property_number(props.as_slice(), slot as usize),
        Place::Element { tag, key, props } => match slot {
            0 => Some(*tag),
            1 => Some(*key),
            2 => Some(*props),
            _ => None,
        },
        _ => None,
    }
}

/// The number of the place of a property.
fn property_number(props: &[Named], index: usize) -> Option<u32>
    ensures { result ≡ option_map (λ p. p.place) (slice_get props.now index) }
{
    match props.get(index) {
        Some(prop) => Some(prop.place),
        None => None,
    }
}
