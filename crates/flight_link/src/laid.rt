ghost use Rattle.std.specs.Prelude.{◌≡◌, ◌<◌, ◌^◌, ◌∷◌, [], IfOk, OnOk, IfSome, Some, map, slice_get};
ghost use Rattle.flight_meaning.specs.declared.place.Place.TheVariants as place;
ghost use Rattle.flight_meaning.specs.Linked.{beside as place_beside};
ghost use Rattle.flight_meaning.specs.Meaning.{at_place, at_places};
ghost use Rattle.flight_link.specs.declared.key.NodeKey.TheVariants as node_key;
ghost use Rattle.flight_link.specs.Marks.{IsWhole};
ghost use Rattle.flight_link.specs.Nodes.{AreLinked, place_in, spot_of};
ghost use Rattle.flight_link.specs.Targets.{IsTargetOf};
ghost use Rattle.flight_link.specs.Laid.{IsLaid, ArePlacesOf, Adds, AddsEntries};

use crate::draw::Whole;
use crate::found::Spot;
use crate::key::NodeKey;
use crate::node::State;
use crate::step::property_of;
use crate::table::{Table, place_at, row_at};
use crate::target::Target;
use crate::unproved::unproved;
use flight_meaning::{Named, Place};
use flight_text::Ref;
use flight_value::{Atom, Memory, Text};

/// What a node is, beside its slots.
#[derive(Clone, Copy)]
pub enum Head<'a> {
    Array,
    /// With its properties, at whose places its slots stand.
    Object(&'a [Named]),
    Map,
    Set,
    Element,
    Promise,
    /// With the id of the server reference.
    Action(&'a Text),
}

impl Table {
    /// What stands under a key, and what its slots lead to, in order. The list is cleared first.
    pub fn lay_out<'a>(
        &'a self,
        whole: Whole<'_>,
        key: NodeKey,
        targets: &mut Vec<Target<'a>>,
    ) -> Result<Head<'a>, Memory>
        requires { IsWhole self.now whole.states.now whole.bases.before.now whole.bases.total }
        ensures { IfOk result (λ head. IsLaid self.now.rows.items key head targets.new.items) }
    {
        targets.clear();
        match key {
            NodeKey::Made(spot) => self.lay_place(whole.states, spot, targets),
            NodeKey::Promise(id) => self.lay_promise(whole.states, id, targets),
            NodeKey::Action(id) => self.lay_action(whole.states, id, targets),
        }
    }

    /// The node at a place. No key names a place without one.
    fn lay_place<'a>(
        &'a self,
        states: &[State],
        spot: Spot,
        targets: &mut Vec<Target<'a>>,
    ) -> Result<Head<'a>, Memory>
        requires linked { AreLinked self.now states.now }
        requires empty { targets.old.items ≡ [] }
        ensures { IfOk result (λ head. IsLaid self.now.rows.items (node_key.Made spot) head targets.new.items) }
    {
        let Some(places) = self.places_of(spot.row) else {
            return Err(unproved());
        };
        match place_at(places, spot.place as usize) {
            Some(Place::Array(numbers)) => {
                self.lay_array(states, spot, places, numbers.as_slice(), targets)
            }
            Some(Place::Object(named)) => {
                self.lay_object(states, spot, places, named.as_slice(), targets)
            }
            Some(Place::Element { tag, key, props }) => {
                self.lay_element(states, spot, places, *tag, *key, *props, targets)
            }
            Some(Place::Map(reference)) => self.lay_map(states, spot, reference, targets),
            Some(Place::Set(reference)) => self.lay_set(states, spot, reference, targets),
            _ => Err(unproved()),
        }
    }

    fn lay_array<'a>(
        &'a self,
        states: &[State],
        spot: Spot,
        places: &'a [Place],
        numbers: &[u32],
        targets: &mut Vec<Target<'a>>,
    ) -> Result<Head<'a>, Memory>
        requires linked { AreLinked self.now states.now }
        requires places { ArePlacesOf self.now.rows.items spot.row places.now }
        requires place { place_in self.now.rows.items spot ≡ Some (place.Array numbers.now) }
        requires empty { targets.old.items ≡ [] }
        ensures { IfOk result (λ head. IsLaid self.now.rows.items (node_key.Made spot) head targets.new.items) }
    {
        self.push_slots(states, spot, places, numbers, targets)?;
        within(targets.len())?;
        Ok(Head::Array)
    }

    fn lay_object<'a>(
        &'a self,
        states: &[State],
        spot: Spot,
        places: &'a [Place],
        named: &'a [Named],
        targets: &mut Vec<Target<'a>>,
    ) -> Result<Head<'a>, Memory>
        requires linked { AreLinked self.now states.now }
        requires places { ArePlacesOf self.now.rows.items spot.row places.now }
        requires place { place_in self.now.rows.items spot ≡ Some (place.Object named.now) }
        requires empty { targets.old.items ≡ [] }
        ensures { IfOk result (λ head. IsLaid self.now.rows.items (node_key.Made spot) head targets.new.items) }
    {
        self.push_props(states, spot, places, named, targets)?;
        within(targets.len())?;
        Ok(Head::Object(named))
    }

    fn lay_element<'a>(
        &'a self,
        states: &[State],
        spot: Spot,
        places: &'a [Place],
        tag: u32,
        key: u32,
        props: u32,
        targets: &mut Vec<Target<'a>>,
    ) -> Result<Head<'a>, Memory>
        requires linked { AreLinked self.now states.now }
        requires places { ArePlacesOf self.now.rows.items spot.row places.now }
        requires place { place_in self.now.rows.items spot ≡ Some (place.Element tag key props) }
        requires empty { targets.old.items ≡ [] }
        ensures { IfOk result (λ head. IsLaid self.now.rows.items (node_key.Made spot) head targets.new.items) }
    {
        self.push_slots(states, spot, places, &[tag, key, props], targets)?;
        Ok(Head::Element)
    }

    /// The Map whose entries stand where its reference leads. No key names one without entries.
    fn lay_map<'a>(
        &'a self,
        states: &[State],
        spot: Spot,
        reference: &Ref,
        targets: &mut Vec<Target<'a>>,
    ) -> Result<Head<'a>, Memory>
        requires linked { AreLinked self.now states.now }
        requires place { place_in self.now.rows.items spot ≡ Some (place.Map reference.now) }
        requires empty { targets.old.items ≡ [] }
        ensures { IfOk result (λ head. IsLaid self.now.rows.items (node_key.Made spot) head targets.new.items) }
    {
        let State::Ended(end) = self.resolve(states, reference.id, reference.path.as_slice()) else {
            return Err(unproved());
        };
        let Some(places) = self.places_of(end.row) else {
            return Err(unproved());
        };
        let Some(Place::Array(numbers)) = place_at(places, end.place as usize) else {
            return Err(unproved());
        };
        self.push_entries(states, end, places, numbers.as_slice(), targets)?;
        within(targets.len())?;
        Ok(Head::Map)
    }

    /// The Set whose items stand where its reference leads. No key names one without items.
    fn lay_set<'a>(
        &'a self,
        states: &[State],
        spot: Spot,
        reference: &Ref,
        targets: &mut Vec<Target<'a>>,
    ) -> Result<Head<'a>, Memory>
        requires linked { AreLinked self.now states.now }
        requires place { place_in self.now.rows.items spot ≡ Some (place.Set reference.now) }
        requires empty { targets.old.items ≡ [] }
        ensures { IfOk result (λ head. IsLaid self.now.rows.items (node_key.Made spot) head targets.new.items) }
    {
        let State::Ended(end) = self.resolve(states, reference.id, reference.path.as_slice()) else {
            return Err(unproved());
        };
        let Some(places) = self.places_of(end.row) else {
            return Err(unproved());
        };
        let Some(Place::Array(numbers)) = place_at(places, end.place as usize) else {
            return Err(unproved());
        };
        self.push_slots(states, end, places, numbers.as_slice(), targets)?;
        within(targets.len())?;
        Ok(Head::Set)
    }

    /// The promise of the value of an id.
    fn lay_promise<'a>(
        &'a self,
        states: &[State],
        id: u32,
        targets: &mut Vec<Target<'a>>,
    ) -> Result<Head<'a>, Memory>
        requires linked { AreLinked self.now states.now }
        requires empty { targets.old.items ≡ [] }
        ensures { IfOk result (λ head. IsLaid self.now.rows.items (node_key.Promise id) head targets.new.items) }
    {
        targets.push(self.target_of(states, id))?;
        Ok(Head::Promise)
    }

    /// The server reference that the row of an id describes. No key names one that has none.
    fn lay_action<'a>(
        &'a self,
        states: &[State],
        id: u32,
        targets: &mut Vec<Target<'a>>,
    ) -> Result<Head<'a>, Memory>
        requires linked { AreLinked self.now states.now }
        requires empty { targets.old.items ≡ [] }
        ensures { IfOk result (λ head. IsLaid self.now.rows.items (node_key.Action id) head targets.new.items) }
    {
        if !self.has_reference(id) {
            return Err(unproved());
        }
        let Some(spot) = self.root_of(id) else {
            return Err(unproved());
        };
        let Some(places) = self.places_of(spot.row) else {
            return Err(unproved());
        };
        let Some(Place::Object(props)) = place_at(places, spot.place as usize) else {
            return Err(unproved());
        };
        let Some(name) = property_of(props.as_slice(), "id") else {
            return Err(unproved());
        };
        let Some(bound) = property_of(props.as_slice(), "bound") else {
            return Err(unproved());
        };
        let Some(Place::Atom(Atom::Text(text))) = place_at(places, name as usize) else {
            return Err(unproved());
        };
        self.push_slots(states, spot, places, &[bound], targets)?;
        Ok(Head::Action(text))
    }

    /// The places of a row.
    fn places_of(&self, row: u32) -> Option<&[Place]>
        ensures { IfSome result (λ places. ArePlacesOf self.now.rows.items row places.now) }
    {
        match row_at(self.rows.as_slice(), row as usize) {
            Some(row) => Some(row.tree.places.as_slice()),
            None => None,
        }
    }

    /// Adds what the slots lead to that are written at places of a row.
    fn push_slots<'a>(
        &'a self,
        states: &[State],
        spot: Spot,
        places: &'a [Place],
        numbers: &[u32],
        targets: &mut Vec<Target<'a>>,
    ) -> Result<(), Memory>
        requires linked { AreLinked self.now states.now }
        requires places { ArePlacesOf self.now.rows.items spot.row places.now }
        ensures { OnOk result (Adds self.now.rows.items (at_places (spot_of self.now.rows.items spot) numbers.now) targets.old.items targets.new.items) }
    {
        targets.reserve(numbers.len())?;
        for number in numbers {
            let target = self.target_beside(states, spot, places, *number)?;
            targets.push_reserved(target);
        }
        Ok(())
    }

    /// Adds what the slots of properties lead to.
    fn push_props<'a>(
        &'a self,
        states: &[State],
        spot: Spot,
        places: &'a [Place],
        named: &[Named],
        targets: &mut Vec<Target<'a>>,
    ) -> Result<(), Memory>
        requires linked { AreLinked self.now states.now }
        requires places { ArePlacesOf self.now.rows.items spot.row places.now }
        ensures { OnOk result (Adds self.now.rows.items (at_places (spot_of self.now.rows.items spot) (map (λ n. n.place) named.now)) targets.old.items targets.new.items) }
    {
        targets.reserve(named.len())?;
        for prop in named {
            let target = self.target_beside(states, spot, places, prop.place)?;
            targets.push_reserved(target);
        }
        Ok(())
    }

    /// Adds what the keys and the values of entries lead to that stand at places of a row.
    fn push_entries<'a>(
        &'a self,
        states: &[State],
        spot: Spot,
        places: &'a [Place],
        numbers: &[u32],
        targets: &mut Vec<Target<'a>>,
    ) -> Result<(), Memory>
        requires linked { AreLinked self.now states.now }
        requires places { ArePlacesOf self.now.rows.items spot.row places.now }
        ensures { OnOk result (AddsEntries self.now.rows.items (spot_of self.now.rows.items spot) numbers.now targets.old.items targets.new.items) }
    {
        for number in numbers {
            self.push_entry(states, spot, places, *number, targets)?;
        }
        Ok(())
    }

    /// Adds what the key and the value of an entry lead to.
    fn push_entry<'a>(
        &'a self,
        states: &[State],
        spot: Spot,
        places: &'a [Place],
        number: u32,
        targets: &mut Vec<Target<'a>>,
    ) -> Result<(), Memory>
        requires linked { AreLinked self.now states.now }
        requires places { ArePlacesOf self.now.rows.items spot.row places.now }
        ensures { OnOk result (AddsEntries self.now.rows.items (spot_of self.now.rows.items spot) (number ∷ []) targets.old.items targets.new.items) }
    {
        let Some((key, value)) = two_at(places, number) else {
            return Err(unproved());
        };
        self.push_slots(states, spot, places, &[key, value], targets)
    }

    /// What the slot leads to that is written at another place of a row. Each number in a row is that of a place.
    fn target_beside<'a>(
        &'a self,
        states: &[State],
        spot: Spot,
        places: &'a [Place],
        number: u32,
    ) -> Result<Target<'a>, Memory>
        requires linked { AreLinked self.now states.now }
        requires places { ArePlacesOf self.now.rows.items spot.row places.now }
        ensures { IfOk result (λ target. IsTargetOf self.now.rows.items (at_place (place_beside (spot_of self.now.rows.items spot) number)) target) }
    {
        match place_at(places, number as usize) {
            Some(place) => {
                let at = Spot {
                    row: spot.row,
                    place: number,
                };
                Ok(self.target_written(states, at, place))
            }
            None => Err(unproved()),
        }
    }
}

/// The items of an array of two.
fn two_at(places: &[Place], number: u32) -> Option<(u32, u32)>
    ensures { IfSome result (λ p. slice_get places.now number ≡ Some (place.Array (p.0 ∷ p.1 ∷ []))) }
{
    match place_at(places, number as usize) {
        Some(Place::Array(items)) => match items.as_slice() {
            [key, value] => Some((*key, *value)),
            _ => None,
        },
        _ => None,
    }
}

/// A count of slots that a node may have.
pub fn within(count: usize) -> Result<(), Memory>
    ensures { OnOk result (count < 2 ^ 32) }
{
    match u32::try_from(count) {
        Ok(_) => Ok(()),
        Err(_) => Err(unproved()),
    }
}
