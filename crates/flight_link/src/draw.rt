ghost use Rattle.std.specs.Prelude.{◌≡◌, ◌<◌, ◌^◌, ◌∷◌, [], IfOk, IfSome, OnOk, length, true, Some};
ghost use Rattle.flight_meaning.specs.declared.place.Place.TheVariants as place;
ghost use Rattle.flight_meaning.specs.Linked.{beside as place_beside, first_place};
ghost use Rattle.flight_value.specs.Graph.{IsValid};
ghost use Rattle.flight_value.specs.Store as store;
ghost use Rattle.flight_value.specs.Store.{DrawOneGraph, of_graph};
ghost use Rattle.flight_meaning.specs.Meaning.{meaning, Leads, Written, at_place, made_at, action_of};
ghost use Rattle.flight_link.specs.Marks.{AreBases, IsWhole};
ghost use Rattle.flight_link.specs.Nodes.{IsTable, place_in, spot_of};
ghost use Rattle.flight_link.specs.Slots.{IsTargetOfSome};
ghost use Rattle.flight_link.specs.Numbering.{AreNumbered, Grows, IsKey};
ghost use Rattle.flight_link.specs.Targets.{IsTargetOf};
ghost use Rattle.flight_link.specs.Drawing.{identity_of, Draws, AreSlots, AreProps, IsPairAt, ArePairs, DrawsNode, AreDrawn, IsDrawing};

use crate::found::Spot;
use crate::key::NodeKey;
use crate::laid::within;
use crate::mention::Bases;
use crate::node::State;
use crate::numbers::Numbers;
use crate::step::property_of;
use crate::table::Table;
use crate::target::Target;
use crate::unproved::unproved;
use flight_meaning::{Named, Place};
use flight_text::Ref;
use flight_value::{Atom, Graph, List, Memory, Node, Pair, Prop, Slot};
use std::alloc::Global;

/// What is known beside a table: where the walks of its nodes stand, and how many places stand before each row.
#[derive(Clone, Copy)]
pub struct Whole<'a> {
    pub states: &'a [State],
    pub bases: Bases<'a>,
}

/// The graph that rows draw, with the key of each node.
#[derive(Drop)]
pub struct Drawing {
    pub root: Slot,
    pub nodes: Vec<Node>,
    pub keys: Vec<NodeKey>,
}

impl Table {
    /// What the rows mean, as a graph.
    pub fn graph(&self, whole: Whole<'_>, alloc: Global) -> Result<Graph, Memory>
        requires { IsWhole self.now whole.states.now whole.bases.before.now whole.bases.total }
        ensures { IfOk result (λ g. IsValid g × DrawOneGraph (of_graph g) (meaning self.now.rows.items)) }
    {
        let drawing = self.draw(whole, alloc)?;
        Ok(Graph {
            root: drawing.root,
            nodes: List::new(drawing.nodes),
        })
    }

    /// The graph of the nodes to which the value of row 0 leads.
    pub fn draw(&self, whole: Whole<'_>, alloc: Global) -> Result<Drawing, Memory>
        requires { IsWhole self.now whole.states.now whole.bases.before.now whole.bases.total }
        ensures { IfOk result (IsDrawing self.now.rows.items) }
    {
        let mut numbers = Numbers::new(alloc, whole.bases.total)?;
        let root = self.slot_to(whole.bases, &mut numbers, self.target_of(whole.states, 0))?;
        let nodes = self.nodes(whole, alloc, &mut numbers)?;
        within(nodes.len())?;
        let Numbers { keys, .. } = numbers;
        Ok(Drawing { root, nodes, keys })
    }

    /// The nodes of the keys, and of those that they name in turn.
    #[tactic(auto, using(crate::proofs::Drawing::drawn_all))]
    fn nodes(
        &self,
        whole: Whole<'_>,
        alloc: Global,
        numbers: &mut Numbers,
    ) -> Result<Vec<Node>, Memory>
        requires whole { IsWhole self.now whole.states.now whole.bases.before.now whole.bases.total }
        requires numbered { AreNumbered self.now.rows.items numbers.old }
        ensures numbered { OnOk result (AreNumbered self.now.rows.items numbers.new) }
        ensures grows { OnOk result (Grows numbers.old.keys.items numbers.new.keys.items) }
        ensures drawn { IfOk result (λ nodes. AreDrawn self.now.rows.items numbers.new.keys.items nodes.items) }
    {
        let mut nodes = Vec::new(alloc);
        'nodes: for _ in 0..u32::MAX {
            let Some(key) = numbers.key(nodes.len()) else {
                return Ok(nodes);
            };
            nodes.push(self.node_of(whole, alloc, numbers, key)?)?;
        }
        Err(unproved())
    }

    /// The node of a key.
    #[tactic(auto, using(crate::proofs::Drawing::promise_node))]
    fn node_of(
        &self,
        whole: Whole<'_>,
        alloc: Global,
        numbers: &mut Numbers,
        key: NodeKey,
    ) -> Result<Node, Memory>
        requires whole { IsWhole self.now whole.states.now whole.bases.before.now whole.bases.total }
        requires numbered { AreNumbered self.now.rows.items numbers.old }
        ensures numbered { OnOk result (AreNumbered self.now.rows.items numbers.new) }
        ensures grows { OnOk result (Grows numbers.old.keys.items numbers.new.keys.items) }
        ensures node { IfOk result (DrawsNode self.now.rows.items numbers.new.keys.items (identity_of self.now.rows.items key)) }
    {
        match key {
            NodeKey::Made(spot) => self.node_at(whole, alloc, numbers, spot),
            NodeKey::Promise(id) => {
                let outcome = self.slot_to(whole.bases, numbers, self.target_of(whole.states, id))?;
                Ok(Node::Promise(outcome))
            }
            NodeKey::Action(id) => self.action(whole, numbers, id),
        }
    }

    /// The node at a place. No key names a place without one.
    fn node_at(
        &self,
        whole: Whole<'_>,
        alloc: Global,
        numbers: &mut Numbers,
        spot: Spot,
    ) -> Result<Node, Memory>
        requires whole { IsWhole self.now whole.states.now whole.bases.before.now whole.bases.total }
        requires numbered { AreNumbered self.now.rows.items numbers.old }
        ensures numbered { OnOk result (AreNumbered self.now.rows.items numbers.new) }
        ensures grows { OnOk result (Grows numbers.old.keys.items numbers.new.keys.items) }
        ensures node { IfOk result (DrawsNode self.now.rows.items numbers.new.keys.items (made_at (spot_of self.now.rows.items spot))) }
    {
        match self.place(spot) {
            Some(Place::Array(places)) => {
                self.array(whole, alloc, numbers, spot, places.as_slice())
            }
            Some(Place::Object(props)) => {
                self.object(whole, alloc, numbers, spot, props.as_slice())
            }
            Some(Place::Element { tag, key, props }) => {
                self.element(whole, numbers, spot, *tag, *key, *props)
            }
            Some(Place::Map(at)) => self.map(whole, alloc, numbers, spot, at),
            Some(Place::Set(at)) => self.set(whole, alloc, numbers, spot, at),
            _ => Err(unproved()),
        }
    }

    fn array(
        &self,
        whole: Whole<'_>,
        alloc: Global,
        numbers: &mut Numbers,
        spot: Spot,
        places: &[u32],
    ) -> Result<Node, Memory>
        requires whole { IsWhole self.now whole.states.now whole.bases.before.now whole.bases.total }
        requires numbered { AreNumbered self.now.rows.items numbers.old }
        requires place { place_in self.now.rows.items spot ≡ Some (place.Array places.now) }
        ensures numbered { OnOk result (AreNumbered self.now.rows.items numbers.new) }
        ensures grows { OnOk result (Grows numbers.old.keys.items numbers.new.keys.items) }
        ensures node { IfOk result (DrawsNode self.now.rows.items numbers.new.keys.items (made_at (spot_of self.now.rows.items spot))) }
    {
        let slots = self.slots(whole, alloc, numbers, spot, places)?;
        within(slots.len())?;
        Ok(Node::Array(List::new(slots)))
    }

    fn object(
        &self,
        whole: Whole<'_>,
        alloc: Global,
        numbers: &mut Numbers,
        spot: Spot,
        named: &[Named],
    ) -> Result<Node, Memory>
        requires whole { IsWhole self.now whole.states.now whole.bases.before.now whole.bases.total }
        requires numbered { AreNumbered self.now.rows.items numbers.old }
        requires place { place_in self.now.rows.items spot ≡ Some (place.Object named.now) }
        ensures numbered { OnOk result (AreNumbered self.now.rows.items numbers.new) }
        ensures grows { OnOk result (Grows numbers.old.keys.items numbers.new.keys.items) }
        ensures node { IfOk result (DrawsNode self.now.rows.items numbers.new.keys.items (made_at (spot_of self.now.rows.items spot))) }
    {
        let props = self.props(whole, alloc, numbers, spot, named)?;
        within(props.len())?;
        Ok(Node::Object(List::new(props)))
    }

    fn element(
        &self,
        whole: Whole<'_>,
        numbers: &mut Numbers,
        spot: Spot,
        tag: u32,
        key: u32,
        props: u32,
    ) -> Result<Node, Memory>
        requires whole { IsWhole self.now whole.states.now whole.bases.before.now whole.bases.total }
        requires numbered { AreNumbered self.now.rows.items numbers.old }
        requires place { place_in self.now.rows.items spot ≡ Some (place.Element tag key props) }
        ensures numbered { OnOk result (AreNumbered self.now.rows.items numbers.new) }
        ensures grows { OnOk result (Grows numbers.old.keys.items numbers.new.keys.items) }
        ensures node { IfOk result (DrawsNode self.now.rows.items numbers.new.keys.items (made_at (spot_of self.now.rows.items spot))) }
    {
        let tag = self.slot_beside(whole, numbers, spot, tag)?;
        let key = self.slot_beside(whole, numbers, spot, key)?;
        let props = self.slot_beside(whole, numbers, spot, props)?;
        Ok(Node::Element { tag, key, props })
    }

    /// The Map whose entries stand where its reference leads. No key names one without entries.
    fn map(
        &self,
        whole: Whole<'_>,
        alloc: Global,
        numbers: &mut Numbers,
        spot: Spot,
        reference: &Ref,
    ) -> Result<Node, Memory>
        requires whole { IsWhole self.now whole.states.now whole.bases.before.now whole.bases.total }
        requires numbered { AreNumbered self.now.rows.items numbers.old }
        requires place { place_in self.now.rows.items spot ≡ Some (place.Map reference.now) }
        ensures numbered { OnOk result (AreNumbered self.now.rows.items numbers.new) }
        ensures grows { OnOk result (Grows numbers.old.keys.items numbers.new.keys.items) }
        ensures node { IfOk result (DrawsNode self.now.rows.items numbers.new.keys.items (made_at (spot_of self.now.rows.items spot))) }
    {
        let State::Ended(end) = self.resolve(whole.states, reference.id, reference.path.as_slice())
        else {
            return Err(unproved());
        };
        let Some(Place::Array(places)) = self.place(end) else {
            return Err(unproved());
        };
        let pairs = self.pairs(whole, alloc, numbers, end, places.as_slice())?;
        within_half(pairs.len())?;
        Ok(Node::Map(List::new(pairs)))
    }

    /// The Set whose items stand where its reference leads. No key names one without items.
    fn set(
        &self,
        whole: Whole<'_>,
        alloc: Global,
        numbers: &mut Numbers,
        spot: Spot,
        reference: &Ref,
    ) -> Result<Node, Memory>
        requires whole { IsWhole self.now whole.states.now whole.bases.before.now whole.bases.total }
        requires numbered { AreNumbered self.now.rows.items numbers.old }
        requires place { place_in self.now.rows.items spot ≡ Some (place.Set reference.now) }
        ensures numbered { OnOk result (AreNumbered self.now.rows.items numbers.new) }
        ensures grows { OnOk result (Grows numbers.old.keys.items numbers.new.keys.items) }
        ensures node { IfOk result (DrawsNode self.now.rows.items numbers.new.keys.items (made_at (spot_of self.now.rows.items spot))) }
    {
        let State::Ended(end) = self.resolve(whole.states, reference.id, reference.path.as_slice())
        else {
            return Err(unproved());
        };
        let Some(Place::Array(places)) = self.place(end) else {
            return Err(unproved());
        };
        let slots = self.slots(whole, alloc, numbers, end, places.as_slice())?;
        within(slots.len())?;
        Ok(Node::Set(List::new(slots)))
    }

    /// The server reference that the row of an id describes. No key names one that has none.
    #[tactic(auto, using(crate::proofs::Actions::action_node))]
    fn action(&self, whole: Whole<'_>, numbers: &mut Numbers, id: u32) -> Result<Node, Memory>
        requires whole { IsWhole self.now whole.states.now whole.bases.before.now whole.bases.total }
        requires numbered { AreNumbered self.now.rows.items numbers.old }
        ensures numbered { OnOk result (AreNumbered self.now.rows.items numbers.new) }
        ensures grows { OnOk result (Grows numbers.old.keys.items numbers.new.keys.items) }
        ensures node { IfOk result (DrawsNode self.now.rows.items numbers.new.keys.items (action_of id)) }
    {
        if !self.has_reference(id) {
            return Err(unproved());
        }
        let Some(spot) = self.root_of(id) else {
            return Err(unproved());
        };
        let Some(Place::Object(props)) = self.place(spot) else {
            return Err(unproved());
        };
        let Some(name) = property_of(props.as_slice(), "id") else {
            return Err(unproved());
        };
        let Some(bound) = property_of(props.as_slice(), "bound") else {
            return Err(unproved());
        };
        let Some(Place::Atom(Atom::Text(text))) = self.place(beside(spot, name)) else {
            return Err(unproved());
        };
        let bound = self.slot_beside(whole, numbers, spot, bound)?;
        Ok(Node::Action {
            id: text.clone()?,
            bound,
        })
    }

    /// The root of the row of an id.
    pub fn root_of(&self, id: u32) -> Option<Spot>
        requires { IsTable self.now }
        ensures { IfSome result (λ s. spot_of self.now.rows.items s ≡ first_place id) }
    {
        match self.known.get(id) {
            Some(known) => match known.row.get() {
                Some(row) => Some(Spot { row, place: 0 }),
                None => None,
            },
            None => None,
        }
    }

    /// Slots of places of a row.
    fn slots(
        &self,
        whole: Whole<'_>,
        alloc: Global,
        numbers: &mut Numbers,
        spot: Spot,
        places: &[u32],
    ) -> Result<Vec<Slot>, Memory>
        requires whole { IsWhole self.now whole.states.now whole.bases.before.now whole.bases.total }
        requires numbered { AreNumbered self.now.rows.items numbers.old }
        ensures numbered { OnOk result (AreNumbered self.now.rows.items numbers.new) }
        ensures grows { OnOk result (Grows numbers.old.keys.items numbers.new.keys.items) }
        ensures slots { IfOk result (λ slots. AreSlots self.now.rows.items numbers.new.keys.items (spot_of self.now.rows.items spot) slots.items places.now) }
    {
        let mut slots = Vec::with_capacity(alloc, places.len())?;
        for place in places {
            slots.push(self.slot_beside(whole, numbers, spot, *place)?)?;
        }
        Ok(slots)
    }

    /// Properties of places of a row.
    fn props(
        &self,
        whole: Whole<'_>,
        alloc: Global,
        numbers: &mut Numbers,
        spot: Spot,
        named: &[Named],
    ) -> Result<Vec<Prop>, Memory>
        requires whole { IsWhole self.now whole.states.now whole.bases.before.now whole.bases.total }
        requires numbered { AreNumbered self.now.rows.items numbers.old }
        ensures numbered { OnOk result (AreNumbered self.now.rows.items numbers.new) }
        ensures grows { OnOk result (Grows numbers.old.keys.items numbers.new.keys.items) }
        ensures props { IfOk result (λ props. AreProps self.now.rows.items numbers.new.keys.items (spot_of self.now.rows.items spot) props.items named.now) }
    {
        let mut props = Vec::with_capacity(alloc, named.len())?;
        for prop in named {
            let slot = self.slot_beside(whole, numbers, spot, prop.place)?;
            let name = prop.name.clone()?;
            props.push(Prop { name, slot })?;
        }
        Ok(props)
    }

    /// Entries that stand at places of a row.
    fn pairs(
        &self,
        whole: Whole<'_>,
        alloc: Global,
        numbers: &mut Numbers,
        spot: Spot,
        places: &[u32],
    ) -> Result<Vec<Pair>, Memory>
        requires whole { IsWhole self.now whole.states.now whole.bases.before.now whole.bases.total }
        requires numbered { AreNumbered self.now.rows.items numbers.old }
        ensures numbered { OnOk result (AreNumbered self.now.rows.items numbers.new) }
        ensures grows { OnOk result (Grows numbers.old.keys.items numbers.new.keys.items) }
        ensures pairs { IfOk result (λ pairs. ArePairs self.now.rows.items numbers.new.keys.items (spot_of self.now.rows.items spot) pairs.items places.now) }
    {
        let mut pairs = Vec::with_capacity(alloc, places.len())?;
        for place in places {
            pairs.push(self.pair(whole, numbers, spot, *place)?)?;
        }
        Ok(pairs)
    }

    /// The items of an array of two.
    fn two_at(&self, spot: Spot) -> Option<(u32, u32)>
        ensures { IfSome result (λ p. place_in self.now.rows.items spot ≡ Some (place.Array (p.0 ∷ p.1 ∷ []))) }
    {
        match self.place(spot) {
            Some(Place::Array(items)) => match items.as_slice() {
                [key, value] => Some((*key, *value)),
                _ => None,
            },
            _ => None,
        }
    }

    fn pair(
        &self,
        whole: Whole<'_>,
        numbers: &mut Numbers,
        spot: Spot,
        place: u32,
    ) -> Result<Pair, Memory>
        requires whole { IsWhole self.now whole.states.now whole.bases.before.now whole.bases.total }
        requires numbered { AreNumbered self.now.rows.items numbers.old }
        ensures numbered { OnOk result (AreNumbered self.now.rows.items numbers.new) }
        ensures grows { OnOk result (Grows numbers.old.keys.items numbers.new.keys.items) }
        ensures pair { IfOk result (λ pair. IsPairAt self.now.rows.items numbers.new.keys.items (spot_of self.now.rows.items spot) pair place) }
    {
        let Some((key, value)) = self.two_at(beside(spot, place)) else {
            return Err(unproved());
        };
        let key = self.slot_beside(whole, numbers, spot, key)?;
        let value = self.slot_beside(whole, numbers, spot, value)?;
        Ok(Pair { key, value })
    }

    /// The slot that is written at another place of a row. Each number in a row is that of a place.
    fn slot_beside(
        &self,
        whole: Whole<'_>,
        numbers: &mut Numbers,
        spot: Spot,
        place: u32,
    ) -> Result<Slot, Memory>
        requires whole { IsWhole self.now whole.states.now whole.bases.before.now whole.bases.total }
        requires numbered { AreNumbered self.now.rows.items numbers.old }
        ensures numbered { OnOk result (AreNumbered self.now.rows.items numbers.new) }
        ensures grows { OnOk result (Grows numbers.old.keys.items numbers.new.keys.items) }
        ensures slot { IfOk result (λ slot. Draws self.now.rows.items numbers.new.keys.items slot (at_place (place_beside (spot_of self.now.rows.items spot) place))) }
    {
        let at = beside(spot, place);
        let Some(written) = self.place(at) else {
            return Err(unproved());
        };
        let target = self.target_written(whole.states, at, written);
        self.slot_to(whole.bases, numbers, target)
    }

    /// The slot that leads to a target.
    fn slot_to(
        &self,
        bases: Bases<'_>,
        numbers: &mut Numbers,
        target: Target<'_>,
    ) -> Result<Slot, Memory>
        requires table { IsTable self.now }
        requires bases { AreBases self.now.rows.items bases.before.now bases.total }
        requires numbered { AreNumbered self.now.rows.items numbers.old }
        requires target { IsTargetOfSome self.now.rows.items target }
        ensures numbered { OnOk result (AreNumbered self.now.rows.items numbers.new) }
        ensures grows { OnOk result (Grows numbers.old.keys.items numbers.new.keys.items) }
        ensures slot { IfOk result (λ slot. (w : Written) → IsTargetOf self.now.rows.items w target.entry → Draws self.now.rows.items numbers.new.keys.items slot w) }
    {
        match target {
            Target::Atom(atom) => Ok(Slot::Atom(atom.copy()?)),
            Target::Node(spot) => self.node_slot(bases, numbers, NodeKey::Made(spot)),
            Target::Promise(id) => self.node_slot(bases, numbers, NodeKey::Promise(id)),
            Target::Action(id) => self.node_slot(bases, numbers, NodeKey::Action(id)),
            Target::Awaits(_) | Target::Lost => Ok(Slot::Atom(Atom::Pending)),
        }
    }

    /// The slot that leads to the node of a key.
    fn node_slot(
        &self,
        bases: Bases<'_>,
        numbers: &mut Numbers,
        key: NodeKey,
    ) -> Result<Slot, Memory>
        requires table { IsTable self.now }
        requires bases { AreBases self.now.rows.items bases.before.now bases.total }
        requires numbered { AreNumbered self.now.rows.items numbers.old }
        requires key { IsKey self.now.rows.items key }
        ensures numbered { OnOk result (AreNumbered self.now.rows.items numbers.new) }
        ensures grows { OnOk result (Grows numbers.old.keys.items numbers.new.keys.items) }
        ensures slot { IfOk result (λ slot. (w : Written) → Leads self.now.rows.items w (store.node_at (identity_of self.now.rows.items key)) → Draws self.now.rows.items numbers.new.keys.items slot w) }
    {
        Ok(Slot::Node(self.number_key(bases, numbers, key)?))
    }
}

/// Another place of a row.
fn beside(spot: Spot, place: u32) -> Spot
    ensures { result ≡ record { row = spot.row; place = place } }
{
    Spot {
        row: spot.row,
        place,
    }
}

/// A count of pairs of slots that a node may have.
fn within_half(count: usize) -> Result<(), Memory>
    ensures { OnOk result (count < 2 ^ 31) }
{
    if count < 1 << 31 {
        Ok(())
    } else {
        Err(unproved())
    }
}
