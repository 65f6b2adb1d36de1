ghost use Rattle.std.specs.Prelude.{◌≡◌, ◌≤◌, ◌++◌, ◌∷◌, [], IfOk, map, option_map, option_and_then, option_copied, slice_get, Some};
ghost use Rattle.flight_render.specs.Run.{ends};
ghost use Rattle.flight_render.specs.Values.{outcomes, arguments, tree_of, made_in, made_items, node_items, node_in, items_in, named_slot, made_property, node_property, property_in, source_end, is_settled};
ghost use Rattle.flight_syntax.specs.declared.script.Outcome.TheVariants.{Value as value_outcome};
ghost use Rattle.flight_eval.specs.Seen.{seen_of, items_of, slot_tree};
ghost use Rattle.flight_eval.specs.Gives.{work_of, Gives};

use crate::place::Place;
use crate::stop::Stop;
use crate::work::Work;
use flight_render::{Ground, Root};
use flight_syntax::Outcome;
use flight_value::{
    Atom, Graph, List, Made, MadeKind, Memory, Name, Node, Prop, Shared, Slot, Text, Tree,
};
use std::alloc::Global;

/// What a source comes to, in place.
#[derive(Clone, Copy)]
pub enum Found<'a> {
    Value(&'a Graph),
    Reject(&'a Text),
}

/// The items of an array, in place: of a node made, or of a source's node.
#[derive(Clone, Copy)]
pub enum Array<'a> {
    Made(&'a [Tree]),
    Source { source: u32, slots: &'a [Slot] },
}

/// An equal value of rendering.
pub fn copy_tree(tree: &Tree) -> Result<Tree, Memory>
    ensures { IfOk result (λ t. t ≡ tree.now) }
{
    Ok(match tree {
        Tree::Atom(atom) => Tree::Atom(atom.copy()?),
        Tree::Made(name) => Tree::Made(Name {
            render: name.render.share()?,
            serial: name.serial,
        }),
        Tree::FromSource { source, node } => Tree::FromSource {
            source: *source,
            node: *node,
        },
        Tree::Promise { source } => Tree::Promise { source: *source },
        Tree::Stream { stream } => Tree::Stream { stream: *stream },
        Tree::Action { action } => Tree::Action { action: *action },
    })
}

/// The value that a slot of a source is.
pub fn slot_tree(source: u32, slot: &Slot) -> Result<Tree, Memory>
    ensures { IfOk result (λ t. t ≡ slot_tree source slot.now) }
{
    Ok(match slot {
        Slot::Atom(atom) => Tree::Atom(atom.copy()?),
        Slot::Node(node) => Tree::FromSource {
            source,
            node: *node,
        },
    })
}

/// The arguments of a call, which stand as one further source.
fn argument_at(root: &Root, at: usize) -> Option<Found<'_>>
    ensures { option_map seen_of result ≡ slice_get (arguments root.now) at }
{
    match root {
        Root::Call { args, .. } if at == 0 => Some(Found::Value(args)),
        _ => None,
    }
}

fn found_of(outcome: &Outcome) -> Found<'_>
    ensures { seen_of result ≡ outcome.now }
{
    match outcome {
        Outcome::Value(graph) => Found::Value(graph),
        Outcome::Reject(digest) => Found::Reject(digest),
    }
}

/// What a source comes to, by its number.
pub fn outcome_at(ground: &Ground, number: u32) -> Option<Found<'_>>
    ensures { option_map seen_of result ≡ slice_get (outcomes ground.now) number }
{
    let sources = ground.script.sources.as_slice();
    let at = number as usize;
    match sources.get(at) {
        Some(data) => Some(found_of(&data.outcome)),
        None => argument_at(&ground.root, at - sources.len()),
    }
}

/// The node of a name, among the tables and the nodes of the own body behind them.
pub fn made_at<'a>(
    tables: &'a [Shared<List<Made>>],
    own: &'a [Made],
    name: &Name,
) -> Option<&'a Made>
    ensures { option_copied result ≡ made_in (tables.now ++ own.now ∷ []) name.now }
{
    let level = name.render.get().as_slice().len();
    let serial = name.serial as usize;
    match tables.get(level) {
        Some(table) => table.get().as_slice().get(serial),
        None if level == tables.len() => own.get(serial),
        None => None,
    }
}

/// The items of a made node that is an array.
fn made_items(made: &Made) -> Option<Array<'_>>
    ensures { option_map items_of result ≡ made_items made.now }
{
    match made.kind {
        MadeKind::Array => Some(Array::Made(made.slots.as_slice())),
        _ => None,
    }
}

/// The items of a source's node that is an array.
fn node_items(graph: &Graph, source: u32, node: u32) -> Option<Array<'_>>
    ensures { option_map items_of result ≡ option_and_then (node_items (value_outcome graph.now) source) (node_in (value_outcome graph.now) node) }
{
    match graph.nodes.as_slice().get(node as usize) {
        Some(Node::Array(slots)) => Some(Array::Source {
            source,
            slots: slots.as_slice(),
        }),
        _ => None,
    }
}

/// The items of an array, by its value.
pub fn items_in<'a>(place: &Place<'a>, own: &'a [Made], value: &Tree) -> Option<Array<'a>>
    ensures { option_map items_of result ≡ items_in place.now.over.now (place.now.tables.now.made ++ own.now ∷ []) value.now }
{
    match value {
        Tree::Made(name) => match made_at(place.tables.made.as_slice(), own, name) {
            Some(made) => made_items(made),
            None => None,
        },
        Tree::FromSource { source, node } => match outcome_at(place.over, *source) {
            Some(Found::Value(graph)) => node_items(graph, *source, *node),
            _ => None,
        },
        _ => None,
    }
}

impl Array<'_> {
    /// An item.
    pub fn get(&self, at: usize) -> Result<Option<Tree>, Memory>
        ensures { IfOk result (λ item. item ≡ slice_get (items_of self.now) at) }
    {
        match self {
            Array::Made(slots) => match slots.get(at) {
                Some(tree) => Ok(Some(copy_tree(tree)?)),
                None => Ok(None),
            },
            Array::Source { source, slots } => match slots.get(at) {
                Some(slot) => Ok(Some(slot_tree(*source, slot)?)),
                None => Ok(None),
            },
        }
    }

    /// All items.
    pub fn items(&self, alloc: Global) -> Result<Vec<Tree>, Memory>
        ensures { IfOk result (λ items. items.items ≡ items_of self.now) }
    {
        match self {
            Array::Made(slots) => copy_trees(alloc, slots),
            Array::Source { source, slots } => slot_trees(alloc, *source, slots),
        }
    }
}

/// Equal values of rendering.
fn copy_trees(alloc: Global, trees: &[Tree]) -> Result<Vec<Tree>, Memory>
    ensures { IfOk result (λ copies. copies.items ≡ trees.now) }
{
    let mut copies = Vec::new(alloc);
    for tree in trees {
        copies.push(copy_tree(tree)?)?;
    }
    Ok(copies)
}

/// The values that the slots of a source are.
fn slot_trees(alloc: Global, source: u32, slots: &[Slot]) -> Result<Vec<Tree>, Memory>
    ensures { IfOk result (λ trees. trees.items ≡ map (slot_tree source) slots.now) }
{
    let mut trees = Vec::new(alloc);
    for slot in slots {
        trees.push(slot_tree(source, slot)?)?;
    }
    Ok(trees)
}

/// The slot of a name among those of a made object, `undefined` where there is none.
fn named_slot(name: &str, names: &[Text], slots: &[Tree]) -> Result<Tree, Memory>
    ensures { IfOk result (λ t. t ≡ named_slot name.now names.now slots.now) }
{
    let mut rest = slots;
    for other in names {
        let Some((slot, others)) = rest.split_first() else {
            return Ok(Tree::Atom(Atom::Undefined));
        };
        if name == other.as_str() {
            return copy_tree(slot);
        }
        rest = others;
    }
    Ok(Tree::Atom(Atom::Undefined))
}

/// The value of a name among the properties of a source's object, `undefined` where there is none.
fn named_prop(name: &str, source: u32, props: &[Prop]) -> Result<Tree, Memory>
    ensures { IfOk result (λ t. t ≡ named_slot name.now (map (λ p. p.name) props.now) (map (λ p. slot_tree source p.slot) props.now)) }
{
    for prop in props {
        if name == prop.name.as_str() {
            return slot_tree(source, &prop.slot);
        }
    }
    Ok(Tree::Atom(Atom::Undefined))
}

/// A property of a made node that is an object.
fn made_property(name: &str, made: &Made) -> Result<Option<Tree>, Memory>
    ensures { IfOk result (λ t. t ≡ made_property name.now made.now) }
{
    match &made.kind {
        MadeKind::Object(names) => Ok(Some(named_slot(
            name,
            names.as_slice(),
            made.slots.as_slice(),
        )?)),
        _ => Ok(None),
    }
}

/// A property of a source's node that is an object.
fn node_property(graph: &Graph, source: u32, name: &str, node: u32) -> Result<Option<Tree>, Memory>
    ensures { IfOk result (λ t. t ≡ option_and_then (node_property (value_outcome graph.now) source name.now) (node_in (value_outcome graph.now) node)) }
{
    match graph.nodes.as_slice().get(node as usize) {
        Some(Node::Object(props)) => Ok(Some(named_prop(name, source, props.as_slice())?)),
        _ => Ok(None),
    }
}

/// A property of an object, by its value.
pub fn property_in(
    place: &Place,
    own: &[Made],
    name: &str,
    value: &Tree,
) -> Result<Option<Tree>, Memory>
    ensures { IfOk result (λ t. t ≡ property_in place.now.over.now (place.now.tables.now.made ++ own.now ∷ []) name.now value.now) }
{
    match value {
        Tree::Made(made) => match made_at(place.tables.made.as_slice(), own, made) {
            Some(made) => made_property(name, made),
            None => Ok(None),
        },
        Tree::FromSource { source, node } => match outcome_at(place.over, *source) {
            Some(Found::Value(graph)) => node_property(graph, *source, name, *node),
            _ => Ok(None),
        },
        _ => Ok(None),
    }
}

/// What a source comes to: its value or its digest, and a wait where it is not settled.
pub fn source_end(place: &Place, source: u32, work: &Work) -> Result<Tree, Stop>
    requires within { work.now.cost ≤ place.now.fuel }
    ensures { Gives (λ t. t) place.now.fuel (ends (source_end place.now.over.now place.now.seen.now.settled source) (work_of work.now)) result (work_of work.now) }
{
    if !is_settled(place.seen.settled.as_slice(), source) {
        return Err(Stop::Waits { source });
    }
    match outcome_at(place.over, source) {
        Some(Found::Value(graph)) => Ok(slot_tree(source, &graph.root)?),
        Some(Found::Reject(digest)) => Err(Stop::Threw(digest.clone()?)),
        None => Err(Stop::Waits { source }),
    }
}

fn is_settled(settled: &[bool], source: u32) -> bool
    ensures { result ≡ is_settled settled.now source }
{
    match settled.get(source as usize) {
        Some(settled) => *settled,
        None => false,
    }
}
