ghost use Rattle.std.specs.Prelude.{◌≡◌, ◌≤◌, ◌++◌, ◌∷◌, [], IfOk, map, codes};
ghost use Rattle.flight_render.specs.Eval.{with_attribute, with_children, tag_tree, make_tagged, make_bound};
ghost use Rattle.flight_eval.specs.Gives.{work_of, context_of, Gives};
ghost use Rattle.flight_eval.specs.Object.{pair_of, attributes_of};

use crate::operators::key_of;
use crate::parts::import_at;
use crate::place::Place;
use crate::stop::Stop;
use crate::work::{Work, make};
use flight_syntax::Tag;
use flight_value::{Atom, MadeKind, Memory, Text, Tree};
use std::alloc::Global;

/// A property of an object or an attribute of an element, with its value.
#[derive(Drop)]
pub struct Property {
    pub name: Text,
    pub value: Tree,
}

/// An element's key, and its other attributes in order.
#[derive(Drop)]
pub struct Attributes {
    pub key: Tree,
    pub props: Vec<Property>,
}

/// Adds an attribute: `key` is to be a text or a whole, and is no property.
pub fn with_attribute(
    place: &Place,
    attrs: Attributes,
    name: &Text,
    value: Tree,
    work: &Work,
) -> Result<Attributes, Stop>
    requires within { work.now.cost ≤ place.now.fuel }
    ensures { Gives attributes_of place.now.fuel (with_attribute (attributes_of attrs) name.now value (work_of work.now)) result (work_of work.now) }
{
    let Attributes { key, props } = attrs;
    if name.as_str() == "key" {
        let key = Tree::Atom(key_of(place.alloc, value)?);
        return Ok(Attributes { key, props });
    }
    let name = name.clone()?;
    let mut props = props;
    props.push(Property { name, value })?;
    Ok(Attributes { key, props })
}

/// Adds what stands inside an element.
fn with_child(alloc: Global, attrs: Attributes, child: Tree) -> Result<Attributes, Memory>
    ensures { IfOk result (λ more. attributes_of more ≡ record { key = attrs.key; props = map pair_of attrs.props.items ++ (codes "children", child) ∷ [] }) }
{
    let Attributes { key, props } = attrs;
    let name = Text::new(alloc, "children")?;
    let mut props = props;
    props.push(Property { name, value: child })?;
    Ok(Attributes { key, props })
}

/// Adds the children of an element: one stands for itself, and more are a new array.
pub fn with_children(
    place: &Place,
    attrs: Attributes,
    children: Vec<Tree>,
    work: &mut Work,
) -> Result<Attributes, Stop>
    requires within { work.old.cost ≤ place.now.fuel }
    ensures { Gives attributes_of place.now.fuel (with_children (context_of place.now) (attributes_of attrs) children.items (work_of work.old)) result (work_of work.new) }
{
    if children.len() > 1 {
        let array = make(place, MadeKind::Array, children, work)?;
        return Ok(with_child(place.alloc, attrs, array)?);
    }
    let mut children = children;
    match children.pop() {
        Some(child) => Ok(with_child(place.alloc, attrs, child)?),
        None => Ok(attrs),
    }
}

/// What stands at a tag's place, other than a server component.
fn tag_tree(place: &Place, tag: &Tag) -> Result<Tree, Memory>
    ensures { IfOk result (λ t. t ≡ tag_tree (context_of place.now) tag.now) }
{
    Ok(Tree::Atom(match tag {
        Tag::Host(name) => Atom::Text(name.clone()?),
        Tag::Client(client) => Atom::Import(import_at(place.alloc, place.over, *client)?),
        _ => Atom::Symbol(Text::new(place.alloc, "react.suspense")?),
    }))
}

/// Makes an element of a tag, a key and the props.
pub fn make_tagged(
    place: &Place,
    tag: &Tag,
    key: Tree,
    props: Tree,
    work: &mut Work,
) -> Result<Tree, Stop>
    requires within { work.old.cost ≤ place.now.fuel }
    ensures { Gives (λ t. t) place.now.fuel (make_tagged (context_of place.now) tag.now key props (work_of work.old)) result (work_of work.new) }
{
    if let Tag::Server(component) = tag {
        let kind = MadeKind::Server {
            component: *component,
        };
        let slots = vec![in place.alloc; key, props]?;
        return make(place, kind, slots, work);
    }
    let tag = tag_tree(place, tag)?;
    let slots = vec![in place.alloc; tag, key, props]?;
    make(place, MadeKind::Element, slots, work)
}

/// Makes an array, the promise of it, and a server reference bound to that promise.
pub fn make_bound(
    place: &Place,
    action: u32,
    slots: Vec<Tree>,
    work: &mut Work,
) -> Result<Tree, Stop>
    requires within { work.old.cost ≤ place.now.fuel }
    ensures { Gives (λ t. t) place.now.fuel (make_bound (context_of place.now) action slots.items (work_of work.old)) result (work_of work.new) }
{
    let array = make(place, MadeKind::Array, slots, work)?;
    let held = vec![in place.alloc; array]?;
    let promise = make(place, MadeKind::Promise, held, work)?;
    let held = vec![in place.alloc; promise]?;
    make(place, MadeKind::Bound { action }, held, work)
}
