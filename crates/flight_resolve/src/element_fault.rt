ghost use Rattle.std.specs.Prelude.{◌≡◌, IfOk, ◌++◌, [], List, map, if◌then◌else◌};
ghost use Rattle.flight_syntax.specs.Tree.{trees_of, props_of};
ghost use Rattle.flight_syntax.specs.Faults as faults;
ghost use Rattle.flight_syntax.specs.Faults.{is_named};
ghost use Rattle.flight_syntax.specs.Lexicon.{Placed};
ghost use Rattle.flight_parse.specs.Code.{placed, tree_of, property_of};
ghost use Rattle.flight_resolve.specs.Names.{IsKnown, IsFirst, all_of};

use crate::attribute_fault::{children_attribute, key_attribute};
use crate::body::Body;
use crate::known::{is_server, unknown_tag};
use crate::name_fault::{NameFault, first_of};
use crate::property_names::property_names;
use crate::repeated::repeated;
use flight_parse::{Name, Property, Tree};
use flight_value::Memory;
use std::alloc::Global;

/// The first fault of an element: of its own names, or that of its parts, which is given.
pub fn own_fault(
    alloc: Global,
    body: &Body<'_>,
    tag: &Name,
    attributes: &[Property],
    children: &[Tree],
    parts: Option<NameFault>,
) -> Result<Option<NameFault>, Memory>
    requires { IsKnown body.now }
    ensures { IfOk result (λ fault. (rest : List faults.NameFault) → IsFirst parts rest → IsFirst fault
        (faults.unless_known (faults.is_tag (all_of body.now) tag.now.bytes) (placed tag.now)
        ++ (faults.repeated [] (faults.property_names (props_of (map property_of attributes.now)))
        ++ (faults.beside_children (trees_of (map tree_of children.now)) (faults.property_names (props_of (map property_of attributes.now)))
        ++ (faults.keys_of (is_named tag.now.bytes (faults.servers (all_of body.now))) (faults.property_names (props_of (map property_of attributes.now))) ++ rest))))) }
{
    let names = property_names(alloc, attributes)?;
    let keys = keys_of(is_server(body, tag), names.as_slice())?;
    let parts = first_of(keys, parts);
    let beside = beside_children(children, names.as_slice())?;
    let parts = first_of(beside, parts);
    let twice = repeated(alloc, names.as_slice())?;
    let parts = first_of(twice, parts);
    let unknown = unknown_tag(body, tag)?;
    Ok(first_of(unknown, parts))
}

/// The first attribute `children`, beside children.
fn beside_children(children: &[Tree], names: &[&Name]) -> Result<Option<NameFault>, Memory>
    ensures { IfOk result (λ fault. IsFirst fault (faults.beside_children (trees_of (map tree_of children.now)) (map (λ n. placed n.now) names.now))) }
{
    children_if(has_children(children), names)
}

/// Whether there are children.
fn has_children(children: &[Tree]) -> bool
    ensures { (names : List Placed) → faults.beside_children (trees_of (map tree_of children.now)) names ≡ (if result then faults.children_attributes names else []) }
{
    match children {
        [] => false,
        [_, ..] => true,
    }
}

/// The first attribute `children`, if there are children.
fn children_if(some: bool, names: &[&Name]) -> Result<Option<NameFault>, Memory>
    ensures { IfOk result (λ fault. IsFirst fault (if some then faults.children_attributes (map (λ n. placed n.now) names.now) else [])) }
{
    if some {
        children_attribute(names)
    } else {
        Ok(None)
    }
}

/// The first attribute `key`, of a server component.
fn keys_of(is_server: bool, names: &[&Name]) -> Result<Option<NameFault>, Memory>
    ensures { IfOk result (λ fault. IsFirst fault (faults.keys_of is_server (map (λ n. placed n.now) names.now))) }
{
    if is_server {
        key_attribute(names)
    } else {
        Ok(None)
    }
}
