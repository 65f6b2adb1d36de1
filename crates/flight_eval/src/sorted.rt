ghost use Rattle.std.specs.Prelude.{◌≡◌, ◌≤◌, IfOk, OnOk, map};
ghost use Rattle.flight_render.specs.Eval.{by_name, make_object, make_element};
ghost use Rattle.flight_eval.specs.Gives.{work_of, context_of, Gives};
ghost use Rattle.flight_eval.specs.Object.{pair_of, attributes_of};

use crate::object::{Attributes, Property, make_tagged};
use crate::place::Place;
use crate::stop::Stop;
use crate::work::{Work, make};
use flight_syntax::Tag;
use flight_value::{List, MadeKind, Memory, Text, Tree};
use std::alloc::Global;

/// Puts properties in the order of the bytes of their names.
fn sort_by_name(props: &mut Vec<Property>) -> Result<(), Memory>
    ensures { OnOk result (map pair_of props.new.items ≡ by_name (map pair_of props.old.items)) }
{
    props.sort_by(|prop, other| prop.name.as_str().cmp(other.name.as_str()))?;
    Ok(())
}

/// The names and the values of properties.
fn unzipped(alloc: Global, props: Vec<Property>) -> Result<(Vec<Text>, Vec<Tree>), Memory>
    ensures names { IfOk result (λ both. both.0.items ≡ map (λ p. p.0) (map pair_of props.items)) }
    ensures values { IfOk result (λ both. both.1.items ≡ map (λ p. p.1) (map pair_of props.items)) }
{
    let mut names = Vec::new(alloc);
    let mut values = Vec::new(alloc);
    for Property { name, value } in props {
        names.push(name)?;
        values.push(value)?;
    }
    Ok((names, values))
}

/// Makes an object of these properties.
pub fn make_object(place: &Place, props: Vec<Property>, work: &mut Work) -> Result<Tree, Stop>
    requires within { work.old.cost ≤ place.now.fuel }
    ensures { Gives (λ t. t) place.now.fuel (make_object (context_of place.now) (map pair_of props.items) (work_of work.old)) result (work_of work.new) }
{
    let mut props = props;
    sort_by_name(&mut props)?;
    let (names, values) = unzipped(place.alloc, props)?;
    make(place, MadeKind::Object(List::new(names)), values, work)
}

/// Makes the props object, and then the element.
pub fn make_element(
    place: &Place,
    tag: &Tag,
    attrs: Attributes,
    work: &mut Work,
) -> Result<Tree, Stop>
    requires within { work.old.cost ≤ place.now.fuel }
    ensures { Gives (λ t. t) place.now.fuel (make_element (context_of place.now) tag.now (attributes_of attrs) (work_of work.old)) result (work_of work.new) }
{
    let Attributes { key, props } = attrs;
    let props = make_object(place, props, work)?;
    make_tagged(place, tag, key, props, work)
}
