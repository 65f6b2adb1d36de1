ghost use Rattle.std.specs.Prelude.{◌≡◌, ◌++◌, ◌∷◌, [], IfOk, OnOk, decimal};
ghost use Rattle.std.specs.List.{list_any};
ghost use Rattle.flight_reply_out.specs.Homes.{is_outlined, has_entries, has_colon, is_far, is_apart, root_of, steps_to, inside, place_below, place_for};

use crate::origin::Origin;
use flight_payload::PayloadWriter;
use flight_text::Ref;
use flight_value::{List, Memory, Node, Text};
use std::alloc::Global;

/// Where a node of a canon stands in the form.
#[derive(Drop)]
pub struct Home {
    /// What a reference to it names. A promise's or a server reference's is its part.
    pub place: Ref,
    /// Whether it has a part of its own, and so does not stand in place.
    pub apart: bool,
    /// The part in which what is in it stands.
    pub content: u32,
}

/// Where a node would stand in place.
pub fn place_for(
    alloc: Global,
    nodes: &[Node],
    homes: &[Home],
    origin: Option<Origin>,
) -> Result<Ref, Memory>
    ensures { IfOk result (λ at. at ≡ place_for nodes.now homes.now origin) }
{
    let Some(origin) = origin else {
        return Ok(root_of(alloc, 0));
    };
    match (nodes.get(origin.node), homes.get(origin.node)) {
        (Some(node), Some(home)) => place_below(alloc, node, home, origin.slot),
        _ => Ok(root_of(alloc, 0)),
    }
}

/// The place of a slot of a node.
fn place_below(alloc: Global, node: &Node, home: &Home, slot: usize) -> Result<Ref, Memory>
    ensures { IfOk result (λ at. at ≡ record { id = (inside node.now home.now).id; path = (inside node.now home.now).path ++ steps_to node.now slot }) }
{
    let mut path = Vec::new(alloc);
    if has_entries(node) {
        push_steps(alloc, &mut path, node, slot)?;
        return Ok(Ref {
            id: home.content,
            path: List::new(path),
        });
    }
    push_names(&mut path, home.place.path.as_slice())?;
    push_steps(alloc, &mut path, node, slot)?;
    Ok(Ref {
        id: home.place.id,
        path: List::new(path),
    })
}

/// The root of a part.
pub fn root_of(alloc: Global, part: u32) -> Ref
    ensures { result ≡ root_of part }
{
    Ref {
        id: part,
        path: List::new(Vec::new(alloc)),
    }
}

/// Appends the names that lead from a node to one of its slots.
fn push_steps(alloc: Global, path: &mut Vec<Text>, node: &Node, slot: usize) -> Result<(), Memory>
    ensures { OnOk result (path.new.items ≡ path.old.items ++ steps_to node.now slot) }
{
    match node {
        Node::Array(_) | Node::Set(_) => push_number(alloc, path, slot),
        Node::Object(props) => match props.as_slice().get(slot) {
            Some(prop) => push_name(path, &prop.name),
            None => Ok(()),
        },
        Node::Map(_) => {
            push_number(alloc, path, slot / 2)?;
            push_number(alloc, path, slot % 2)
        }
        Node::Action { .. } => push_text(path, Text::new(alloc, "bound")?),
        Node::Element { .. } | Node::Promise(_) | Node::Stream { .. } => Ok(()),
    }
}

fn push_names(path: &mut Vec<Text>, names: &[Text]) -> Result<(), Memory>
    ensures { OnOk result (path.new.items ≡ path.old.items ++ names.now) }
{
    for name in names {
        push_name(path, name)?;
    }
    Ok(())
}

fn push_name(path: &mut Vec<Text>, name: &Text) -> Result<(), Memory>
    ensures { OnOk result (path.new.items ≡ path.old.items ++ name.now ∷ []) }
{
    push_text(path, name.clone()?)
}

fn push_text(path: &mut Vec<Text>, name: Text) -> Result<(), Memory>
    ensures { OnOk result (path.new.items ≡ path.old.items ++ name ∷ []) }
{
    path.push(name)?;
    Ok(())
}

/// Appends a number in decimal.
fn push_number(alloc: Global, path: &mut Vec<Text>, number: usize) -> Result<(), Memory>
    ensures { OnOk result (path.new.items ≡ path.old.items ++ decimal number ∷ []) }
{
    let mut digits = itoa::Buffer::new();
    push_text(path, Text::new(alloc, digits.format(number))?)
}

/// Whether a node that would stand there has a part of its own.
pub fn is_apart(out: &mut PayloadWriter, node: &Node, at: &Ref) -> Result<bool, Memory>
    ensures same { out.new ≡ out.old }
    ensures apart { IfOk result (λ apart. apart ≡ is_apart node.now at.now) }
{
    if is_outlined(node) {
        return Ok(true);
    }
    is_far(out, at)
}

/// Whether a place has a name with `:` on its way, is too deep, or has too long a reference.
fn is_far(out: &mut PayloadWriter, at: &Ref) -> Result<bool, Memory>
    ensures same { out.new ≡ out.old }
    ensures far { IfOk result (λ far. far ≡ is_far at.now) }
{
    let path = at.path.as_slice();
    if have_colon(path) || path.len() >= 40 {
        return Ok(true);
    }
    Ok(out.value_len(at)? > 50)
}

fn have_colon(names: &[Text]) -> bool
    ensures { result ≡ list_any has_colon names.now }
{
    names.iter().any(|name| has_colon(name))
}

fn has_colon(name: &Text) -> bool
    ensures { result ≡ has_colon name.now }
{
    name.as_str().bytes().any(|byte| byte == b':')
}

/// Whether a node is a promise or a server reference.
fn is_outlined(node: &Node) -> bool
    ensures { result ≡ is_outlined node.now }
{
    matches!(node, Node::Promise(_) | Node::Action { .. })
}

/// Whether a node is a Map or a Set.
pub fn has_entries(node: &Node) -> bool
    ensures { result ≡ has_entries node.now }
{
    matches!(node, Node::Map(_) | Node::Set(_))
}
