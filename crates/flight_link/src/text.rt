ghost use Rattle.std.specs.Prelude.{◌≡◌, ◌+◌, ◌++◌, ℕ, OnOk, codes, length};
ghost use Rattle.flight_link.specs.Laid.{IsCount};
ghost use Rattle.flight_link.specs.declared.laid.Head.TheVariants as head;
ghost use Rattle.flight_link.specs.Drafted.{commas_parts, in_twos, line_parts, more_parts, node_parts, pair_parts, plain, prop_parts, slot_parts, with_names};

use crate::draft::Draft;
use crate::key::NodeKey;
use crate::laid::Head;
use crate::target::Target;
use crate::unproved::unproved;
use flight_meaning::Named;
use flight_value::{Memory, Text};

/// Appends the line of a node.
pub fn write_line(
    out: &mut Draft,
    number: usize,
    head: Head<'_>,
    targets: &[Target<'_>],
) -> Result<(), Memory>
    requires { IsCount head (length targets.now) }
    ensures { OnOk result (out.new ≡ out.old ++ line_parts number head.entry targets.now) }
{
    out.push_number(number)?;
    out.push(b' ')?;
    write_node(out, head, targets)?;
    out.push(b'\n')
}

/// Appends the slot that leads to a target.
pub fn write_slot(out: &mut Draft, target: &Target<'_>) -> Result<(), Memory>
    ensures { OnOk result (out.new ≡ out.old ++ slot_parts target.now) }
{
    match target {
        Target::Atom(atom) => out.push_atom(atom),
        Target::Node(spot) => out.push_key(NodeKey::Made(*spot)),
        Target::Promise(id) => out.push_key(NodeKey::Promise(*id)),
        Target::Action(id) => out.push_key(NodeKey::Action(*id)),
        Target::Awaits(_) | Target::Lost => out.push_str("pending"),
    }
}

/// Appends the slots of targets, with commas between them.
fn write_slots(out: &mut Draft, targets: &[Target<'_>]) -> Result<(), Memory>
    ensures { OnOk result (out.new ≡ out.old ++ commas_parts slot_parts targets.now) }
{
    for (at, target) in targets.iter().enumerate() {
        out.push_comma(at)?;
        write_slot(out, target)?;
    }
    Ok(())
}

/// Appends properties, with commas between them.
fn write_props(out: &mut Draft, named: &[Named], targets: &[Target<'_>]) -> Result<(), Memory>
    requires { length targets.now ≡ length named.now }
    ensures { OnOk result (out.new ≡ out.old ++ commas_parts prop_parts (with_names named.now targets.now)) }
{
    for (at, target) in targets.iter().enumerate() {
        out.push_comma(at)?;
        write_prop(out, &named[at], target)?;
    }
    Ok(())
}

fn write_prop(out: &mut Draft, prop: &Named, target: &Target<'_>) -> Result<(), Memory>
    ensures { OnOk result (out.new ≡ out.old ++ prop_parts (prop.now, target.now)) }
{
    out.push_string(prop.name.as_str())?;
    out.push(b':')?;
    write_slot(out, target)
}

/// Appends entries, with commas between them: of two targets each.
fn write_entries(out: &mut Draft, targets: &[Target<'_>]) -> Result<(), Memory>
    requires { (m : ℕ) × (length targets.now ≡ m + m) }
    ensures { OnOk result (out.new ≡ out.old ++ commas_parts pair_parts (in_twos targets.now)) }
{
    match targets {
        [key, value, rest @ ..] => {
            write_pair(out, key, value)?;
            write_more_entries(out, rest)
        }
        _ => Ok(()),
    }
}

/// Appends entries behind others.
fn write_more_entries(out: &mut Draft, targets: &[Target<'_>]) -> Result<(), Memory>
    requires { (m : ℕ) × (length targets.now ≡ m + m) }
    ensures { OnOk result (out.new ≡ out.old ++ more_parts pair_parts (in_twos targets.now)) }
{
    let mut rest = targets;
    while let [key, value, behind @ ..] = rest {
        out.push(b',')?;
        write_pair(out, key, value)?;
        rest = behind;
    }
    Ok(())
}

/// Appends an entry.
fn write_pair(out: &mut Draft, key: &Target<'_>, value: &Target<'_>) -> Result<(), Memory>
    ensures { OnOk result (out.new ≡ out.old ++ pair_parts (key.now, value.now)) }
{
    out.push(b'[')?;
    write_slot(out, key)?;
    out.push(b',')?;
    write_slot(out, value)?;
    out.push(b']')
}

/// Appends a node, by what it is.
fn write_node(out: &mut Draft, head: Head<'_>, targets: &[Target<'_>]) -> Result<(), Memory>
    requires { IsCount head (length targets.now) }
    ensures { OnOk result (out.new ≡ out.old ++ node_parts head.entry targets.now) }
{
    match head {
        Head::Array => write_items(out, "array [", targets),
        Head::Object(named) => write_object(out, named, targets),
        Head::Map => write_map(out, targets),
        Head::Set => write_items(out, "set [", targets),
        Head::Element => write_element(out, targets),
        Head::Promise => write_promise(out, targets),
        Head::Action(id) => write_action(out, id, targets),
    }
}

/// Appends a word with its bracket, and slots up to the other bracket.
fn write_items(out: &mut Draft, word: &str, targets: &[Target<'_>]) -> Result<(), Memory>
    ensures { OnOk result (out.new ≡ out.old ++ plain word.now ++ commas_parts slot_parts targets.now ++ plain (codes "]")) }
{
    out.push_str(word)?;
    write_slots(out, targets)?;
    out.push(b']')
}

fn write_object(out: &mut Draft, named: &[Named], targets: &[Target<'_>]) -> Result<(), Memory>
    requires { length targets.now ≡ length named.now }
    ensures { OnOk result (out.new ≡ out.old ++ plain (codes "object {") ++ commas_parts prop_parts (with_names named.now targets.now) ++ plain (codes "}")) }
{
    out.push_str("object {")?;
    write_props(out, named, targets)?;
    out.push(b'}')
}

fn write_map(out: &mut Draft, targets: &[Target<'_>]) -> Result<(), Memory>
    requires { (m : ℕ) × (length targets.now ≡ m + m) }
    ensures { OnOk result (out.new ≡ out.old ++ plain (codes "map [") ++ commas_parts pair_parts (in_twos targets.now) ++ plain (codes "]")) }
{
    out.push_str("map [")?;
    write_entries(out, targets)?;
    out.push(b']')
}

fn write_element(out: &mut Draft, targets: &[Target<'_>]) -> Result<(), Memory>
    ensures { OnOk result (out.new ≡ out.old ++ node_parts head.Element targets.now) }
{
    let [tag, key, props] = targets else {
        return Err(unproved());
    };
    out.push_str("element ")?;
    write_slot(out, tag)?;
    out.push(b' ')?;
    write_slot(out, key)?;
    out.push(b' ')?;
    write_slot(out, props)
}

fn write_promise(out: &mut Draft, targets: &[Target<'_>]) -> Result<(), Memory>
    ensures { OnOk result (out.new ≡ out.old ++ node_parts head.Promise targets.now) }
{
    let [outcome] = targets else {
        return Err(unproved());
    };
    out.push_str("promise ")?;
    write_slot(out, outcome)
}

fn write_action(out: &mut Draft, id: &Text, targets: &[Target<'_>]) -> Result<(), Memory>
    ensures { OnOk result (out.new ≡ out.old ++ node_parts (head.Action id.entry) targets.now) }
{
    let [bound] = targets else {
        return Err(unproved());
    };
    out.push_str("action ")?;
    out.push_string(id.as_str())?;
    out.push(b' ')?;
    write_slot(out, bound)
}
