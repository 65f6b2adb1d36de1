ghost use Rattle.std.specs.Prelude.{◌≡◌, ◌<◌, ◌++◌, ℕ, All, IfOk, OnOk, codes, length, map};
ghost use Rattle.std.specs.Fmt.{signed_decimal};
ghost use Rattle.flight_value.specs.Graph.{IsValid};
ghost use Rattle.flight_graph.specs.Canon.{map_end, map_pair, map_prop, map_slots, node_at};
ghost use Rattle.flight_graph.specs.Text.{atom_text, commas, constant_text, end_text, flow_text, line_text, lines_from, node_text, number_text, pair_text, prop_text, slot_text, string_text, text_of};
ghost use Rattle.flight_graph.specs.Walk.{placed};
ghost use Rattle.flight_graph.specs.Writing.{comma_before};

use crate::escape::{put, write_string};
use crate::rename::{node_in, place_of};
use crate::walk::visit_all;
use crate::writer::Writer;
use flight_value::{Atom, Constant, End, Flow, Graph, Memory, Node, Pair, Prop, Slot, Text};
use itoa::{Buffer, Integer, write_digits};
use std::alloc::Global;

/// How long the text of a node's number is at most.
const NUMBER_LEN: usize = 21;

/// The text of a graph's canon: a line `root` with the root's slot, and then a line for each node in the
/// order of a first visit. Each line ends with a newline. The canon itself is not built.
pub fn canon_text(alloc: Global, graph: &Graph) -> Result<Text, Memory>
    requires { IsValid graph.now }
    ensures { IfOk result (λ t. t ≡ text_of graph.now) }
{
    let walk = visit_all(alloc, graph)?;
    let places = walk.places.as_slice();
    let nodes = graph.nodes.as_slice();
    let mut out = Writer::new(alloc);
    out.push_str("root ")?;
    write_slot(&mut out, places, &graph.root)?;
    put(&mut out, b'\n')?;
    write_lines(&mut out, places, nodes, walk.order.as_slice())?;
    Ok(out.into_text()?)
}

/// The lines of the nodes of that order.
fn write_lines(
    out: &mut Writer,
    places: &[Option<u32>],
    nodes: &[Node],
    order: &[u32],
) -> Result<(), Memory>
    requires { All (λ n. n < length nodes.now) order.now }
    ensures { OnOk result (out.new ≡ out.old ++ lines_from 0 (map (λ n. map_slots (placed places.now) (node_at nodes.now n)) order.now)) }
{
    for (place, node) in order.iter().enumerate() {
        write_line(out, places, place, node_in(nodes, *node))?;
    }
    Ok(())
}

fn write_line(
    out: &mut Writer,
    places: &[Option<u32>],
    place: usize,
    node: &Node,
) -> Result<(), Memory>
    ensures { OnOk result (out.new ≡ out.old ++ line_text place (map_slots (placed places.now) node.now)) }
{
    write_number(out, place)?;
    put(out, b' ')?;
    write_node(out, places, node)?;
    put(out, b'\n')?;
    Ok(())
}

fn write_node(out: &mut Writer, places: &[Option<u32>], node: &Node) -> Result<(), Memory>
    ensures { OnOk result (out.new ≡ out.old ++ node_text (map_slots (placed places.now) node.now)) }
{
    match node {
        Node::Array(items) => write_items(out, places, "array", items.as_slice()),
        Node::Object(props) => write_props(out, places, props.as_slice()),
        Node::Map(pairs) => write_pairs(out, places, pairs.as_slice()),
        Node::Set(items) => write_items(out, places, "set", items.as_slice()),
        Node::Element { tag, key, props } => write_element(out, places, tag, key, props),
        Node::Promise(outcome) => {
            out.push_str("promise ")?;
            write_slot(out, places, outcome)
        }
        Node::Stream { flow, items, end } => {
            write_items(out, places, flow_word(*flow), items.as_slice())?;
            put(out, b' ')?;
            write_end(out, places, end)
        }
        Node::Action { id, bound } => {
            out.push_str("action ")?;
            write_string(out, id.as_str())?;
            put(out, b' ')?;
            write_slot(out, places, bound)
        }
    }
}

fn write_element(
    out: &mut Writer,
    places: &[Option<u32>],
    tag: &Slot,
    key: &Slot,
    props: &Slot,
) -> Result<(), Memory>
    ensures { OnOk result (out.new ≡ out.old ++ codes "element " ++ slot_text (placed places.now tag.now) ++ codes " " ++ slot_text (placed places.now key.now) ++ codes " " ++ slot_text (placed places.now props.now)) }
{
    out.push_str("element ")?;
    write_slot(out, places, tag)?;
    put(out, b' ')?;
    write_slot(out, places, key)?;
    put(out, b' ')?;
    write_slot(out, places, props)
}

fn flow_word(flow: Flow) -> &'static str
    ensures { result.now ≡ flow_text flow }
{
    match flow {
        Flow::Readable => "readable",
        Flow::Iterable => "iterable",
        Flow::Iterator => "iterator",
    }
}

fn write_end(out: &mut Writer, places: &[Option<u32>], end: &End) -> Result<(), Memory>
    ensures { OnOk result (out.new ≡ out.old ++ end_text (map_end (placed places.now) end.now)) }
{
    match end {
        End::Going => {
            out.push_str("open")?;
            Ok(())
        }
        End::Closed(last) => {
            out.push_str("closed ")?;
            write_slot(out, places, last)
        }
        End::Broken(digest) => {
            out.push_str("failed ")?;
            write_string(out, digest.as_str())
        }
    }
}

/// A word and the slots behind it in brackets.
fn write_items(
    out: &mut Writer,
    places: &[Option<u32>],
    word: &str,
    items: &[Slot],
) -> Result<(), Memory>
    ensures { OnOk result (out.new ≡ out.old ++ word.now ++ codes " [" ++ commas slot_text (map (placed places.now) items.now) ++ codes "]") }
{
    out.push_str(word)?;
    out.push_str(" [")?;
    write_slots(out, places, items)?;
    put(out, b']')?;
    Ok(())
}

fn write_slots(out: &mut Writer, places: &[Option<u32>], slots: &[Slot]) -> Result<(), Memory>
    ensures { OnOk result (out.new ≡ out.old ++ commas slot_text (map (placed places.now) slots.now)) }
{
    for (at, slot) in slots.iter().enumerate() {
        write_comma(out, at)?;
        write_slot(out, places, slot)?;
    }
    Ok(())
}

fn write_props(out: &mut Writer, places: &[Option<u32>], props: &[Prop]) -> Result<(), Memory>
    ensures { OnOk result (out.new ≡ out.old ++ codes "object {" ++ commas prop_text (map (map_prop (placed places.now)) props.now) ++ codes "}") }
{
    out.push_str("object {")?;
    for (at, prop) in props.iter().enumerate() {
        write_comma(out, at)?;
        write_prop(out, places, prop)?;
    }
    put(out, b'}')?;
    Ok(())
}

fn write_prop(out: &mut Writer, places: &[Option<u32>], prop: &Prop) -> Result<(), Memory>
    ensures { OnOk result (out.new ≡ out.old ++ prop_text (map_prop (placed places.now) prop.now)) }
{
    write_string(out, prop.name.as_str())?;
    put(out, b':')?;
    write_slot(out, places, &prop.slot)
}

fn write_pairs(out: &mut Writer, places: &[Option<u32>], pairs: &[Pair]) -> Result<(), Memory>
    ensures { OnOk result (out.new ≡ out.old ++ codes "map [" ++ commas pair_text (map (map_pair (placed places.now)) pairs.now) ++ codes "]") }
{
    out.push_str("map [")?;
    for (at, pair) in pairs.iter().enumerate() {
        write_comma(out, at)?;
        write_pair(out, places, pair)?;
    }
    put(out, b']')?;
    Ok(())
}

fn write_pair(out: &mut Writer, places: &[Option<u32>], pair: &Pair) -> Result<(), Memory>
    ensures { OnOk result (out.new ≡ out.old ++ pair_text (map_pair (placed places.now) pair.now)) }
{
    put(out, b'[')?;
    write_slot(out, places, &pair.key)?;
    put(out, b',')?;
    write_slot(out, places, &pair.value)?;
    put(out, b']')?;
    Ok(())
}

/// Appends a comma, but before the first of a row.
pub fn write_comma(out: &mut Writer, at: usize) -> Result<(), Memory>
    ensures { OnOk result (out.new ≡ out.old ++ comma_before at) }
{
    if at > 0 {
        put(out, b',')?;
    }
    Ok(())
}

fn write_slot(out: &mut Writer, places: &[Option<u32>], slot: &Slot) -> Result<(), Memory>
    ensures { OnOk result (out.new ≡ out.old ++ slot_text (placed places.now slot.now)) }
{
    match slot {
        Slot::Atom(atom) => write_atom(out, atom),
        Slot::Node(node) => write_number(out, place_of(places, *node) as usize),
    }
}

/// Appends the number of a node, as it stands in a slot and at the beginning of a line.
pub fn write_number(out: &mut Writer, number: usize) -> Result<(), Memory>
    ensures { OnOk result (out.new ≡ out.old ++ number_text number) }
{
    let mut text = [b'#'; NUMBER_LEN];
    let start = write_digits(number as u64, &mut text, NUMBER_LEN);
    out.push_bytes(&text[start - 1..])
}

/// Appends an atom, as it stands in a slot.
pub fn write_atom(out: &mut Writer, atom: &Atom) -> Result<(), Memory>
    ensures { OnOk result (out.new ≡ out.old ++ atom_text atom.now) }
{
    match atom {
        Atom::Null => out.push_str("null")?,
        Atom::Undefined => out.push_str("undefined")?,
        Atom::Bool(true) => out.push_str("true")?,
        Atom::Bool(false) => out.push_str("false")?,
        Atom::Whole(n) => write_integer(out, *n)?,
        Atom::Big(n) => write_big(out, n.get())?,
        Atom::Text(text) => write_string(out, text.as_str())?,
        Atom::Date(text) => write_plain(out, "date ", text)?,
        Atom::Symbol(text) => write_named(out, "symbol ", text)?,
        Atom::Constant(constant) => out.push_str(constant_word(*constant))?,
        Atom::Import(json) => write_plain(out, "import ", json)?,
        Atom::Failed(digest) => write_named(out, "failed ", digest)?,
        Atom::Pending => out.push_str("pending")?,
    }
    Ok(())
}

fn constant_word(constant: Constant) -> &'static str
    ensures { result.now ≡ constant_text constant }
{
    match constant {
        Constant::NotANumber => "NaN",
        Constant::Infinity => "Infinity",
        Constant::MinusInfinity => "-Infinity",
        Constant::MinusZero => "-0",
    }
}

/// A word and a text as it stands.
fn write_plain(out: &mut Writer, word: &str, text: &Text) -> Result<(), Memory>
    ensures { OnOk result (out.new ≡ out.old ++ word.now ++ text.now) }
{
    out.push_str(word)?;
    out.push_str(text.as_str())?;
    Ok(())
}

/// A word and a text as a JSON string.
fn write_named(out: &mut Writer, word: &str, text: &Text) -> Result<(), Memory>
    ensures { OnOk result (out.new ≡ out.old ++ word.now ++ string_text text.now) }
{
    out.push_str(word)?;
    write_string(out, text.as_str())
}

fn write_big(out: &mut Writer, n: i128) -> Result<(), Memory>
    ensures { OnOk result (out.new ≡ out.old ++ signed_decimal n ++ codes "n") }
{
    write_integer(out, n)?;
    put(out, b'n')?;
    Ok(())
}

fn write_integer<I: Integer>(out: &mut Writer, n: I) -> Result<(), Memory>
    ensures { OnOk result (out.new ≡ out.old ++ I.text n) }
{
    out.push_str(Buffer::new().format(n))?;
    Ok(())
}
