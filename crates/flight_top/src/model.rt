ghost use Rattle.std.specs.Prelude.{◌≡◌, ◌+◌, ◌++◌, ◌∷◌, [], ◌↔◌, ◌<◌, None, Some, true, false, length, IfOk, IfErr, OnOk, OnErr, IsTrue, option_map, slice_set, string_bytes, All, ℕ, map, ◌^◌};
ghost use Rattle.serde_json.specs.Read.{read};
ghost use Rattle.serde_json.specs.View.{view, items_view, members_view, number_view};
ghost use Rattle.flight_value.specs.Graph.{IsValid, Ascend};
ghost use Rattle.flight_value.specs.declared.graph.Graph.{Graph};
ghost use Rattle.flight_top.specs.Model.{whole_of, text_of, is_marked, is_key, has_element_form, is_plain, is_array_plain, are_plain, are_members_plain, slot_at, nodes_at, array_node, array_nodes, item_nodes, item_slots, member_nodes, member_props, MeansGraph};
ghost use Rattle.flight_top.specs.Fine.{IsFine, behind};

use flight_value::{Atom, Graph, List, Memory, Node, Prop, Slot, Text};
use serde_json::{Map, Number, Value};
use std::alloc::{AllocError, AllocFailed, Global};

/// Why a payload gave no graph.
#[derive(Clone, Copy, Debug, PartialEq, Eq)]
pub enum Refused {
    /// It is no JSON, or not plain.
    NotPlain,
    Memory,
}

impl From<Memory> for Refused {
    ghost use Rattle.std.specs.Prelude.{◌≡◌};
    ghost use Rattle.flight_top.specs.declared.model.Refused.TheVariants.{Memory};

    ghost from_gives = { λ _ e. e ≡ Memory };

    fn from(_error: Memory) -> Refused {
        Refused::Memory
    }
}

impl From<AllocError> for Refused {
    ghost use Rattle.std.specs.Prelude.{◌≡◌};
    ghost use Rattle.flight_top.specs.declared.model.Refused.TheVariants.{Memory};

    ghost from_gives = { λ _ e. e ≡ Memory };

    fn from(_error: AllocError) -> Refused {
        Refused::Memory
    }
}

impl<T: Drop> From<AllocFailed<T>> for Refused {
    ghost use Rattle.std.specs.Prelude.{◌≡◌};
    ghost use Rattle.flight_top.specs.declared.model.Refused.TheVariants.{Memory};

    ghost from_gives = { λ _ e. e ≡ Memory };

    fn from(_error: AllocFailed<T>) -> Refused {
        Refused::Memory
    }
}

const MOST: i64 = 9_007_199_254_740_991;

/// A whole number within 53 bits.
fn whole(number: &Number) -> Option<i64>
    ensures { result ≡ whole_of (number_view number.now) }
{
    let n = number.as_i64()?;
    if n < -MOST || n > MOST { None } else { Some(n) }
}

/// What a string stands for.
fn plain(text: &str) -> Option<&str>
    ensures { option_map (λ t. t.now) result ≡ text_of text.now }
{
    match text.strip_prefix('$') {
        None => Some(text),
        Some(rest) => {
            if rest.starts_with('$') {
                Some(rest)
            } else {
                None
            }
        }
    }
}

/// Whether items begin with the mark of an element.
fn starts_with_mark(items: &[Value]) -> bool
    ensures { IsTrue result ↔ (is_marked (items_view items.now) ≡ true) }
{
    match items {
        [Value::String(mark), ..] => mark.as_str() == "$",
        _ => false,
    }
}

/// Whether a value may be an element's key.
fn may_be_key(value: &Value) -> bool
    ensures { IsTrue result ↔ (is_key (view value.now) ≡ true) }
{
    matches!(value, Value::Null | Value::String(_))
}

/// Whether items behind a mark are a type, a key that is null or a text, and props.
fn is_element(items: &[Value]) -> bool
    ensures { IsTrue result ↔ (has_element_form (behind (items_view items.now)) ≡ true) }
{
    match items {
        [_, _, key, _] => may_be_key(key),
        _ => false,
    }
}

/// The next node's number. More nodes than numbers are answered as want of memory.
fn next_number(out: &[Node]) -> Result<u32, Refused>
    ensures ok { IfOk result (λ n. n ≡ length out.now) }
    ensures err { IfErr result (λ e. e ≡ Refused.Memory) }
{
    match u32::try_from(out.len()) {
        Ok(number) => Ok(number),
        Err(_) => Err(Refused::Memory),
    }
}

/// Items that are few enough for a node. More are answered as want of memory.
fn few<T: Drop>(items: Vec<T>) -> Result<List<T>, Refused>
    ensures ok { IfOk result (λ list. (list ≡ items.items) × (length items.items < 2 ^ 32)) }
    ensures err { IfErr result (λ e. e ≡ Refused.Memory) }
{
    if items.len() < 1 << 32 {
        Ok(List::new(items))
    } else {
        Err(Refused::Memory)
    }
}

/// A node that stands for one whose slots are not known yet.
fn unfinished(alloc: Global) -> Node
    ensures { result ≡ Node.Array [] }
{
    Node::Array(List::new(Vec::new(alloc)))
}

/// Puts a node where one stands.
fn put(out: &mut Vec<Node>, at: usize, node: Node)
    requires at { at < length out.old.items }
    requires node { IsFine node }
    requires fine { All IsFine out.old.items }
    ensures nodes { out.new.items ≡ slice_set out.old.items at node }
    ensures fine { All IsFine out.new.items }
{
    out[at] = node;
}

/// A copy of a text.
fn text(alloc: Global, text: &str) -> Result<Text, Refused>
    ensures ok { IfOk result (λ t. t ≡ text.now) }
    ensures err { IfErr result (λ e. e ≡ Refused.Memory) }
{
    Ok(Text::new(alloc, text)?)
}

/// The text that a string stands for, which is the string itself where it does not begin with a dollar.
fn text_in(alloc: Global, string: String) -> Result<Text, Refused>
    ensures ok { IfOk result (λ t. text_of (string_bytes string) ≡ Some t) }
    ensures refused { result ≡ Err Refused.NotPlain → text_of (string_bytes string) ≡ None }
{
    if !string.as_str().starts_with('$') {
        return Ok(Text::from_string(string)?);
    }
    match plain(string.as_str()) {
        Some(t) => text(alloc, t),
        None => Err(Refused::NotPlain),
    }
}

/// The slot of a value, behind whose nodes those in it are put.
#[cycle(walk)]
fn walk(alloc: Global, value: Value, out: &mut Vec<Node>) -> Result<Slot, Refused>
    requires { All IsFine out.old.items }
    ensures plain { OnOk result (is_plain (view value) ≡ true) }
    ensures slot { IfOk result (λ s. s ≡ slot_at (length out.old.items) (view value)) }
    ensures nodes { OnOk result (out.new.items ≡ out.old.items ++ nodes_at (length out.old.items) (view value)) }
    ensures fine { OnOk result (All IsFine out.new.items) }
    ensures refused { result ≡ Err Refused.NotPlain → is_plain (view value) ≡ false }
{
    match value {
        Value::Null => Ok(Slot::Atom(Atom::Null)),
        Value::Bool(b) => Ok(Slot::Atom(Atom::Bool(b))),
        Value::Number(number) => match whole(&number) {
            Some(z) => Ok(Slot::Atom(Atom::Whole(z))),
            None => Err(Refused::NotPlain),
        },
        Value::String(s) => Ok(Slot::Atom(Atom::Text(text_in(alloc, s)?))),
        Value::Array(items) => {
            let number = next_number(out.as_slice())?;
            out.push(unfinished(alloc))?;
            let node = walk_array(alloc, items, out)?;
            put(out, number as usize, node);
            Ok(Slot::Node(number))
        }
        Value::Object(members) => {
            let number = next_number(out.as_slice())?;
            out.push(unfinished(alloc))?;
            let props = walk_members(alloc, members, out)?;
            put(out, number as usize, Node::Object(props));
            Ok(Slot::Node(number))
        }
    }
}

/// The node of an array, behind whose place those in it are put.
#[cycle(walk)]
fn walk_array(alloc: Global, items: Vec<Value>, out: &mut Vec<Node>) -> Result<Node, Refused>
    requires { All IsFine out.old.items }
    ensures plain { OnOk result (is_array_plain (items_view items.items) ≡ true) }
    ensures node { IfOk result (λ node. node ≡ array_node (length out.old.items) (items_view items.items)) }
    ensures nodes { OnOk result (out.new.items ≡ out.old.items ++ array_nodes (length out.old.items) (items_view items.items)) }
    ensures few { IfOk result IsFine }
    ensures fine { OnOk result (All IsFine out.new.items) }
    ensures refused { result ≡ Err Refused.NotPlain → is_array_plain (items_view items.items) ≡ false }
{
    if !starts_with_mark(items.as_slice()) {
        return Ok(Node::Array(walk_items(alloc, items, out)?));
    }
    if !is_element(items.as_slice()) {
        return Err(Refused::NotPlain);
    }
    let mut items = items.into_iter();
    items.next();
    match (items.next(), items.next(), items.next()) {
        (Some(tag), Some(key), Some(props)) => {
            let tag = walk(alloc, tag, out)?;
            let key = walk(alloc, key, out)?;
            let props = walk(alloc, props, out)?;
            Ok(Node::Element { tag, key, props })
        }
        _ => Err(Refused::NotPlain),
    }
}

/// The slots of an array's items.
#[cycle(walk)]
fn walk_items(alloc: Global, items: Vec<Value>, out: &mut Vec<Node>) -> Result<List<Slot>, Refused>
    requires { All IsFine out.old.items }
    ensures plain { OnOk result (are_plain (items_view items.items) ≡ true) }
    ensures slots { IfOk result (λ slots. slots ≡ item_slots (length out.old.items) (items_view items.items)) }
    ensures nodes { OnOk result (out.new.items ≡ out.old.items ++ item_nodes (length out.old.items) (items_view items.items)) }
    ensures few { IfOk result (λ slots. length slots < 2 ^ 32) }
    ensures fine { OnOk result (All IsFine out.new.items) }
    ensures refused { result ≡ Err Refused.NotPlain → are_plain (items_view items.items) ≡ false }
{
    let mut slots = Vec::with_capacity(alloc, items.len())?;
    for item in items {
        slots.push(walk(alloc, item, out)?)?;
    }
    few(slots)
}

/// The properties of an object's members.
#[cycle(walk)]
fn walk_members(
    alloc: Global,
    members: Map<String, Value>,
    out: &mut Vec<Node>,
) -> Result<List<Prop>, Refused>
    requires { All IsFine out.old.items }
    ensures plain { OnOk result (are_members_plain (members_view members.entries) ≡ true) }
    ensures props { IfOk result (λ props. props ≡ member_props (length out.old.items) (members_view members.entries)) }
    ensures nodes { OnOk result (out.new.items ≡ out.old.items ++ member_nodes (length out.old.items) (members_view members.entries)) }
    ensures few { IfOk result (λ props. length props < 2 ^ 32) }
    ensures names { IfOk result (λ props. Ascend (map (λ p. p.name) props)) }
    ensures fine { OnOk result (All IsFine out.new.items) }
    ensures refused { result ≡ Err Refused.NotPlain → are_members_plain (members_view members.entries) ≡ false }
{
    let mut props = Vec::with_capacity(alloc, members.len())?;
    for (name, member) in members {
        let name = Text::from_string(name)?;
        let slot = walk(alloc, member, out)?;
        props.push(Prop { name, slot })?;
    }
    few(props)
}

/// The graph that a payload means, where it is plain JSON.
pub fn model_graph(alloc: Global, payload: &str) -> Result<Graph, Refused>
    ensures graph { IfOk result (λ graph. MeansGraph payload.now graph) }
    ensures valid { IfOk result IsValid }
    ensures refused { result ≡ Err Refused.NotPlain → (graph : Graph) → ¬ (MeansGraph payload.now graph) }
{
    let value = parsed(alloc, payload)?;
    let mut nodes = Vec::new(alloc);
    let root = walk(alloc, value, &mut nodes)?;
    let nodes = few(nodes)?;
    Ok(Graph { root, nodes })
}

/// The JSON of a payload.
fn parsed(alloc: Global, payload: &str) -> Result<Value, Refused>
    ensures ok { IfOk result (λ value. read payload.now ≡ Some (view value)) }
    ensures refused { result ≡ Err Refused.NotPlain → read payload.now ≡ None }
{
    match Value::from_str(alloc, payload) {
        Ok(value) => Ok(value),
        Err(error) if error.is_memory() => Err(Refused::Memory),
        Err(_) => Err(Refused::NotPlain),
    }
}
