ghost use Rattle.flight_value.specs.Graph.{IsValid};

use crate::valid_graph::is_valid;
use flight_graph::{Kind, Label, Writer, alike, canon, canon_text, look, write_string};
use flight_value::{Atom, Constant, End, Flow, Graph, List, Memory, Node, Prop, Slot, Text, Wide};
use std::alloc::Global;
use std::test::Fail;

fn graph(root: u32, nodes: Vec<Node>) -> Graph {
    Graph {
        root: Slot::Node(root),
        nodes: List::new(nodes),
    }
}

/// Slots that name these nodes.
fn named(alloc: Global, numbers: &[u32]) -> Result<List<Slot>, Memory> {
    let mut slots = Vec::new(alloc);
    for n in numbers {
        slots.push(Slot::Node(*n))?;
    }
    Ok(List::new(slots))
}

fn prop(alloc: Global, name: &str, slot: Slot) -> Result<Prop, Memory> {
    let name = Text::new(alloc, name)?;
    Ok(Prop { name, slot })
}

/// Nodes of which one is shared and one is left out, with a cycle and numbered out of order.
fn shared(alloc: Global) -> Result<Vec<Node>, Memory> {
    let mut nodes = Vec::new(alloc);
    let mut props = Vec::new(alloc);
    props.push(prop(alloc, "next", Slot::Node(3))?)?;
    nodes.push(Node::Object(List::new(props)))?;
    nodes.push(Node::Array(named(alloc, [0].as_slice())?))?;
    nodes.push(Node::Set(named(alloc, [2, 3].as_slice())?))?;
    nodes.push(Node::Array(named(alloc, [2, 0, 0].as_slice())?))?;
    Ok(nodes)
}

#[test]
fn prints_shared_nodes(rt: HostRuntime) -> Result<(), Fail> {
    let shared = graph(3, shared(rt.alloc())?);
    assert!(rt; is_valid(&shared));
    let found = canon_text(rt.alloc(), &shared)?;
    assert_eq!(rt;
        found.as_str(),
        "root #0\n#0 array [#1,#2,#2]\n#1 set [#1,#0]\n#2 object {\"next\":#0}\n"
    );
    let canon = canon(rt.alloc(), &shared)?;
    assert_eq!(rt; canon.nodes.as_slice().len(), 3);
    Ok(())
}

/// Slots that hold each kind of atom.
fn atoms(alloc: Global) -> Result<Vec<Slot>, Memory> {
    let mut slots = Vec::new(alloc);
    for atom in [
        Atom::Null,
        Atom::Undefined,
        Atom::Bool(true),
        Atom::Bool(false),
        Atom::Whole(0),
        Atom::Whole(-9007199254740991),
        Atom::Big(Wide::new(i128::MIN)),
        Atom::Pending,
    ] {
        slots.push(Slot::Atom(atom))?;
    }
    for constant in [
        Constant::NotANumber,
        Constant::Infinity,
        Constant::MinusInfinity,
        Constant::MinusZero,
    ] {
        slots.push(Slot::Atom(Atom::Constant(constant)))?;
    }
    slots.push(Slot::Atom(Atom::Text(Text::new(alloc, "a\"b\\c")?)))?;
    slots.push(Slot::Atom(Atom::Date(Text::new(alloc, "2024-01-02T03:04:05.678Z")?)))?;
    slots.push(Slot::Atom(Atom::Symbol(Text::new(alloc, "react.suspense")?)))?;
    slots.push(Slot::Atom(Atom::Import(Text::new(alloc, "[\"./tag.js\",[],\"Tag\"]")?)))?;
    slots.push(Slot::Atom(Atom::Failed(Text::new(alloc, "gone\n")?)))?;
    Ok(slots)
}

#[test]
fn prints_atoms(rt: HostRuntime) -> Result<(), Fail> {
    let mut nodes = Vec::new(rt.alloc());
    nodes.push(Node::Set(List::new(atoms(rt.alloc())?)))?;
    let atoms = graph(0, nodes);
    assert!(rt; is_valid(&atoms));
    let found = canon_text(rt.alloc(), &atoms)?;
    assert_eq!(rt;
        found.as_str(),
        "root #0\n#0 set [null,undefined,true,false,0,-9007199254740991,-170141183460469231731687303715884105728n,pending,NaN,Infinity,-Infinity,-0,\"a\\\"b\\\\c\",date 2024-01-02T03:04:05.678Z,symbol \"react.suspense\",import [\"./tag.js\",[],\"Tag\"],failed \"gone\\n\"]\n"
    );
    Ok(())
}

/// A stream of one item.
fn stream(alloc: Global, flow: Flow, end: End) -> Result<Node, Memory> {
    let items = named(alloc, [0].as_slice())?;
    Ok(Node::Stream { flow, items, end })
}

fn action(alloc: Global, id: &str, bound: Slot) -> Result<Node, Memory> {
    let id = Text::new(alloc, id)?;
    Ok(Node::Action { id, bound })
}

/// Nodes of each kind, all named by the first.
fn kinds(alloc: Global) -> Result<Vec<Node>, Memory> {
    let mut nodes = Vec::new(alloc);
    nodes.push(Node::Array(named(alloc, [1, 2, 3, 4, 5, 6, 7, 8, 9].as_slice())?))?;
    nodes.push(stream(alloc, Flow::Readable, End::Going)?)?;
    nodes.push(stream(
        alloc,
        Flow::Iterable,
        End::Closed(Slot::Atom(Atom::Undefined)),
    )?)?;
    nodes.push(stream(alloc, Flow::Iterator, End::Broken(Text::new(alloc, "no")?))?)?;
    nodes.push(Node::Promise(Slot::Node(4)))?;
    nodes.push(action(alloc, "save", Slot::Node(4))?)?;
    nodes.push(action(alloc, "load", Slot::Atom(Atom::Null))?)?;
    nodes.push(Node::Element {
        tag: Slot::Atom(Atom::Text(Text::new(alloc, "p")?)),
        key: Slot::Atom(Atom::Null),
        props: Slot::Node(8),
    })?;
    nodes.push(two_props(alloc)?)?;
    nodes.push(Node::Map(List::new(Vec::new(alloc))))?;
    Ok(nodes)
}

fn two_props(alloc: Global) -> Result<Node, Memory> {
    let mut props = Vec::new(alloc);
    props.push(prop(alloc, "", Slot::Atom(Atom::Whole(1)))?)?;
    props.push(prop(alloc, "\t", Slot::Node(8))?)?;
    Ok(Node::Object(List::new(props)))
}

#[test]
fn prints_each_kind(rt: HostRuntime) -> Result<(), Fail> {
    let kinds = graph(0, kinds(rt.alloc())?);
    assert!(rt; is_valid(&kinds));
    let found = canon_text(rt.alloc(), &kinds)?;
    assert_eq!(rt;
        found.as_str(),
        "root #0
#0 array [#1,#2,#3,#4,#5,#6,#7,#8,#9]
#1 readable [#0] open
#2 iterable [#0] closed undefined
#3 iterator [#0] failed \"no\"
#4 promise #4
#5 action \"save\" #4
#6 action \"load\" null
#7 element \"p\" null #8
#8 object {\"\":1,\"\\t\":#8}
#9 map []
"
    );
    Ok(())
}

/// Expected as `JSON.stringify` writes them.
#[test]
fn escapes_texts(rt: HostRuntime) -> Result<(), Fail> {
    for (text, json) in [
        ("", "\"\""),
        (
            "\u{0}\u{1}\u{7}\u{8}\t\n\u{b}\u{c}\r\u{e}\u{f}",
            "\"\\u0000\\u0001\\u0007\\b\\t\\n\\u000b\\f\\r\\u000e\\u000f\"",
        ),
        (
            "\u{10}\u{19}\u{1a}\u{1f} !",
            "\"\\u0010\\u0019\\u001a\\u001f !\"",
        ),
        (
            "say \"\u{e9}\\\u{1f600}\"/\u{7f}",
            "\"say \\\"\u{e9}\\\\\u{1f600}\\\"/\u{7f}\"",
        ),
    ] {
        let mut out = Writer::new(rt.alloc());
        write_string(&mut out, text)?;
        assert_eq!(rt; out.into_text()?.as_str(), json);
    }
    Ok(())
}

/// An array of these nodes, and two empty objects behind it.
fn array_of(alloc: Global, numbers: &[u32]) -> Result<Graph, Memory> {
    let mut nodes = Vec::new(alloc);
    nodes.push(Node::Array(named(alloc, numbers)?))?;
    nodes.push(Node::Object(List::new(Vec::new(alloc))))?;
    nodes.push(Node::Object(List::new(Vec::new(alloc))))?;
    Ok(graph(0, nodes))
}

#[test]
fn tells_sharing(rt: HostRuntime) -> Result<(), Fail> {
    let shared = array_of(rt.alloc(), [1, 1].as_slice())?;
    let same = array_of(rt.alloc(), [2, 2].as_slice())?;
    let distinct = array_of(rt.alloc(), [1, 2].as_slice())?;
    assert!(rt; is_valid(&shared) && is_valid(&same) && is_valid(&distinct));
    assert!(rt; alike(rt.alloc(), &shared, &same)?);
    assert!(rt; !alike(rt.alloc(), &shared, &distinct)?);
    Ok(())
}

/// Whether a path shows a node of this kind and mark.
fn shows(graph: &Graph, path: &[u32], kind: Kind, mark: u32) -> bool
    requires { IsValid graph.now }
{
    match look(graph, path) {
        Some(
            Label::Node {
                kind: found,
                mark: at,
            },
        ) => found == kind && at == mark,
        _ => false,
    }
}

#[test]
fn looks_along_paths(rt: HostRuntime) -> Result<(), Fail> {
    let kinds = graph(0, kinds(rt.alloc())?);
    assert!(rt; is_valid(&kinds));
    assert!(rt; shows(&kinds, [].as_slice(), Kind::Array, 0));
    assert!(rt; shows(&kinds, [1].as_slice(), Kind::Stream, 2));
    assert!(rt; shows(&kinds, [1, 0, 3, 0].as_slice(), Kind::Promise, 4));
    assert!(rt; shows(&kinds, [6, 2, 1].as_slice(), Kind::Object, 8));
    let last = look(&kinds, [1, 1].as_slice());
    assert!(rt; matches!(last, Some(Label::Atom(Atom::Undefined))));
    for path in [
        [9].as_slice(),
        [1, 2].as_slice(),
        [1, 1, 0].as_slice(),
        [8, 0].as_slice(),
    ] {
        assert!(rt; look(&kinds, path).is_none());
    }
    Ok(())
}

#[test]
fn writer_keeps_every_piece(rt: HostRuntime) -> Result<(), Fail> {
    let mut out = Writer::new(rt.alloc());
    for _ in 0..600 {
        out.push_str("ab")?;
    }
    out.push_bytes([0x63; 2000].as_slice())?;
    out.push(b'd')?;
    assert_eq!(rt; out.count()?, 3201);
    let bytes = out.into_bytes()?;
    assert_eq!(rt; bytes.len(), 3201);
    assert_eq!(rt; &bytes.as_slice()[..2], b"ab".as_slice());
    assert_eq!(rt; &bytes.as_slice()[1198..1201], b"abc".as_slice());
    assert_eq!(rt; &bytes.as_slice()[3199..], b"cd".as_slice());
    Ok(())
}

#[test]
fn bytes_of_no_text_are_refused(rt: HostRuntime) -> Result<(), Fail> {
    let mut out = Writer::new(rt.alloc());
    // A character in two pieces, and then half of one.
    out.push_bytes([0xC3].as_slice())?;
    out.push_bytes([0xA9].as_slice())?;
    assert_eq!(rt; out.into_text()?.as_str(), "é");
    let mut half = Writer::new(rt.alloc());
    half.push_bytes([0xC3].as_slice())?;
    assert!(rt; half.into_text().is_err());
    Ok(())
}
