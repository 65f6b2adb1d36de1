use flight_graph::{Kind, Label, canon_text};
use flight_link::{Found, LinkFault, LinkKind, Links, Seen, Spot};
use flight_meaning::PlaceTree;
use flight_place::{Manner, places};
use flight_row::{Row, RowKind};
use flight_text::Ref;
use flight_value::{Atom, List, Memory, Text};
use std::test::Fail;

/// Adds a row to links.
fn add(
    rt: &HostRuntime,
    links: &mut Links,
    id: u32,
    kind: RowKind,
    payload: &str,
) -> Result<(), LinkFault> {
    if id >= 1 << 31 {
        return Err(LinkFault::Memory);
    }
    let row = Row {
        id,
        kind,
        payload: List::new(Vec::from_slice(rt.alloc(), payload.as_bytes()).map_err(
            |_| LinkFault::Memory,
        )?),
    };
    match places(rt.alloc(), &row, Manner::Wire) {
        Ok(tree) => links.add(id, tree),
        Err(_) => Err(LinkFault::Memory),
    }
}

/// The links of model rows.
fn linked(rt: &HostRuntime, rows: &[(u32, &str)]) -> Result<Links, LinkFault> {
    let mut links = Links::new(rt.alloc());
    for (id, payload) in rows {
        add(rt, &mut links, *id, RowKind::Model, payload)?;
    }
    Ok(links)
}

#[test]
fn tells_the_least_undefined_id(rt: HostRuntime) {
    let cases: [(&[(u32, &str)], Option<u32>); 10] = [
        (&[(0, r#"["$1","$1"]"#), (1, "{}")], None),
        (&[(0, r#"{"self":"$0"}"#)], None),
        (&[(0, r#""$0""#)], Some(0)),
        (&[(0, r#""$2""#), (2, r#""$0""#)], Some(0)),
        (
            &[
                (1, r#"[["k",{"v":1}]]"#),
                (0, r#"{"m":"$Q1","again":"$0:m"}"#),
            ],
            None,
        ),
        (
            &[
                (0, r#"{"m":"$Q1","again":"$0:m"}"#),
                (1, r#"[["k",{"v":1}]]"#),
            ],
            None,
        ),
        (
            &[(0, r#"["$L1"]"#), (1, r#""$L2""#), (2, r#""$L1""#)],
            Some(1),
        ),
        (&[(0, r#""$@1""#), (1, r#""$@0""#)], None),
        (&[(0, r#"["$3","$L2"]"#)], Some(2)),
        (&[(0, r#""$Q1""#), (1, "[[1,2,3]]")], Some(1)),
    ];
    for (rows, undefined) in cases {
        let told =
            matches!(linked(&rt, rows), Ok(links) if links.has_root() && links.undefined() == undefined);
        assert!(rt; told);
    }
}

/// Where a path from an id leads.
fn found(rt: &HostRuntime, links: &Links, id: u32, names: &[&str]) -> Result<Found, Memory> {
    let mut path = Vec::new(rt.alloc());
    for name in names {
        path.push(Text::new(rt.alloc(), name)?)?;
    }
    let path = List::new(path);
    Ok(links.find(&Ref { id, path }))
}

#[test]
fn follows_references(rt: HostRuntime) {
    let mut links = Links::new(rt.alloc());
    let rows: [(u32, RowKind, &str); 3] = [
        (0, RowKind::Model, r#"["$","$L9","k",{"a":"$L1"}]"#),
        (1, RowKind::Model, r#"{"x":["$2"]}"#),
        (2, RowKind::Error, r#"{"digest":"no"}"#),
    ];
    for (id, kind, payload) in rows {
        assert!(rt; add(&rt, &mut links, id, kind, payload).is_ok());
    }
    let cases: [(u32, &[&str], Found); 8] = [
        (0, &[], Found::At(Spot { row: 0, place: 0 })),
        (0, &["key"], Found::At(Spot { row: 0, place: 3 })),
        (0, &["type"], Found::NotYet { id: 9 }),
        (
            0,
            &["props", "a", "x"],
            Found::At(Spot { row: 1, place: 1 }),
        ),
        (
            0,
            &["props", "a", "x", "0", "far"],
            Found::At(Spot { row: 2, place: 0 }),
        ),
        (1, &["x", "00"], Found::Nowhere { id: 1 }),
        (0, &["props", "b"], Found::Nowhere { id: 0 }),
        (7, &["x"], Found::NotYet { id: 7 }),
    ];
    for (id, names, place) in cases {
        let told = matches!(found(&rt, &links, id, names), Ok(it) if it == place);
        assert!(rt; told);
    }
    let again = add(&rt, &mut links, 1, RowKind::Model, "1");
    assert!(rt; again == Err(LinkFault::Fault(LinkKind::Twice { id: 1 })));
}

/// Rows of which each is an alias of the next, in either order, and whether the first leads to the last.
fn chain(rt: &HostRuntime, count: u32, is_backward: bool) -> Result<bool, LinkFault> {
    let mut links = Links::new(rt.alloc());
    for number in 0..count.saturating_add(1) {
        let id = if is_backward {
            count.saturating_sub(number)
        } else {
            number
        };
        let next = id.saturating_add(1);
        let alias = format!(in rt.alloc(); "\"${next:x}\"").map_err(|_| LinkFault::Memory)?;
        let payload = if id == count { "[]" } else { alias.as_str() };
        add(rt, &mut links, id, RowKind::Model, payload)?;
    }
    let row = if is_backward { 0 } else { count };
    let it = found(rt, &links, 0, &[])?;
    Ok(it == Found::At(Spot { row, place: 0 }) && links.undefined().is_none())
}

#[test]
fn settles_long_chains(rt: HostRuntime) {
    for is_backward in [false, true] {
        let told = matches!(chain(&rt, 50000, is_backward), Ok(true));
        assert!(rt; told);
    }
}

/// Whether rows mean a graph of this text, built or not.
fn means(rt: &HostRuntime, rows: &[(u32, &str)], text: &str) -> Result<bool, LinkFault> {
    let links = linked(rt, rows)?;
    let graph = links.graph(rt.alloc())?;
    let built = canon_text(rt.alloc(), &graph)?;
    let found = links.text(rt.alloc())?;
    Ok(built.as_str() == text && found.as_str() == text)
}

#[test]
fn draws_what_rows_mean(rt: HostRuntime) {
    let map =
        "root #0\n#0 object {\"again\":#1,\"m\":#1}\n#1 map [[\"k\",#2]]\n#2 object {\"v\":1}\n";
    let cases: [(&[(u32, &str)], &str); 16] = [
        (
            &[(0, r#"["$1","$1"]"#), (1, "{}")],
            "root #0\n#0 array [#1,#1]\n#1 object {}\n",
        ),
        (
            &[(0, "[{},{}]")],
            "root #0\n#0 array [#1,#2]\n#1 object {}\n#2 object {}\n",
        ),
        (
            &[(0, r#"{"self":"$0"}"#)],
            "root #0\n#0 object {\"self\":#0}\n",
        ),
        (&[(0, r#""$0""#)], "root pending\n"),
        (&[(0, r#""$2""#), (2, r#""$0""#)], "root pending\n"),
        (
            &[
                (1, r#"[["k",{"v":1}]]"#),
                (0, r#"{"m":"$Q1","again":"$0:m"}"#),
            ],
            map,
        ),
        (
            &[
                (0, r#"{"m":"$Q1","again":"$0:m"}"#),
                (1, r#"[["k",{"v":1}]]"#),
            ],
            map,
        ),
        // Rings of aliases, of lazies, of promises.
        (
            &[(0, r#"["$L1"]"#), (1, r#""$L2""#), (2, r#""$L1""#)],
            "root #0\n#0 array [pending]\n",
        ),
        (
            &[(0, r#""$@1""#), (1, r#""$@0""#)],
            "root #0\n#0 promise #1\n#1 promise #0\n",
        ),
        (&[(0, r#""$@0""#)], "root #0\n#0 promise #0\n"),
        // A promise is a node before its row is there.
        (
            &[(0, r#"["$@1","$L2","$3:x"]"#)],
            "root #0\n#0 array [#1,pending,pending]\n#1 promise pending\n",
        ),
        // Paths through lazies, elements, arrays; into a map they lead nowhere.
        (
            &[
                (
                    0,
                    r#"["$","$1:0","k",{"a":"$L1","b":"$0:props:a:1:x","c":"$0:type","d":"$0:key"}]"#,
                ),
                (1, r#"["li",{"x":["$0"]}]"#),
            ],
            "root #0\n#0 element \"li\" \"k\" #1\n#1 object {\"a\":#2,\"b\":#4,\"c\":\"li\",\"d\":\"k\"}\n#2 array [\"li\",#3]\n#3 object {\"x\":#4}\n#4 array [#0]\n",
        ),
        (
            &[(0, r#"["$Q1","$0:0:0"]"#), (1, "[[1,2]]")],
            "root #0\n#0 array [#1,pending]\n#1 map [[1,2]]\n",
        ),
        // Two tokens are two nodes; what they hold is shared.
        (
            &[(0, r#"["$W1","$W1"]"#), (1, "[[]]")],
            "root #0\n#0 array [#1,#3]\n#1 set [#2]\n#2 array []\n#3 set [#2]\n",
        ),
        // A server reference and a promise of one row.
        (
            &[
                (0, r#"["$F1","$h1","$@1"]"#),
                (1, r#"{"id":"f","bound":"$@2"}"#),
            ],
            "root #0\n#0 array [#1,#1,#3]\n#1 action \"f\" #2\n#2 promise pending\n#3 promise #4\n#4 object {\"bound\":#2,\"id\":\"f\"}\n",
        ),
        (&[(0, r#""$F1""#), (1, r#"{"id":"f"}"#)], "root pending\n"),
    ];
    for (rows, text) in cases {
        let told = matches!(means(&rt, rows, text), Ok(true));
        assert!(rt; told, "{text}");
    }
}

#[test]
fn draws_failures_met_on_a_walk(rt: HostRuntime) -> Result<(), Fail> {
    let mut links = Links::new(rt.alloc());
    let rows: [(u32, RowKind, &str); 4] = [
        (
            0,
            RowKind::Model,
            r#"["$L1","$1:a:0","$Q1","$W1","$@1","$2","$3","$3:x"]"#,
        ),
        (1, RowKind::Error, r#"{"digest":"no"}"#),
        (2, RowKind::Text, "$$x"),
        (3, RowKind::Import, r#"{"b": 1, "a": "$1"}"#),
    ];
    for (id, kind, payload) in rows {
        assert!(rt; add(&rt, &mut links, id, kind, payload).is_ok());
    }
    let graph = links.graph(rt.alloc())?;
    let text = canon_text(rt.alloc(), &graph)?;
    let origins = links.origins(rt.alloc())?;
    let wanted = "root #0
#0 array [failed \"no\",failed \"no\",failed \"no\",failed \"no\",#1,\"$$x\",import {\"a\":\"$1\",\"b\":1},pending]
#1 promise failed \"no\"
";
    assert!(rt; text.as_str() == wanted);
    assert!(rt; links.undefined() == Some(3));
    // The promise comes from row 1.
    assert!(rt; origins.as_slice() == [0, 1].as_slice());
    Ok(())
}

/// The kind and the mark of the node at a path.
fn node_at(links: &Links, path: &[u32]) -> Option<(Kind, u32)> {
    match links.look(path) {
        Seen::Label(Label::Node { kind, mark }) => Some((kind, mark)),
        _ => None,
    }
}

/// The id that a path waits for.
fn awaited_at(links: &Links, path: &[u32]) -> Option<u32> {
    match links.look(path) {
        Seen::NotYet { id } => Some(id),
        _ => None,
    }
}

#[test]
fn looks_along_slots(rt: HostRuntime) {
    let first: [(u32, &str); 3] = [
        (1, r#"[["k","$4"]]"#),
        (
            0,
            r#"["$Q1","$W1","$@2","$F3",{"a":"$L4","b":"$1:7"},"$@2"]"#,
        ),
        (3, r#"{"id":"f","bound":null}"#),
    ];
    let mut links = Links::new(rt.alloc());
    assert!(rt; awaited_at(&links, &[2]) == Some(0));
    for (id, payload) in first {
        assert!(rt; add(&rt, &mut links, id, RowKind::Model, payload).is_ok());
    }
    let nodes: [(&[u32], Kind, u32); 7] = [
        (&[], Kind::Array, 4),
        (&[0], Kind::Map, 5),
        (&[1], Kind::Set, 6),
        (&[1, 0], Kind::Array, 1),
        (&[2], Kind::Promise, 7),
        (&[3], Kind::Action, 8),
        (&[5], Kind::Promise, 7),
    ];
    let waits: [(&[u32], u32); 3] = [(&[0, 1], 4), (&[2, 0], 2), (&[4, 0, 9], 4)];
    let nowhere: [&[u32]; 5] = [&[6], &[0, 0, 0], &[4, 1], &[3, 1], &[2, 1]];
    for more in [None, Some((2, r#""$4""#)), Some((4, r#"[5]"#))] {
        if let Some((id, payload)) = more {
            assert!(rt; add(&rt, &mut links, id, RowKind::Model, payload).is_ok());
        }
        // Marks stay when rows come.
        for (path, kind, mark) in nodes {
            assert!(rt; node_at(&links, path) == Some((kind, mark)));
        }
        for path in nowhere {
            assert!(rt; matches!(links.look(path), Seen::NoPlace));
        }
        if more.is_none() {
            for (path, id) in waits {
                assert!(rt; awaited_at(&links, path) == Some(id));
            }
        }
    }
    // A promise and a lazy lead to the array that has come.
    assert!(rt; node_at(&links, &[2, 0]) == node_at(&links, &[4, 0]));
    let atom = links.look(&[2, 0, 0]);
    assert!(rt; matches!(atom, Seen::Label(Label::Atom(Atom::Whole(5)))));
}

#[test]
fn takes_rows_that_may_follow(rt: HostRuntime) -> Result<(), Fail> {
    let mut links = Links::new(rt.alloc());
    let rows: [(u32, RowKind, &str, Option<LinkKind>); 6] = [
        (0, RowKind::Model, "1", None),
        (0, RowKind::Text, "2", Some(LinkKind::Twice { id: 0 })),
        (1, RowKind::Close, "", Some(LinkKind::NotBuilt { id: 1 })),
        (1, RowKind::Error, r#"{"digest":"no"}"#, None),
        (1, RowKind::Import, "3", Some(LinkKind::Twice { id: 1 })),
        (2, RowKind::Import, "4", None),
    ];
    for (id, kind, payload, refusal) in rows {
        let told = add(&rt, &mut links, id, kind, payload);
        let wanted = match refusal {
            None => Ok(()),
            Some(kind) => Err(LinkFault::Fault(kind)),
        };
        assert!(rt; told == wanted);
    }
    Ok(())
}
