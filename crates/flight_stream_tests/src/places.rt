use flight_meaning::{Place, PlaceTree};
use flight_place::{Manner, PlaceFault, PlaceKind, Scratch, one_tree, places, places_with};
use flight_row::{Row, RowKind};
use flight_value::{Flow, List};
use std::test::Fail;

/// The places of a row.
fn tree(
    rt: &HostRuntime,
    kind: RowKind,
    payload: &str,
    manner: Manner,
) -> Result<PlaceTree, PlaceFault> {
    let payload = List::new(Vec::from_slice(rt.alloc(), payload.as_bytes())?);
    places(
        rt.alloc(),
        &Row {
            id: 0,
            kind,
            payload,
        },
        manner,
    )
}

#[test]
fn reads_rows(rt: HostRuntime) {
    one_tree();
    for (kind, payload, manner, count) in [
        (RowKind::Model, "null", Manner::Wire, 1),
        (RowKind::Model, r#"{"b":[1,-2],"a":"$$x"}"#, Manner::Wire, 5),
        (
            RowKind::Model,
            r#"["$","p",null,{"x":"$L1"}]"#,
            Manner::Wire,
            6,
        ),
        (RowKind::Model, r#"["$","$L1","$$k","$S"]"#, Manner::Wire, 5),
        (
            RowKind::Model,
            r#"["$$","$F1","$n1","$1:a"]"#,
            Manner::Reply,
            5,
        ),
        (RowKind::Model, r#"{"a":1.5,"a":[]}"#, Manner::Wire, 2),
        (
            RowKind::Model,
            r#"[[],{"d":1,"c":2,"d":[3]}]"#,
            Manner::Wire,
            6,
        ),
        (
            RowKind::Model,
            r#"{"r":0,"q":0,"p":0,"o":0,"n":0,"m":0,"l":0,"k":0,"j":0,"i":0,"h":0,"g":0,"f":0,"e":0,"d":0,"c":0,"b":0,"a":0,"r":[0]}"#,
            Manner::Wire,
            20,
        ),
        (RowKind::Model, "-9007199254740991", Manner::Wire, 1),
        (RowKind::Import, r#"[4707,[],"$L"]"#, Manner::Wire, 1),
        (
            RowKind::Error,
            r#"{"digest":"no","n":1.5}"#,
            Manner::Wire,
            1,
        ),
        (RowKind::Text, "{", Manner::Wire, 1),
        (RowKind::Open(Flow::Readable), "", Manner::Wire, 0),
        (RowKind::Close, "", Manner::Wire, 1),
        (RowKind::Close, "[1]", Manner::Wire, 2),
    ] {
        let told = tree(&rt, kind, payload, manner);
        let found = matches!(&told, Ok(tree) if tree.places.as_slice().len() == count);
        assert!(rt; found, "{payload}");
    }
}

#[test]
fn refuses_rows(rt: HostRuntime) {
    for (kind, payload, manner, fault) in [
        (RowKind::Model, "", Manner::Wire, PlaceKind::BadModel),
        (RowKind::Model, "1e400", Manner::Wire, PlaceKind::BadModel),
        (RowKind::Model, "1.0", Manner::Wire, PlaceKind::Number),
        (
            RowKind::Model,
            r#"{"a":1e400,"a":1}"#,
            Manner::Wire,
            PlaceKind::BadModel,
        ),
        (RowKind::Model, "[1.5,[", Manner::Wire, PlaceKind::BadModel),
        (RowKind::Model, "[1.5] 1", Manner::Wire, PlaceKind::BadModel),
        (RowKind::Model, "-0", Manner::Wire, PlaceKind::Number),
        (
            RowKind::Model,
            "9007199254740992",
            Manner::Wire,
            PlaceKind::Number,
        ),
        (
            RowKind::Model,
            r#"["a","$"]"#,
            Manner::Wire,
            PlaceKind::BadToken { at: 2 },
        ),
        (
            RowKind::Model,
            r#"{"b":1.5,"a":"$L"}"#,
            Manner::Wire,
            PlaceKind::BadToken { at: 1 },
        ),
        (
            RowKind::Model,
            r#"["$","a",null]"#,
            Manner::Wire,
            PlaceKind::BadElement { at: 0 },
        ),
        (
            RowKind::Model,
            r#"["$",1.5,"$L1",{}]"#,
            Manner::Wire,
            PlaceKind::BadElement { at: 0 },
        ),
        (
            RowKind::Model,
            r#"["$",["$"],null,{}]"#,
            Manner::Wire,
            PlaceKind::BadElement { at: 2 },
        ),
        (
            RowKind::Model,
            r#"["$"]"#,
            Manner::Reply,
            PlaceKind::BadElement { at: 0 },
        ),
        (
            RowKind::Model,
            r#"["$",1.5,null,{}]"#,
            Manner::Reply,
            PlaceKind::BadToken { at: 1 },
        ),
        (
            RowKind::Model,
            r#""$L1""#,
            Manner::Reply,
            PlaceKind::BadToken { at: 0 },
        ),
        (
            RowKind::Model,
            r#""$h1""#,
            Manner::Reply,
            PlaceKind::BadToken { at: 0 },
        ),
        (
            RowKind::Model,
            r#""$Sx""#,
            Manner::Reply,
            PlaceKind::BadToken { at: 0 },
        ),
        (
            RowKind::Model,
            r#"["$1f","$1F"]"#,
            Manner::Wire,
            PlaceKind::BadToken { at: 2 },
        ),
        (
            RowKind::Model,
            r#"["$7fffffff","$80000000"]"#,
            Manner::Reply,
            PlaceKind::BadToken { at: 2 },
        ),
        (RowKind::Import, "[1.5]", Manner::Wire, PlaceKind::Number),
        (
            RowKind::Error,
            r#"{"digest":1}"#,
            Manner::Wire,
            PlaceKind::BadModel,
        ),
        (
            RowKind::Open(Flow::Iterator),
            "1",
            Manner::Wire,
            PlaceKind::BadModel,
        ),
        (RowKind::Close, "{", Manner::Wire, PlaceKind::BadModel),
    ] {
        let told = tree(&rt, kind, payload, manner);
        let found = matches!(&told, Err(PlaceFault::Fault(kind)) if *kind == fault);
        assert!(rt; found, "{payload}");
    }
}

/// Whether the root is an element with these places.
fn is_element(places: &[Place], places_of: (u32, u32, u32)) -> bool {
    match places.first() {
        Some(Place::Element { tag, key, props }) => (*tag, *key, *props) == places_of,
        _ => false,
    }
}

#[test]
fn numbers_an_element(rt: HostRuntime) -> Result<(), Fail> {
    let payload = r#"["$",["a"],null,"$1:x"]"#;
    match tree(&rt, RowKind::Model, payload, Manner::Wire) {
        Ok(tree) => assert!(rt; is_element(tree.places.as_slice(), (2, 4, 5)), "{payload}"),
        Err(_) => assert!(rt; false, "{payload}"),
    }
    Ok(())
}

/// Whether the root is a reference without a path to this id.
fn is_reference(places: &[Place], id: u32) -> bool {
    match places.first() {
        Some(Place::Value(place)) => place.id == id && place.path.as_slice().is_empty(),
        _ => false,
    }
}

#[test]
fn reads_references(rt: HostRuntime) {
    for (payload, manner, id) in [
        (r#""$0""#, Manner::Wire, 0),
        (r#""$1f""#, Manner::Reply, 0x1f),
        (r#""$fedcba9""#, Manner::Wire, 0xfedcba9),
        (r#""$0000001""#, Manner::Reply, 1),
        (r#""$00000001""#, Manner::Wire, 1),
        (r#""$7fffffff""#, Manner::Reply, 0x7fffffff),
    ] {
        let told = tree(&rt, RowKind::Model, payload, manner);
        let found = matches!(&told, Ok(tree) if is_reference(tree.places.as_slice(), id));
        assert!(rt; found, "{payload}");
    }
}

/// The places of a model row, read in memory that is kept.
fn tree_with(
    rt: &HostRuntime,
    scratch: &mut Scratch,
    payload: &str,
) -> Result<PlaceTree, PlaceFault> {
    let payload = List::new(Vec::from_slice(rt.alloc(), payload.as_bytes())?);
    let row = Row {
        id: 0,
        kind: RowKind::Model,
        payload,
    };
    places_with(rt.alloc(), scratch, &row, Manner::Wire)
}

#[test]
fn a_row_leaves_no_places_to_the_next(rt: HostRuntime) {
    let mut scratch = Scratch::new(rt.alloc());
    for (payload, count) in [
        ("[0,[1,[1.5]]]", 0),
        ("[0]", 2),
        (
            "[0,0,0,0,0,0,0,0,0,0,0,0,0,0,0,0,0,0,0,0,0,0,0,0,0,0,0,0,0,0,0,0,0,0,0,0,0,0,0,0,0,0,0,0,0,0,0,0,0,0,0,0,0,0,0,0,0,0,0,0,0,0,0,0,0,0,0,0,0,0]",
            71,
        ),
        (r#"{"b":0,"a":[]}"#, 3),
        ("[0", 0),
        (
            "[0,0,0,0,0,0,0,0,0,0,0,0,0,0,0,0,0,0,0,0,0,0,0,0,0,0,0,0,0,0,0,0,0,0,0,0,0,0,0,0,0,0,0,0,0,0,0,0,0,0,0,0,0,0,0,0,0,0,0,0,0,0,0,0,0,0,0,0,0,0]",
            71,
        ),
        ("null", 1),
    ] {
        let told = tree_with(&rt, &mut scratch, payload);
        let found = match &told {
            Ok(tree) => tree.places.as_slice().len() == count,
            Err(_) => count == 0,
        };
        assert!(rt; found, "{payload}");
    }
}
