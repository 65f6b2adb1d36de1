ghost use Rattle.std.specs.Prelude.{◌<◌, ◌^◌};

use flight_feed::{Arrived, Feed, FeedFault};
use flight_payload::{
    PayloadWriter, action_row, close_row, error_row, import_row, lists_are_written, module_text,
    open_row, text_row, values_stand,
};
use flight_row::{RowKind, write_row};
use flight_text::Ref;
use flight_value::{Atom, Constant, Flow, List, Memory, Text, Wide};
use std::alloc::Global;
use std::test::Fail;

/// A place, by the id of its row and the names of the steps from its root.
fn place(alloc: Global, id: u32, names: &[&str]) -> Result<Ref, Memory> {
    let mut path = Vec::new(alloc);
    for name in names {
        path.push(Text::new(alloc, name)?)?;
    }
    Ok(Ref {
        id,
        path: List::new(path),
    })
}

/// An element in an element's props, with a property of each kind.
fn write_page(alloc: Global, out: &mut PayloadWriter) -> Result<(), Memory> {
    out.begin_element()?;
    out.text("ul")?;
    out.atom(&Atom::Null)?;
    out.begin_object()?;
    out.name("children")?;
    out.begin_array()?;
    out.lazy(1)?;
    out.value(&place(alloc, 10, ["props", "a\"b"].as_slice())?)?;
    out.begin_element()?;
    out.lazy(2)?;
    out.text("k")?;
    out.begin_object()?;
    out.end_object()?;
    out.end_array()?;
    out.end_array()?;
    out.name("id")?;
    out.text("$5\n")?;
    out.end_object()?;
    out.end_array()
}

const PAGE: &str =
    "[\"$\",\"ul\",null,{\"children\":[\"$L1\",\"$a:props:a\\\"b\",[\"$\",\"$L2\",\"k\",{}]],\"id\":\"$$5\\n\"}]";

/// Each kind of atom and of reference.
fn write_slots(alloc: Global, out: &mut PayloadWriter) -> Result<(), Memory> {
    out.begin_array()?;
    out.atom(&Atom::Undefined)?;
    out.atom(&Atom::Bool(true))?;
    out.atom(&Atom::Whole(-9_007_199_254_740_991))?;
    out.atom(&Atom::Big(Wide::new(-12)))?;
    out.atom(&Atom::Text(Text::new(alloc, "é")?))?;
    out.atom(&Atom::Symbol(Text::new(alloc, "react.suspense")?))?;
    out.atom(&Atom::Constant(Constant::MinusInfinity))?;
    out.promise(0x7fff_ffff)?;
    out.action(3)?;
    out.map(&place(alloc, 4, [].as_slice())?)?;
    out.set(&place(alloc, 5, [].as_slice())?)?;
    out.end_array()
}

const SLOTS: &str =
    "[\"$undefined\",true,-9007199254740991,\"$n-12\",\"é\",\"$Sreact.suspense\",\"$-Infinity\",\"$@7fffffff\",\"$F3\",\"$Q4\",\"$W5\"]";

/// What a bundler says of a client module, and as its row has it.
const MODULE: &str = "{ \"id\": \"a.js\", \"chunks\": [ 7 ] }";

const COMPACT: &str = "{\"chunks\":[7],\"id\":\"a.js\"}";

/// How long a payload is before it is taken off.
fn slots_len(alloc: Global) -> Result<usize, Memory> {
    let mut out = PayloadWriter::new(alloc);
    out.begin_array()?;
    out.text("\n")?;
    out.clear();
    out.begin_array()?;
    out.atom(&Atom::Whole(0))?;
    out.end_array()?;
    Ok(out.len())
}

/// Writes the row of a client module, by what a bundler says of it.
fn write_import(alloc: Global, id: u32, json: &str, bytes: &mut Vec<u8>) -> Result<(), Memory>
    requires { id < 2 ^ 31 }
{
    if let Some(module) = module_text(alloc, json)? {
        write_row(&import_row(alloc, id, module.as_str())?, bytes)?;
    }
    Ok(())
}

/// A row of each kind, as they are written one after another.
fn stream(alloc: Global) -> Result<Vec<u8>, Memory> {
    let mut bytes = Vec::new(alloc);
    let mut out = PayloadWriter::new(alloc);
    write_page(alloc, &mut out)?;
    write_row(&out.take_model_row(0)?, &mut bytes)?;
    write_slots(alloc, &mut out)?;
    write_row(&out.take_close_row(26)?, &mut bytes)?;
    write_row(&text_row(alloc, 1, "é\n")?, &mut bytes)?;
    write_row(&error_row(alloc, 2, "d\"1")?, &mut bytes)?;
    write_row(&action_row(alloc, 3, "save", None)?, &mut bytes)?;
    write_row(&action_row(alloc, 4, "save", Some(11))?, &mut bytes)?;
    write_row(&open_row(alloc, 5, Flow::Iterator), &mut bytes)?;
    write_row(&close_row(alloc, 5), &mut bytes)?;
    write_import(alloc, 6, MODULE, &mut bytes)?;
    Ok(bytes)
}

/// The rows of a stream.
fn rows(alloc: Global, bytes: &[u8]) -> Result<Vec<Arrived>, FeedFault> {
    let mut rows = Vec::new(alloc);
    let mut feed = Feed::new(alloc);
    feed.feed(bytes, &mut rows)?;
    feed.end()?;
    Ok(rows)
}

#[test]
fn writes_values_and_rows(rt: HostRuntime) -> Result<(), Fail> {
    values_stand();
    lists_are_written();
    assert!(rt; slots_len(rt.alloc())? == 3);
    let bytes = stream(rt.alloc())?;
    let Ok(rows) = rows(rt.alloc(), bytes.as_slice()) else {
        return Ok(assert!(rt; false));
    };
    let mut found = rows.as_slice().iter();
    for (id, kind, payload) in [
        (0, RowKind::Model, PAGE),
        (26, RowKind::Close, SLOTS),
        (1, RowKind::Text, "é\n"),
        (2, RowKind::Error, "{\"digest\":\"d\\\"1\"}"),
        (3, RowKind::Model, "{\"bound\":null,\"id\":\"save\"}"),
        (4, RowKind::Model, "{\"bound\":\"$@b\",\"id\":\"save\"}"),
        (5, RowKind::Open(Flow::Iterator), ""),
        (5, RowKind::Close, ""),
        (6, RowKind::Import, COMPACT),
    ] {
        let row = found.next().map(|arrived| &arrived.row);
        assert!(rt;
            row.is_some_and(|row| row.id == id
                && row.kind == kind
                && row.payload.as_slice() == payload.as_bytes()),
            "{payload}"
        );
    }
    Ok(())
}
