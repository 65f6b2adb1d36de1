ghost use Rattle.std.specs.Prelude.{◌≡◌, ◌≢◌, ◌<◌, ◌≤◌, true, length};
ghost use Rattle.flight_row.specs.Rows.{is_one_line, begins_model, longest};
ghost use Rattle.flight_row.specs.declared.row.RowKind.TheVariants.{Model, Text};

use flight_row::{Row, RowKind, Tag, read_tag, write_row};
use flight_value::{Flow, List, Memory};
use std::test::Fail;

/// A row behind another.
fn written(rt: &HostRuntime, id: u32, kind: RowKind, payload: &str) -> Result<Vec<u8>, Memory>
    requires small { id < 2147483648 }
    requires within { length payload.now ≤ longest }
    requires line { kind ≢ Text → is_one_line payload.now ≡ true }
    requires model { kind ≡ Model → begins_model payload.now }
{
    let payload = List::new(Vec::from_slice(rt.alloc(), payload.as_bytes())?);
    let mut out = Vec::from_slice(rt.alloc(), b"0:1\n".as_slice())?;
    write_row(&Row { id, kind, payload }, &mut out)?;
    Ok(out)
}

#[test]
fn writes_rows(rt: HostRuntime) -> Result<(), Fail> {
    let text = written(&rt, 1, RowKind::Text, "a\u{e9}\n")?;
    assert!(rt; text.as_slice() == b"0:1\n1:T4,a\xc3\xa9\n".as_slice());
    let import = written(&rt, 26, RowKind::Import, "[4707,[],\"Link\"]")?;
    assert!(rt; import.as_slice() == b"0:1\n1a:I[4707,[],\"Link\"]\n".as_slice());
    let open = written(&rt, 0x7fff_ffff, RowKind::Open(Flow::Iterable), "")?;
    assert!(rt; open.as_slice() == b"0:1\n7fffffff:X\n".as_slice());
    Ok(())
}

#[test]
#[tactic(auto, unfolding(flight_row::specs::Rows::tag_of))]
fn writes_a_model_row(rt: HostRuntime) -> Result<(), Fail> {
    let model = written(&rt, 0, RowKind::Model, "\"$$5\"")?;
    assert!(rt; model.as_slice() == b"0:1\n0:\"$$5\"\n".as_slice());
    Ok(())
}

#[test]
fn reads_tags(rt: HostRuntime) {
    for (bytes, tag) in [
        (b"T".as_slice(), Tag::Sized),
        (b"H".as_slice(), Tag::Hint),
        (b"DWJN".as_slice(), Tag::Dev),
        (b"ABFGKLMOPQSUVYZ#oslgmr".as_slice(), Tag::Unknown),
        (b"\n\"$-0123456789[{ntf".as_slice(), Tag::Plain),
        (b"C".as_slice(), Tag::Line(RowKind::Close)),
    ] {
        for byte in bytes {
            assert!(rt; read_tag(*byte) == tag, "{byte}");
        }
    }
}
