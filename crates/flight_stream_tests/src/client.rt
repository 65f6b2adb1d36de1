use flight_client::{Client, ClientFault, decode_stream, one_reading};
use flight_feed::FeedKind;
use flight_graph::{Kind, Label, canon_text, look};
use flight_link::{LinkKind, Seen};
use flight_place::PlaceKind;
use flight_value::{Atom, Text};
use std::test::Fail;

/// A client that was fed a stream in pieces of `cut` bytes.
fn fed(rt: &HostRuntime, cut: usize, stream: &str) -> Client {
    let mut client = Client::new(rt.alloc());
    for piece in stream.as_bytes().chunks(cut.max(1)) {
        let _kept = client.feed(piece);
    }
    client
}

/// The text of the graph of a stream that comes in pieces of `cut` bytes, where it is the same whether the graph is built
/// or not.
fn text(rt: &HostRuntime, cut: usize, stream: &str) -> Result<Text, ClientFault> {
    let graph = decode_stream(rt.alloc(), cut.max(1), stream.as_bytes())?;
    let built = canon_text(rt.alloc(), &graph)?;
    let found = fed(rt, cut, stream).end_text(rt.alloc())?;
    if built.as_str() == found.as_str() {
        Ok(found)
    } else {
        Ok(Text::new(rt.alloc(), "two texts")?)
    }
}

const MAP: &str =
    "root #0\n#0 object {\"again\":#1,\"m\":#1}\n#1 map [[\"k\",#2]]\n#2 object {\"v\":1}\n";

const ELEMENT: &str = "root #0
#0 element symbol \"react.suspense\" null #1
#1 object {\"children\":#2,\"fallback\":\"wait\"}
#2 element import [4707,[\"a.js\"],\"Link\"] null #3
#3 object {\"href\":\"/\"}
";

#[test]
fn decodes_streams(rt: HostRuntime) {
    one_reading();
    for (stream, graph) in [
        ("1:T3,a\u{e9}0:\"$1\"\n", "root \"a\u{e9}\"\n"),
        (
            "0:[\"$1\",\"$1\"]\n1:{}\n",
            "root #0\n#0 array [#1,#1]\n#1 object {}\n",
        ),
        (
            "0:[{},{}]\n",
            "root #0\n#0 array [#1,#2]\n#1 object {}\n#2 object {}\n",
        ),
        (
            "0:{\"self\":\"$0\"}\n",
            "root #0\n#0 object {\"self\":#0}\n",
        ),
        (
            "1:[[\"k\",{\"v\":1}]]\n0:{\"m\":\"$Q1\",\"again\":\"$0:m\"}\n",
            MAP,
        ),
        (
            "0:{\"m\":\"$Q1\",\"again\":\"$0:m\"}\n1:[[\"k\",{\"v\":1}]]\n",
            MAP,
        ),
        (
            "2:I[4707,[\"a.js\"],\"Link\"]\n:HL[\"/x.css\",\"style\"]\n1:\"$Sreact.suspense\"\n0:[\"$\",\"$1\",null,{\"fallback\":\"wait\",\"children\":[\"$\",\"$L2\",null,{\"href\":\"/\"}]}]\n",
            ELEMENT,
        ),
    ] {
        for cut in [1, 2, 3, 15, 65_536] {
            let found = text(&rt, cut, stream);
            assert!(rt;
                found.is_ok_and(|found| found.as_str() == graph),
                "{stream} {cut}"
            );
        }
    }
}

#[test]
fn refuses_streams(rt: HostRuntime) {
    let number = 1;
    for (stream, fault) in [
        ("", ClientFault::NoRoot),
        ("1:1\n", ClientFault::NoRoot),
        (
            "0:{\"a\":1",
            ClientFault::Feed {
                number,
                kind: FeedKind::Cut,
            },
        ),
        (
            "0:D{}\n",
            ClientFault::Feed {
                number,
                kind: FeedKind::DevRow,
            },
        ),
        (
            "0:P{}\n",
            ClientFault::Feed {
                number,
                kind: FeedKind::BadTag,
            },
        ),
        (
            "80000000:1\n",
            ClientFault::Feed {
                number,
                kind: FeedKind::BadId,
            },
        ),
        (
            "0:1.5\n0:D\n",
            ClientFault::Place {
                number,
                kind: PlaceKind::Number,
            },
        ),
        (
            ":H\n0:1\n0:2\n",
            ClientFault::Link {
                number: 3,
                kind: LinkKind::Twice { id: 0 },
            },
        ),
        (
            "0:R\n",
            ClientFault::Link {
                number,
                kind: LinkKind::NotBuilt { id: 0 },
            },
        ),
        ("0:\"$0\"\n", ClientFault::Undefined { id: 0 }),
        ("0:\"$2\"\n2:\"$0\"\n", ClientFault::Undefined { id: 0 }),
        ("0:[\"$L5\",\"$3\"]\n", ClientFault::Undefined { id: 3 }),
    ] {
        for cut in [1, 7, 65_536] {
            let found = decode_stream(rt.alloc(), cut, stream.as_bytes());
            assert!(rt; found.err() == Some(fault), "{stream} {cut}");
            let found = fed(&rt, cut, stream).end_text(rt.alloc());
            assert!(rt; found.err() == Some(fault), "{stream} {cut}");
        }
    }
}

/// The mark of the array at a path.
fn array_at(client: &Client, path: &[u32]) -> Option<u32> {
    match client.look(path) {
        Seen::Label(
            Label::Node {
                kind: Kind::Array,
                mark,
            },
        ) => Some(mark),
        _ => None,
    }
}

#[test]
fn shows_what_has_come(rt: HostRuntime) -> Result<(), Fail> {
    let mut client = Client::new(rt.alloc());
    assert!(rt; matches!(client.look([].as_slice()), Seen::NotYet { id: 0 }));
    assert!(rt; client.feed(b"0:{\"a\":\"$3:a\"}\n".as_slice()) == Ok(()));
    assert!(rt; matches!(client.look([0].as_slice()), Seen::NotYet { id: 3 }));
    assert!(rt; matches!(client.look([1].as_slice()), Seen::NoPlace));
    let partial = client.partial(rt.alloc())?;
    let pending = look(&partial, [0].as_slice());
    assert!(rt; matches!(pending, Some(Label::Atom(Atom::Pending))));
    assert!(rt; client.origins(rt.alloc())?.as_slice() == [0].as_slice());
    assert!(rt; client.feed(b"3:{\"a\":[]}\n".as_slice()) == Ok(()));
    let mark = array_at(&client, [0].as_slice());
    assert!(rt; mark.is_some());
    assert!(rt; client.origins(rt.alloc())?.as_slice() == [0, 3].as_slice());
    assert!(rt; client.feed(b"4:1\n".as_slice()) == Ok(()));
    assert!(rt; array_at(&client, [0].as_slice()) == mark);
    Ok(())
}

#[test]
fn keeps_a_fault(rt: HostRuntime) {
    let mut client = Client::new(rt.alloc());
    let kind = PlaceKind::BadModel;
    let fault = Err(ClientFault::Place { number: 2, kind });
    assert!(rt; client.feed(b"0:[]\n1:{\n2:1\n".as_slice()) == fault);
    assert!(rt; client.feed(b"".as_slice()) == fault);
    assert!(rt; array_at(&client, [].as_slice()).is_some());
    assert!(rt; client.end_text(rt.alloc()).err() == Some(ClientFault::Place { number: 2, kind }));
    let found = client.finish(rt.alloc());
    assert!(rt; found.err() == Some(ClientFault::Place { number: 2, kind }));
}

#[test]
fn stays_behind_its_text(rt: HostRuntime) -> Result<(), Fail> {
    let mut client = fed(&rt, 65_536, "0:[]\n");
    for _ in 0..2 {
        assert!(rt;
            client
                .end_text(rt.alloc())
                .is_ok_and(|text| text.as_str() == "root #0\n#0 array []\n")
        );
    }
    assert!(rt; array_at(&client, [].as_slice()).is_some());
    assert!(rt; client.feed(b"1:".as_slice()) == Ok(()));
    let kind = FeedKind::Cut;
    let cut = ClientFault::Feed { number: 2, kind };
    assert!(rt; client.end_text(rt.alloc()).err() == Some(cut));
    assert!(rt; client.feed(b"1\n".as_slice()) == Err(cut));
    assert!(rt; client.end_text(rt.alloc()).err() == Some(cut));
    Ok(())
}
