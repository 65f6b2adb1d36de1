use flight_client::Client;
use flight_graph::canon_text;
use flight_link::Seen;
use std::test::Fail;

/// The first property of the props of the root element.
const CHILD: [u32; 2] = [2, 0];

#[test]
fn feeds_looks_and_finishes(rt: HostRuntime) -> Result<(), Fail> {
    let mut client = Client::new(rt.alloc());
    assert!(rt; client.feed(b"0:[\"$\",\"p\",null,".as_slice()).is_ok());
    assert!(rt; matches!(client.look(CHILD.as_slice()), Seen::NotYet { id: 0 }));
    assert!(rt; client.feed(b"{\"children\":\"$L1\"}]\n".as_slice()).is_ok());
    assert!(rt; matches!(client.look(CHILD.as_slice()), Seen::NotYet { id: 1 }));
    assert!(rt; client.feed(b"1:\"hi\"\n".as_slice()).is_ok());
    assert!(rt; matches!(client.look(CHILD.as_slice()), Seen::Label(_)));
    let Ok(graph) = client.finish(rt.alloc()) else {
        return Ok(assert!(rt; false));
    };
    let text = canon_text(rt.alloc(), &graph)?;
    assert!(rt;
        text.as_str() == "root #0\n#0 element \"p\" null #1\n#1 object {\"children\":\"hi\"}\n"
    );
    Ok(())
}
