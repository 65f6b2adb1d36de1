use flight_client::decode_stream;
use flight_reply_out::{ReplyOut, encode_reply, fields_text};

/// Whether the graph of a stream is sent as this text.
fn is_sent_as(rt: &HostRuntime, stream: &str, form: &str) -> bool {
    let Ok(graph) = decode_stream(rt.alloc(), 65_536, stream.as_bytes()) else {
        return false;
    };
    let Ok(fields) = encode_reply(rt.alloc(), &graph) else {
        return false;
    };
    fields_text(rt.alloc(), &fields).is_ok_and(|text| text.as_str() == form)
}

/// Whether the graph of a stream can't be sent, for this node of the canon or for the root's slot.
fn is_refused(rt: &HostRuntime, stream: &str, node: Option<u32>) -> bool {
    let Ok(graph) = decode_stream(rt.alloc(), 65_536, stream.as_bytes()) else {
        return false;
    };
    match encode_reply(rt.alloc(), &graph) {
        Err(ReplyOut::NotSendable { node: found }) => found == node,
        _ => false,
    }
}

const SEVENTEEN: &str =
    "0:[\"$Q1\",\"$Q1\",\"$Q1\",\"$Q1\",\"$Q1\",\"$Q1\",\"$Q1\",\"$Q1\",\"$Q1\",\"$Q1\",\"$Q1\",\"$Q1\",\"$Q1\",\"$Q1\",\"$Q1\",\"$Q1\",\"$Q1\"]\n1:[]\n";

const SEVENTEEN_SENT: &str =
    "0=%5B%22%24Q1%22%2C%22%24Q2%22%2C%22%24Q3%22%2C%22%24Q4%22%2C%22%24Q5%22%2C%22%24Q6%22%2C%22%24Q7%22%2C%22%24Q8%22%2C%22%24Q9%22%2C%22%24Qa%22%2C%22%24Qb%22%2C%22%24Qc%22%2C%22%24Qd%22%2C%22%24Qe%22%2C%22%24Qf%22%2C%22%24Q10%22%2C%22%24Q11%22%5D&1=%5B%5D&2=%5B%5D&3=%5B%5D&4=%5B%5D&5=%5B%5D&6=%5B%5D&7=%5B%5D&8=%5B%5D&9=%5B%5D&10=%5B%5D&11=%5B%5D&12=%5B%5D&13=%5B%5D&14=%5B%5D&15=%5B%5D&16=%5B%5D&17=%5B%5D";

#[test]
fn sends_graphs(rt: HostRuntime) {
    for (stream, form) in [
        ("0:[\"$Q1\"]\n1:[]\n", "0=%5B%22%24Q1%22%5D&1=%5B%5D"),
        (SEVENTEEN, SEVENTEEN_SENT),
        (
            "0:{\"a\":\"$1\",\"b\":\"$1\"}\n1:[2]\n",
            "0=%7B%22a%22%3A%5B2%5D%2C%22b%22%3A%22%240%3Aa%22%7D",
        ),
        (
            "0:{\"id\":\"a\",\"bound\":\"$@0\"}\n1:{\"id\":\"b\",\"bound\":\"$@0\"}\n",
            "0=%7B%22bound%22%3A%22%24%401%22%2C%22id%22%3A%22a%22%7D&1=%22%240%22",
        ),
    ] {
        assert!(rt; is_sent_as(&rt, stream, form), "{stream}");
    }
    for (stream, node) in [
        ("0:\"$Sx\"\n", None),
        ("0:[\"$\",\"p\",null,{\"children\":\"hi\"}]\n", Some(0)),
        ("0:[{\"a\":1},{\"a\":\"$Sx\"}]\n", Some(2)),
    ] {
        assert!(rt; is_refused(&rt, stream, node), "{stream}");
    }
}
