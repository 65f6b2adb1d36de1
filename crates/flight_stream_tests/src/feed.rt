use flight_feed::{Arrived, Feed, FeedFault, FeedKind, decode, one_reading, read_back};
use flight_row::RowKind;
use flight_value::Flow;
use std::test::Fail;

/// What a feed answers of a text that comes in pieces of `cut` bytes, with the rows that it hands out.
fn fed(rt: &HostRuntime, text: &[u8], cut: usize, out: &mut Vec<Arrived>) -> Result<(), FeedFault> {
    let mut feed = Feed::new(rt.alloc());
    for piece in text.chunks(cut.max(1)) {
        feed.feed(piece, out)?;
    }
    feed.end()
}

#[test]
fn reads_rows(rt: HostRuntime) -> Result<(), Fail> {
    for (text, number, id, kind, payload) in [
        ("0:\"$$5\"\n", 1, 0, RowKind::Model, "\"$$5\""),
        ("0:T5,$$abc", 1, 0, RowKind::Text, "$$abc"),
        ("1:T3,a\u{e9}", 1, 1, RowKind::Text, "a\u{e9}"),
        ("00000001:T00000000,", 1, 1, RowKind::Text, ""),
        (
            "f:T0b,a\nb:{}\n\"\"\n\n",
            1,
            15,
            RowKind::Text,
            "a\nb:{}\n\"\"\n\n",
        ),
        (
            "2:I[4707,[],\"Link\"]\n",
            1,
            2,
            RowKind::Import,
            "[4707,[],\"Link\"]",
        ),
        (
            "a:E{\"digest\":\"no\"}\n",
            1,
            10,
            RowKind::Error,
            "{\"digest\":\"no\"}",
        ),
        ("1:R\n", 1, 1, RowKind::Open(Flow::Readable), ""),
        ("1:X\n", 1, 1, RowKind::Open(Flow::Iterable), ""),
        ("1:x1\n", 1, 1, RowKind::Open(Flow::Iterator), "1"),
        ("1:C\"x\"\n", 1, 1, RowKind::Close, "\"x\""),
        ("0:\n", 1, 0, RowKind::Model, ""),
        (
            ":HL[]\n7fffffff:null\n",
            2,
            0x7fff_ffff,
            RowKind::Model,
            "null",
        ),
        ("5:H\n:H:\n00:-1\n", 3, 0, RowKind::Model, "-1"),
    ] {
        for cut in [1, 2, 3, 100] {
            let mut out = Vec::new(rt.alloc());
            assert!(rt;
                fed(&rt, text.as_bytes(), cut, &mut out) == Ok(()),
                "{text}"
            );
            assert!(rt; out.len() == 1, "{text}");
            for arrived in &out {
                let row = &arrived.row;
                assert!(rt;
                    (arrived.number, row.id, row.kind) == (number, id, kind),
                    "{text}"
                );
                assert!(rt; row.payload.as_slice() == payload.as_bytes(), "{text}");
            }
        }
    }
    Ok(())
}

#[test]
fn cuts_rows(rt: HostRuntime) -> Result<(), Fail> {
    for text in ["0000000a:T0003,a\u{e9}", "1:I[]\n", "0:[1]\n", ":Hx\n"] {
        let bytes = text.as_bytes();
        for len in 1..bytes.len() {
            let mut out = Vec::new(rt.alloc());
            let fault = fed(&rt, &bytes[..len], 100, &mut out);
            let kind = FeedKind::Cut;
            assert!(rt;
                fault == Err(FeedFault::Row { number: 1, kind }),
                "{text} {len}"
            );
        }
    }
    Ok(())
}

#[test]
fn refuses_rows_at_the_first_byte(rt: HostRuntime) -> Result<(), Fail> {
    for (text, number, kind) in [
        (b"g".as_slice(), 1, FeedKind::BadId),
        (b"0A".as_slice(), 1, FeedKind::BadId),
        (b"80000000".as_slice(), 1, FeedKind::BadId),
        (b"000000000".as_slice(), 1, FeedKind::BadId),
        (b":1".as_slice(), 1, FeedKind::BadId),
        (b":D".as_slice(), 1, FeedKind::BadId),
        (b"0:D".as_slice(), 1, FeedKind::DevRow),
        (b"0:N".as_slice(), 1, FeedKind::DevRow),
        (b"0:P".as_slice(), 1, FeedKind::BadTag),
        (b"0:#".as_slice(), 1, FeedKind::BadTag),
        (b"0:T,".as_slice(), 1, FeedKind::BadLength),
        (b"0:T1g".as_slice(), 1, FeedKind::BadLength),
        (b"0:T000000000".as_slice(), 1, FeedKind::BadLength),
        (b"0:T4000001,".as_slice(), 1, FeedKind::RowTooLong),
        (b"0:T2,\xff1".as_slice(), 1, FeedKind::BadText),
        (b"0:1\n:H\xff\n0:\xff1\n".as_slice(), 3, FeedKind::BadText),
    ] {
        let mut feed = Feed::new(rt.alloc());
        let mut out = Vec::new(rt.alloc());
        let (before, last) = text.split_at(text.len().saturating_sub(1));
        assert!(rt; feed.feed(before, &mut out) == Ok(()), "{kind:?}");
        let fault = Err(FeedFault::Row { number, kind });
        assert!(rt; feed.feed(last, &mut out) == fault, "{kind:?}");
        assert!(rt;
            feed.feed(b"0:1\n".as_slice(), &mut out) == fault,
            "{kind:?}"
        );
        assert!(rt; feed.end() == fault, "{kind:?}");
    }
    Ok(())
}

#[test]
fn limits_payloads(rt: HostRuntime) -> Result<(), Fail> {
    let digits = [b'1'; 65_536];
    let mut out = Vec::new(rt.alloc());
    let kind = FeedKind::RowTooLong;
    let fault = Err(FeedFault::Row { number: 1, kind });
    for (last, answer) in [(b"\n".as_slice(), Ok(())), (b"1".as_slice(), fault)] {
        let mut feed = Feed::new(rt.alloc());
        assert!(rt; feed.feed(b"0:".as_slice(), &mut out) == Ok(()));
        for _ in 0..1024 {
            assert!(rt; feed.feed(digits.as_slice(), &mut out) == Ok(()));
        }
        assert!(rt; feed.feed(last, &mut out) == answer);
        assert!(rt; feed.feed(b"".as_slice(), &mut out) == answer);
        assert!(rt; feed.end() == answer);
    }
    assert!(rt; out.len() == 1);
    for arrived in &out {
        assert!(rt; arrived.row.payload.as_slice().len() == 67_108_864);
    }
    Ok(())
}

#[test]
fn decodes_pieces(rt: HostRuntime) -> Result<(), Fail> {
    let mut pieces = Vec::new(rt.alloc());
    for piece in ["1:T", "3,a\u{e9}0:\"$", "1\"\n"] {
        pieces.push(Vec::from_slice(rt.alloc(), piece.as_bytes())?)?;
    }
    let rows = decode(rt.alloc(), &pieces);
    assert!(rt; rows.is_ok_and(|rows| rows.len() == 2));
    one_reading();
    read_back();
    Ok(())
}
