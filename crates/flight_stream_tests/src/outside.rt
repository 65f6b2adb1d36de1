use flight_base::{
    Failed, MemSink, MemSource, ReadAll, Sink, Source, StdSink, StdSource, Unwritten, read_all,
    write_all,
};
use std::io::{self, Read, Write};
use std::test::Fail;

#[test]
fn reads_all_within_the_limit(rt: HostRuntime) -> Result<(), Fail> {
    let alloc = rt.alloc();
    let cases: [(&[u8], usize, &[u32], usize, Result<&[u8], ReadAll>); 9] = [
        (b"hello", 1, &[], 5, Ok(b"hello")),
        (b"hello", 2, &[], 6, Ok(b"hello")),
        (b"hello", 9, &[], 5, Ok(b"hello")),
        (b"", 1, &[], 0, Ok(b"")),
        (b"hello", 2, &[], 4, Err(ReadAll::TooLong)),
        (b"hello", 9, &[1], 0, Err(ReadAll::TooLong)),
        (b"hello", 2, &[0], 5, Err(ReadAll::Read)),
        (b"hello", 2, &[2, 1], 5, Err(ReadAll::Read)),
        (b"hello", 2, &[4], 5, Ok(b"hello")),
    ];
    for (bytes, most, fails, limit, want) in cases {
        assert!(rt; most >= 1);
        let bytes = Vec::from_slice(alloc, bytes)?;
        let mut source = MemSource::new(bytes, most, Vec::from_slice(alloc, fails)?);
        match read_all(alloc, &mut source, limit) {
            Ok(read) => assert!(rt; want == Ok(read.as_slice()), "{most} {limit}"),
            Err(cause) => assert!(rt; want == Err(cause), "{most} {limit}"),
        }
    }
    Ok(())
}

#[test]
fn writes_all_and_finishes(rt: HostRuntime) -> Result<(), Fail> {
    let alloc = rt.alloc();
    let cases: [(
        usize,
        &[u32],
        Result<(), Unwritten>,
        &[u8],
        Result<(), Failed>,
    ); 5] = [
        (1, &[], Ok(()), b"hello", Ok(())),
        (9, &[], Ok(()), b"hello", Ok(())),
        (2, &[1], Err(Unwritten::Failed), b"he", Ok(())),
        (2, &[2, 3], Err(Unwritten::Failed), b"hell", Err(Failed)),
        (2, &[3], Ok(()), b"hello", Err(Failed)),
    ];
    for (most, fails, written, held, finished) in cases {
        assert!(rt; most >= 1);
        let mut sink = MemSink::new(alloc, most, Vec::from_slice(alloc, fails)?);
        assert_eq!(rt; write_all(&mut sink, b"hello"), written);
        assert_eq!(rt; sink.held(), held);
        assert_eq!(rt; sink.finish(), finished);
        assert_eq!(rt; sink.held(), held);
    }
    Ok(())
}

/// A reader and a writer that moves two bytes at a turn, or nothing, or breaks.
#[derive(Drop)]
struct Turns {
    turns: [Turn; 3],
    next: usize,
}

#[derive(Clone, Copy)]
enum Turn {
    Two,
    Nothing,
    Breaks,
}

impl Turns {
    fn new(turns: [Turn; 3]) -> Turns {
        Turns { turns, next: 0 }
    }

    fn turn(&mut self) -> io::Result<usize> {
        let turn = self.turns.get(self.next).copied();
        self.next = self.next.saturating_add(1);
        match turn {
            Some(Turn::Two) => Ok(2),
            Some(Turn::Breaks) => Err(io::ErrorKind::BrokenPipe.into()),
            Some(Turn::Nothing) | None => Ok(0),
        }
    }
}

impl Read for Turns {
    fn read(&mut self, buf: &mut [u8]) -> io::Result<usize> {
        let count = self.turn()?.min(buf.len());
        buf[..count].fill(b'x');
        Ok(count)
    }
}

impl Write for Turns {
    fn write(&mut self, buf: &[u8]) -> io::Result<usize> {
        Ok(self.turn()?.min(buf.len()))
    }

    fn flush(&mut self) -> io::Result<()> {
        self.turn()?;
        Ok(())
    }
}

#[test]
fn adapts_readers(rt: HostRuntime) -> Result<(), Fail> {
    let alloc = rt.alloc();
    let cases = [
        ([Turn::Two, Turn::Two, Turn::Nothing], Ok(4)),
        ([Turn::Two, Turn::Breaks, Turn::Two], Err(ReadAll::Read)),
        ([Turn::Two, Turn::Two, Turn::Two], Err(ReadAll::TooLong)),
    ];
    for (turns, want) in cases {
        let mut source = StdSource::new(Turns::new(turns));
        assert_eq!(rt;
            read_all(alloc, &mut source, 5).map(|bytes| bytes.len()),
            want
        );
    }
    let text = read_all(alloc, &mut StdSource::new(b"hello".as_slice()), 5);
    assert!(rt; text.is_ok_and(|text| text.as_slice() == b"hello".as_slice()));
    Ok(())
}

#[test]
fn adapts_writers(rt: HostRuntime) -> Result<(), Fail> {
    let cases = [
        ([Turn::Two, Turn::Two, Turn::Nothing], Ok(()), Ok(())),
        ([Turn::Two, Turn::Two, Turn::Breaks], Ok(()), Err(Failed)),
        (
            [Turn::Two, Turn::Nothing, Turn::Two],
            Err(Unwritten::Failed),
            Ok(()),
        ),
        (
            [Turn::Two, Turn::Breaks, Turn::Two],
            Err(Unwritten::Failed),
            Ok(()),
        ),
    ];
    for (turns, written, finished) in cases {
        let mut sink = StdSink::new(Turns::new(turns));
        assert_eq!(rt; write_all(&mut sink, b"xyz"), written);
        assert_eq!(rt; sink.finish(), finished);
    }
    let mut held = Vec::new(rt.alloc());
    let mut sink = StdSink::new(&mut held);
    assert_eq!(rt; write_all(&mut sink, b"hello"), Ok(()));
    assert_eq!(rt; sink.finish(), Ok(()));
    assert_eq!(rt; held.as_slice(), b"hello".as_slice());
    Ok(())
}
