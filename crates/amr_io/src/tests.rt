ghost use Rattle.std.specs.Prelude.{◌≡◌};

use crate::{
    DropSink, Failed, FaultlessSource, Filled, Gate, Inlet, MemorySink, MemorySource, ReadSource,
    Sink, Source, WriteSink, write_whole, write_whole_headed,
};
use std::alloc::AllocError;
use std::io;
use std::io::{ErrorKind, Read, Write};
use std::test::Fail;

// A reader and a writer of std whose first call is interrupted; the second one would be served.
#[derive(Drop)]
struct Interrupted {
    calls: u8,
}

impl Read for Interrupted {
    fn read(&mut self, _buf: &mut [u8]) -> io::Result<usize> {
        self.calls = self.calls.saturating_add(1);
        if self.calls == 1 {
            return Err(ErrorKind::Interrupted.into());
        }
        Ok(0)
    }
}

impl Write for Interrupted {
    fn write(&mut self, buf: &[u8]) -> io::Result<usize> {
        self.calls = self.calls.saturating_add(1);
        if self.calls == 1 {
            return Err(ErrorKind::Interrupted.into());
        }
        Ok(buf.len())
    }

    fn flush(&mut self) -> io::Result<()> {
        Ok(())
    }
}

fn read_some<S: Source>(source: &mut S, buf: &mut [u8; 4]) -> Result<usize, Failed> {
    source.read(buf)
}

// Reads up to four octets and appends them to those given before. A failure is `None`.
fn read_onto(source: &mut MemorySource, given: &mut Vec<u8>) -> Result<Option<usize>, AllocError> {
    let mut buf = [0u8; 4];
    let Ok(count) = source.read(&mut buf) else {
        return Ok(None);
    };
    given.extend_from_slice(&buf[..count])?;
    Ok(Some(count))
}

fn write_some<S: Sink>(sink: &mut S) -> Result<usize, Failed> {
    sink.write(b"wxyz")
}

#[test]
fn a_memory_source_gives_its_octets_in_cuts(rt: HostRuntime) -> Result<(), Fail> {
    // The cut, the calls that fail, and what six reads of up to four octets of "abcde" give; 9 stands for a failure.
    let rows: [(usize, &[u64], [usize; 6], &[u8]); 5] = [
        (1, &[], [1, 1, 1, 1, 1, 0], b"abcde"),
        (2, &[], [2, 2, 1, 0, 0, 0], b"abcde"),
        (3, &[0, 2], [9, 3, 9, 2, 0, 0], b"abcde"),
        (9, &[5, 1], [4, 9, 1, 0, 0, 9], b"abcde"),
        (1, &[1, 3, 5], [1, 9, 1, 9, 1, 9], b"abc"),
    ];
    for (cut, failing, wanted, octets) in rows {
        let mut source = MemorySource::create(rt.alloc(), b"abcde", cut.max(1), failing)?;
        let mut given = Vec::new(rt.alloc());
        for want in wanted {
            let count = read_onto(&mut source, &mut given)?;
            assert_eq!(rt; count.unwrap_or(9), want, "at cut {cut}");
        }
        assert_eq!(rt; given.as_slice(), octets, "at cut {cut}");
    }
    Ok(())
}

#[test]
fn a_memory_sink_takes_what_fits(rt: HostRuntime) -> Result<(), Fail> {
    // The room, the cut, the calls that fail, and what four writes of "wxyz" take; 9 stands for a failure.
    let rows: [(usize, usize, &[u64], [usize; 4], &[u8]); 4] = [
        (6, 9, &[], [4, 2, 9, 9], b"wxyzwx"),
        (9, 3, &[1], [3, 9, 3, 3], b"wxywxywxy"),
        (3, 1, &[0], [9, 1, 1, 1], b"www"),
        (0, 1, &[], [9, 9, 9, 9], b""),
    ];
    for (room, cut, failing, wanted, octets) in rows {
        let mut sink = MemorySink::create(rt.alloc(), room, cut.max(1), failing)?;
        for want in wanted {
            assert_eq!(rt; write_some(&mut sink).unwrap_or(9), want, "at room {room}");
        }
        assert_eq!(rt; sink.octets(), octets, "at room {room}");
    }
    Ok(())
}

#[test]
fn a_whole_piece_is_written_or_a_proper_prefix(rt: HostRuntime) -> Result<(), Fail> {
    let mut small = MemorySink::create(rt.alloc(), 5, 2, &[])?;
    assert_eq!(rt; write_whole(&mut small, b"abcd"), Ok(()));
    assert_eq!(rt; write_whole(&mut small, b""), Ok(()));
    assert_eq!(rt; write_whole(&mut small, b"efg"), Err(Failed));
    assert_eq!(rt; small.octets(), b"abcde".as_slice());
    let mut failing = MemorySink::create(rt.alloc(), 9, 9, &[0])?;
    assert_eq!(rt; write_whole(&mut failing, b""), Ok(()));
    assert_eq!(rt; write_whole(&mut failing, b"a"), Err(Failed));
    assert_eq!(rt; write_whole(&mut failing, b"b"), Ok(()));
    assert_eq!(rt; failing.octets(), b"b".as_slice());
    let mut drop = DropSink::new();
    assert_eq!(rt; write_some(&mut drop), Ok(4));
    assert_eq!(rt; write_whole(&mut drop, b"abcd"), Ok(()));
    Ok(())
}

#[test]
fn a_head_and_the_front_of_a_body_are_written_as_one_piece(rt: HostRuntime) -> Result<(), Fail> {
    let body = *b"bcdefg";
    let mut sink = MemorySink::create(rt.alloc(), 5, 1, &[])?;
    assert_eq!(rt; write_whole_headed(&mut sink, b'a', &body, 3), Ok(()));
    assert_eq!(rt; write_whole_headed(&mut sink, b'z', &body, 0), Ok(()));
    assert_eq!(rt; write_whole_headed(&mut sink, b'z', &body, 6), Err(Failed));
    assert_eq!(rt; sink.octets(), b"abcdz".as_slice());
    let mut small = MemorySink::create(rt.alloc(), 3, 9, &[])?;
    assert_eq!(rt; write_whole_headed(&mut small, b'a', &body, 3), Err(Failed));
    assert_eq!(rt; small.octets(), b"abc".as_slice());
    Ok(())
}

// The answers of four fills of an inlet of 8 octets. After a failure, and where it is full, it makes no more.
fn four_fills(source: &mut MemorySource, inlet: &mut Inlet) -> [Result<Filled, Failed>; 4]
    requires open { inlet.old.gate ≡ Gate.Open }
    requires size { inlet.old.size ≡ 8 }
{
    let mut answers = [Err(Failed); 4];
    for i in 0..4 {
        if inlet.held().len() == 8 {
            break;
        }
        match inlet.fill(source) {
            Ok(filled) => answers[i] = Ok(filled),
            Err(Failed) => break,
        }
    }
    answers
}

#[test]
fn an_inlet_stops_at_its_limit_at_the_end_and_at_a_fault(rt: HostRuntime) -> Result<(), Fail> {
    let more = |count| Ok(Filled::More { count });
    let (end, over) = (Ok(Filled::End), Ok(Filled::OverLimit));
    let failed = Err(Failed);
    // The octets, the cut and the calls that fail of the source, the limit, the answers, and what is then held.
    // Where the end or the limit has shown, the next call of the source would fail, if it were made.
    let rows: [(
        &[u8],
        usize,
        &[u64],
        u64,
        [Result<Filled, Failed>; 4],
        &[u8],
    ); 8] = [
        (
            b"abcdef",
            3,
            &[3],
            4,
            [more(3), more(1), over, over],
            b"abcd",
        ),
        (b"abcde", 9, &[2], 4, [more(4), over, over, over], b"abcd"),
        (b"abcd", 2, &[3], 4, [more(2), more(2), end, end], b"abcd"),
        (b"abc", 9, &[2], 9, [more(3), end, end, end], b"abc"),
        (b"", 1, &[1], 1, [end, end, end, end], b""),
        (b"abcd", 1, &[1], 9, [more(1), failed, failed, failed], b"a"),
        (b"abc", 9, &[1], 2, [more(2), failed, failed, failed], b"ab"),
        (
            b"abcdefghij",
            5,
            &[],
            99,
            [more(5), more(3), failed, failed],
            b"abcdefgh",
        ),
    ];
    for (octets, cut, failing, limit, wanted, held) in rows {
        let mut source = MemorySource::create(rt.alloc(), octets, cut.max(1), failing)?;
        let mut inlet = Inlet::create(rt.alloc(), 8, limit.max(1))?;
        assert_eq!(rt;
            four_fills(&mut source, &mut inlet),
            wanted,
            "at limit {limit}"
        );
        assert_eq!(rt; inlet.held(), held, "at limit {limit}");
        assert_eq!(rt; inlet.taken(), held.len() as u64, "at limit {limit}");
    }
    Ok(())
}

#[test]
fn an_inlet_drops_what_was_used_and_fills_again(rt: HostRuntime) -> Result<(), Fail> {
    let mut source = FaultlessSource::over(b"abcdefg");
    let mut inlet = Inlet::create(rt.alloc(), 4, 9)?;
    assert_eq!(rt; inlet.fill(&mut source), Ok(Filled::More { count: 4 }));
    assert!(rt; inlet.held().len() == 4);
    inlet.take(3);
    assert_eq!(rt; inlet.held(), b"d".as_slice());
    assert_eq!(rt; inlet.taken(), 4);
    assert_eq!(rt; inlet.fill(&mut source), Ok(Filled::More { count: 3 }));
    assert_eq!(rt; inlet.held(), b"defg".as_slice());
    assert_eq!(rt; inlet.taken(), 7);
    Ok(())
}

#[test]
fn readers_and_writers_of_std_are_sources_and_sinks(rt: HostRuntime) -> Result<(), Fail> {
    let mut source = ReadSource::new(b"abcdef".as_slice());
    let mut buf = [0u8; 4];
    assert_eq!(rt; read_some(&mut source, &mut buf), Ok(4));
    assert_eq!(rt; buf, *b"abcd");
    assert_eq!(rt; read_some(&mut source, &mut buf), Ok(2));
    assert_eq!(rt; buf, *b"efcd");
    assert_eq!(rt; read_some(&mut source, &mut buf), Ok(0));
    let mut written = Vec::new(rt.alloc());
    let mut sink = WriteSink::new(&mut written);
    assert_eq!(rt; write_whole(&mut sink, b"ab"), Ok(()));
    assert_eq!(rt; write_some(&mut sink), Ok(4));
    assert_eq!(rt; written.as_slice(), b"abwxyz".as_slice());
    // A slice takes none where it has no room left: that counts as a fault.
    let mut room = [0u8; 5];
    let mut small = WriteSink::new(&mut room[..]);
    assert_eq!(rt; write_some(&mut small), Ok(4));
    assert_eq!(rt; write_some(&mut small), Ok(1));
    assert_eq!(rt; write_some(&mut small), Err(Failed));
    assert_eq!(rt; room, *b"wxyzw");
    Ok(())
}

#[test]
fn an_interrupted_call_is_a_fault_and_is_not_made_again(rt: HostRuntime) {
    let mut buf = [0u8; 4];
    let mut source = ReadSource::new(Interrupted { calls: 0 });
    assert_eq!(rt; read_some(&mut source, &mut buf), Err(Failed));
    assert_eq!(rt; read_some(&mut source, &mut buf), Ok(0));
    let mut sink = WriteSink::new(Interrupted { calls: 0 });
    assert_eq!(rt; write_whole(&mut sink, b"ab"), Err(Failed));
    assert_eq!(rt; write_whole(&mut sink, b"ab"), Ok(()));
}
