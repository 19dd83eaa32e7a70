// Readers and writers of the host that fail once, for each kind of error: the call isn't made again.
use crate::run::run_gateway;
use crate::status::Status;
use crate::test_logs::{HEAD, RECORD, SEVEN, at, join, log_of, words_of};
use amr_io::{MemorySink, ReadSource, WriteSink};
use std::io;
use std::io::{ErrorKind, Read, Write};
use std::test::Fail;

// A reader that gives its octets one by one. Its call of the number `failing` fails, and the next one would be served.
#[derive(Drop)]
struct Reader<'a> {
    rest: &'a [u8],
    failing: usize,
    kind: ErrorKind,
    calls: usize,
}

impl<'a> Read for Reader<'a> {
    fn read(&mut self, buf: &mut [u8]) -> io::Result<usize> {
        let call = self.calls;
        self.calls = call.saturating_add(1);
        if call == self.failing {
            return Err(self.kind.into());
        }
        let [octet, rest @ ..] = self.rest else {
            return Ok(0);
        };
        let [first, ..] = buf else {
            return Ok(0);
        };
        *first = *octet;
        self.rest = rest;
        Ok(1)
    }
}

// A writer that takes one octet a call. Its call of the number `failing` fails, and the next one would be served.
#[derive(Drop)]
struct Writer {
    failing: usize,
    kind: ErrorKind,
    calls: usize,
}

impl Write for Writer {
    fn write(&mut self, buf: &[u8]) -> io::Result<usize> {
        let call = self.calls;
        self.calls = call.saturating_add(1);
        if call == self.failing {
            return Err(self.kind.into());
        }
        Ok(buf.len().min(1))
    }

    fn flush(&mut self) -> io::Result<()> {
        Ok(())
    }
}

const KINDS: [ErrorKind; 9] = [
    ErrorKind::Interrupted,
    ErrorKind::WouldBlock,
    ErrorKind::UnexpectedEof,
    ErrorKind::BrokenPipe,
    ErrorKind::TimedOut,
    ErrorKind::WriteZero,
    ErrorKind::StorageFull,
    ErrorKind::OutOfMemory,
    ErrorKind::Other,
];

#[test]
fn a_read_that_fails_is_not_made_again(rt: HostRuntime) -> Result<(), Fail> {
    let words = words_of(rt.alloc(), RECORD)?;
    let log = log_of(rt.alloc(), &[at(0, 0, SEVEN)])?;
    for kind in KINDS {
        // A log of 46 octets, and the read that would find its end.
        for failing in 0..47usize {
            let mut reader = Reader {
                rest: &log,
                failing,
                kind,
                calls: 0,
            };
            let mut input = ReadSource::new(&mut reader);
            let mut output = MemorySink::create(rt.alloc(), 99, 99, &[])?;
            let mut told = MemorySink::create(rt.alloc(), 99, 99, &[])?;
            let ended = run_gateway(rt.alloc(), &words, &mut input, &mut output, &mut told);
            assert_eq!(rt; ended, Status::ReadFault, "read {failing}");
            assert_eq!(rt; reader.calls, failing + 1, "read {failing}");
            assert_eq!(rt; output.octets(), HEAD, "read {failing}");
            assert_eq!(rt; told.octets(), b"read fault\n".as_slice(), "read {failing}");
        }
    }
    Ok(())
}

#[test]
fn a_write_that_fails_is_not_made_again(rt: HostRuntime) -> Result<(), Fail> {
    let words = words_of(rt.alloc(), RECORD)?;
    let log = log_of(rt.alloc(), &[at(0, 0, SEVEN)])?;
    for kind in KINDS {
        // A file of 38 octets.
        for failing in 0..38usize {
            let mut writer = Writer {
                failing,
                kind,
                calls: 0,
            };
            let mut input = ReadSource::new(log.as_slice());
            let mut output = WriteSink::new(&mut writer);
            let mut told = MemorySink::create(rt.alloc(), 99, 99, &[])?;
            let ended = run_gateway(rt.alloc(), &words, &mut input, &mut output, &mut told);
            assert_eq!(rt; ended, Status::WriteFault, "write {failing}");
            assert_eq!(rt; writer.calls, failing + 1, "write {failing}");
            assert_eq!(rt;
                told.octets(),
                b"write fault\n".as_slice(),
                "write {failing}"
            );
        }
    }
    Ok(())
}

#[test]
fn a_note_that_fails_is_not_made_again(rt: HostRuntime) -> Result<(), Fail> {
    let words = words_of(rt.alloc(), RECORD)?;
    let log = log_of(rt.alloc(), &[at(0, 0, SEVEN)])?;
    let file = join(rt.alloc(), &[(HEAD, 0), (&[0x3C], 31)])?;
    for kind in KINDS {
        // A line of 73 octets.
        for failing in 0..73usize {
            let mut writer = Writer {
                failing,
                kind,
                calls: 0,
            };
            let mut input = ReadSource::new(log.as_slice());
            let mut output = MemorySink::create(rt.alloc(), 99, 99, &[])?;
            let mut told = WriteSink::new(&mut writer);
            let ended = run_gateway(rt.alloc(), &words, &mut input, &mut output, &mut told);
            assert_eq!(rt; ended, Status::WriteFault, "note {failing}");
            assert_eq!(rt; writer.calls, failing + 1, "note {failing}");
            assert_eq!(rt; output.octets(), file.as_slice(), "note {failing}");
        }
    }
    Ok(())
}
