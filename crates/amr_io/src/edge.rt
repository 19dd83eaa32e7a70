// The trusted edge: std's readers and writers as a source and a sink.
ghost use Rattle.std.specs.Prelude.{◌≡◌, ◌+◌, ◌-◌, ◌^◌, ◌<◌, ℕ, List, [], length, min, Some, OnErr};
ghost use Rattle.amr_io.specs.Fault.{CountsFault};
ghost use Rattle.amr_io.specs.Told.{Reads, Writes};
ghost use Rattle.amr_io.specs.Edge.{Counted};

use crate::sink::Sink;
use crate::source::{Failed, Source};
use std::io::{Read, Write};
use std::marker::Model;

/// A source over a reader of std. It tells what the reader tells.
///
/// Each `Err` of the reader, of any kind, counts as one fault and is not tried again.
#[derive(Drop)]
pub struct ReadSource<R> {
    inner: R,
    faults: u64,
}

impl<R> Model for ReadSource<R> {
    ghost Value = { Counted R };

    ghost view = { λ s. record { inner = s.inner; faults = s.faults } };
}

impl<R> ReadSource<R> {
    /// A source over `inner`, with no fault.
    pub fn new(inner: R) -> ReadSource<R>
        ensures fresh { result ≡ record { inner = inner; faults = 0 } }
    {
        ReadSource { inner, faults: 0 }
    }
}

impl<R: Read> Source for ReadSource<R> {
    ghost left = { λ s. R.remaining s.inner };

    ghost faults = { λ s. s.faults };

    /// Makes one read. A read that fails raises the count by one, up to 2 ^ 64 - 1.
    fn read(&mut self, buf: &mut [u8]) -> Result<usize, Failed>
        requires room { 0 < length buf.old }

        ensures octets { Reads (R.remaining self.old.inner) (R.remaining self.new.inner)
            result buf.new }
        ensures cause { CountsFault self.old.faults self.new.faults result }
    {
        match self.inner.read(buf) {
            Ok(count) => Ok(count),
            Err(_) => {
                self.faults = self.faults.saturating_add(1);
                Err(Failed)
            }
        }
    }
}

/// A sink over a writer of std. It tells what the writer tells.
///
/// Each `Err` of the writer, of any kind, and each write that takes none of a piece counts as one fault and is not tried
/// again. Nothing is flushed, so no buffering writer belongs under it.
#[derive(Drop)]
pub struct WriteSink<W> {
    inner: W,
    faults: u64,
}

impl<W> Model for WriteSink<W> {
    ghost Value = { Counted W };

    ghost view = { λ s. record { inner = s.inner; faults = s.faults } };
}

impl<W> WriteSink<W> {
    /// A sink over `inner`, with no fault.
    pub fn new(inner: W) -> WriteSink<W>
        ensures fresh { result ≡ record { inner = inner; faults = 0 } }
    {
        WriteSink { inner, faults: 0 }
    }
}

impl<W: Write> Sink for WriteSink<W> {
    ghost got = { λ s. W.contents s.inner };

    ghost beside = { λ _. Some [] };

    ghost faults = { λ s. s.faults };

    ghost same = { λ _ _. Unit {0} };

    /// Makes one write. A write that fails or takes none raises the count by one, up to 2 ^ 64 - 1.
    fn write(&mut self, bytes: &[u8]) -> Result<usize, Failed>
        requires some { 0 < length bytes.now }

        ensures octets { Writes (W.contents self.old.inner) (W.contents self.new.inner)
            result bytes.now }
        ensures cause { CountsFault self.old.faults self.new.faults result }
    {
        match self.inner.write(bytes) {
            Ok(count) if count > 0 => Ok(count),
            _ => {
                self.faults = self.faults.saturating_add(1);
                Err(Failed)
            }
        }
    }

    ghost reflexive = { λ _. tt };

    ghost transitive = { λ _ _ _ _ _. tt };
}
