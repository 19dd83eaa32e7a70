// A source and a sink that never fail.
ghost use Rattle.std.specs.Prelude.{◌≡◌, ◌<◌, ℕ, List, [], length, min, None, Some, Ok};
ghost use Rattle.amr_io.specs.Fault.{HasCause};
ghost use Rattle.amr_io.specs.Told.{Reads, Writes};

use crate::sink::Sink;
use crate::source::{Failed, Source};
use std::marker::Model;

/// A source over a slice. It tells its octets and never fails.
#[derive(Drop)]
pub struct FaultlessSource<'a> {
    rest: &'a [u8],
}

impl<'a> Model for FaultlessSource<'a> {
    ghost Value = { List ℕ };

    ghost view = { λ s. s.rest.now };
}

impl<'a> FaultlessSource<'a> {
    /// A source of these octets, with no fault.
    pub fn over(octets: &'a [u8]) -> FaultlessSource<'a>
        ensures left { result ≡ octets.now }
        ensures faults { ⟦<FaultlessSource<'a> as Source>⟧.faults result ≡ 0 }
    {
        FaultlessSource { rest: octets }
    }
}

impl<'a> Source for FaultlessSource<'a> {
    ghost left = { λ s. Some s };

    ghost faults = { λ _. 0 };

    /// Gives as many octets as are left, at most the length of `buf`.
    fn read(&mut self, buf: &mut [u8]) -> Result<usize, Failed>
        requires room { 0 < length buf.old }

        ensures octets { Reads (Some self.old) (Some self.new) result buf.new }
        ensures count { result ≡ Ok (min (length self.old) (length buf.old)) }
        ensures cause { HasCause 0 0 result }
    {
        let count = self.rest.len().min(buf.len());
        let (given, rest) = self.rest.split_at(count);
        buf[..count].copy_from_slice(given);
        self.rest = rest;
        Ok(count)
    }
}

/// A sink that takes everything, tells nothing and never fails.
#[derive(Drop)]
pub struct DropSink;

impl DropSink {
    /// A sink with no fault.
    pub fn new() -> DropSink
        ensures untold { ⟦<DropSink as Sink>⟧.got result ≡ None }
        ensures faults { ⟦<DropSink as Sink>⟧.faults result ≡ 0 }
    {
        DropSink
    }
}

impl Sink for DropSink {
    ghost got = { λ _. None };

    ghost beside = { λ _. Some [] };

    ghost faults = { λ _. 0 };

    ghost same = { λ _ _. Unit {0} };

    /// Takes all of `bytes`.
    fn write(&mut self, bytes: &[u8]) -> Result<usize, Failed>
        requires some { 0 < length bytes.now }

        ensures octets { Writes None None result bytes.now }
        ensures count { result ≡ Ok (length bytes.now) }
        ensures cause { HasCause 0 0 result }
    {
        Ok(bytes.len())
    }

    ghost reflexive = { λ _. tt };

    ghost transitive = { λ _ _ _ _ _. tt };
}
