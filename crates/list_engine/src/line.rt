// A line of text, gathered before it is written.
ghost use Rattle.std.specs.Prelude.{◌≡◌, ◌+◌, ◌<◌, ◌≤◌, ◌++◌, [], IfOk, decimal, length, take};
ghost use Rattle.run_report.specs.Written.{Writes};

use amr_io::{Failed, Sink, write_whole};
use itoa::write_digits;
use std::alloc::{AllocError, Global};
use std::marker::Model;

/// How many octets a line has at most: those of 384 frames, and of what stands before them.
const MOST: usize = 10_240;

/// The text of one line, in room that is taken when it is made.
#[derive(Drop)]
pub(crate) struct Line {
    room: Vec<u8>,
    used: usize,
}

impl Model for Line {
    ghost use Rattle.list_engine.specs.Lines.{IsLine, text_of};
    ghost use Rattle.std.specs.Prelude.{List, ℕ};

    ghost Value = { List ℕ };

    ghost view = { text_of };

    ghost invariant = { IsLine };
}

/// Puts octets at `at`, and leaves what stands before.
#[inline(always)]
fn put_at(room: &mut [u8], at: usize, octets: &[u8])
    requires { at + length octets.now ≤ length room.old }

    ensures size { length room.new ≡ length room.old }
    ensures put { take (at + length octets.now) room.new ≡ take at room.old ++ octets.now }
{
    room[at..at + octets.len()].copy_from_slice(octets);
}

/// Puts a text in the place of as many octets. Its length is known, so that it's a store or two.
#[inline(always)]
fn replace<const N: usize>(room: &mut [u8], text: &[u8; N])
    requires { length room.old ≡ N }
    ensures { room.new ≡ text.now }
{
    let Some(whole) = room.as_mut_array::<N>() else {
        unreachable!()
    };
    *whole = *text;
}

/// Puts a text at `at`, and leaves what stands before.
#[inline(always)]
fn put_text<const N: usize>(room: &mut [u8], at: usize, text: &[u8; N])
    requires { at + N ≤ length room.old }

    ensures size { length room.new ≡ length room.old }
    ensures put { take (at + N) room.new ≡ take at room.old ++ text.now }
{
    replace(&mut room[at..at + N], text);
}

/// How many digits a number below 10,000 has.
#[inline(always)]
fn count_few(n: u64) -> usize
    requires { n < 10000 }
    ensures { result ≡ length (decimal n) }
{
    if n < 10 {
        1
    } else if n < 100 {
        2
    } else if n < 1000 {
        3
    } else {
        4
    }
}

/// How many digits a number has.
#[inline(always)]
fn count_digits(n: u64) -> usize
    ensures { result ≡ length (decimal n) }
{
    let mut left = n;
    let mut behind = 0;
    while left >= 10_000 {
        left /= 10_000;
        behind += 4;
    }
    behind + count_few(left)
}

/// Puts a number at `at`, whose digits are counted, leaves what stands before, and tells where they
/// end.
#[inline(always)]
fn put_counted(room: &mut [u8], at: usize, n: u64, count: usize) -> usize
    requires count { count ≡ length (decimal n) }
    requires room { at + count ≤ length room.old }

    ensures size { length room.new ≡ length room.old }
    ensures end { result ≡ at + count }
    ensures put { take result room.new ≡ take at room.old ++ decimal n }
{
    let end = at + count;
    let _start = write_digits(n, room, end);
    end
}

/// Puts a number at `at`, leaves what stands before, and tells where its digits end. Most numbers are
/// short.
#[inline(always)]
fn put_number(room: &mut [u8], at: usize, n: u64) -> usize
    requires { at + 20 ≤ length room.old }

    ensures size { length room.new ≡ length room.old }
    ensures few { result ≤ at + 20 }
    ensures put { take result room.new ≡ take at room.old ++ decimal n }
{
    if n < 10 {
        return put_counted(room, at, n, 1);
    }
    if n < 100 {
        return put_counted(room, at, n, 2);
    }
    put_counted(room, at, n, count_digits(n))
}

/// Puts a number at `at` behind what names it, leaves what stands before, and tells where they end.
#[inline(always)]
fn put_named<const N: usize>(room: &mut [u8], at: usize, name: &[u8; N], n: u64) -> usize
    requires { at + N + 20 ≤ length room.old }

    ensures size { length room.new ≡ length room.old }
    ensures few { result ≤ at + N + 20 }
    ensures put { take result room.new ≡ take at room.old ++ (name.now ++ decimal n) }
{
    put_text(room, at, name);
    put_number(room, at + N, n)
}

impl Line {
    /// An empty line.
    ///
    /// Want of memory is the only error.
    pub fn create(alloc: Global) -> Result<Line, AllocError>
        ensures empty { IfOk result (λ line. line ≡ []) }
    {
        let room = vec![in alloc; 0u8; MOST]?;
        Ok(Line { room, used: 0 })
    }

    /// Begins anew.
    pub fn clear(&mut self)
        ensures { self.new ≡ [] }
    {
        self.used = 0;
    }

    /// Adds octets.
    #[inline(always)]
    pub fn push(&mut self, octets: &[u8])
        requires { length self.old + length octets.now ≤ 10240 }
        ensures { self.new ≡ self.old ++ octets.now }
    {
        put_at(&mut self.room, self.used, octets);
        self.used += octets.len();
    }

    /// Adds a number, in at most 20 digits.
    #[inline(always)]
    pub fn number(&mut self, n: u64)
        requires room { length self.old + 20 ≤ 10240 }

        ensures text { self.new ≡ self.old ++ decimal n }
        ensures most { length self.new ≤ length self.old + 20 }
    {
        self.used = put_number(&mut self.room, self.used, n);
    }

    /// Adds a number behind what names it.
    #[inline(always)]
    pub fn named<const N: usize>(&mut self, name: &[u8; N], n: u64)
        requires room { length self.old + N + 20 ≤ 10240 }

        ensures text { self.new ≡ self.old ++ (name.now ++ decimal n) }
        ensures most { length self.new ≤ length self.old + N + 20 }
    {
        self.used = put_named(&mut self.room, self.used, name, n);
    }

    /// Writes the line.
    ///
    /// `Failed` comes only where the output's faults rose. A front of it was then written.
    pub fn write<O: Sink>(&self, output: &mut O) -> Result<(), Failed>
        ensures { Writes O.Sink self.now output.old output.new result }
    {
        write_whole(output, &self.room[..self.used])
    }
}
