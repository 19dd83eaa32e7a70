ghost use Rattle.std.specs.List.{range_with_len};
ghost use Rattle.std.specs.Prelude.{◌≡◌, ◌≤◌, ◌<◌, ◌*◌, length, map, slice_index_or};
ghost use Rattle.amr_bits.specs.Runs.{run};
ghost use Rattle.amr_toc.specs.Table.{entry_of};
ghost use Rattle.amr_toc.specs.Widths.{HoldEntry, HoldTable};

use amr_bits::BitSlice;

/// An entry of a table of contents: a frame type and the quality bit Q (RFC 4867, 4.3.2).
#[derive(Clone, Copy, Debug, Default, PartialEq, Eq)]
pub struct Entry {
    pub ft: u8,
    pub q: bool,
}

/// A table of contents at the front of borrowed bits: from 1 to 384 entries, of 6 bits each (RFC 4867, 4.3.2) or of 8
/// bits (4.4.2). Entries are looked up in the bits, and nothing is copied.
#[derive(Clone, Copy, Debug)]
pub struct Toc<'a> {
    bits: BitSlice<'a>,
    width: usize,
    entries: usize,
    ghost some: { 1 ≤ entries },
    ghost most: { entries ≤ 384 },
    ghost low: { 6 ≤ width },
    ghost high: { width ≤ 8 },
    ghost whole: { entries * width ≤ bits.len },
}

impl<'a> Toc<'a> {
    ghost use Rattle.amr_toc.specs.Lists.{listed};

    /// The table of so many entries at the front of bits.
    pub(crate) fn over(bits: BitSlice<'a>, width: usize, entries: usize) -> Toc<'a>
        requires table { HoldTable bits.len width entries }
        ensures { listed result ≡ map (entry_of width (run bits.entry)) (range_with_len 0 entries) }
    {
        Toc {
            bits,
            width,
            entries,
        }
    }

    /// How many entries the table has.
    pub fn len(&self) -> usize
        ensures entries { result ≡ length (listed self.now) }
        ensures few { (1 ≤ result) × (result ≤ 384) }
    {
        self.entries
    }

    /// Entry `at`, counted from 0.
    pub fn entry(&self, at: usize) -> Entry
        requires { at < length (listed self.now) }
        ensures ft { result.ft ≤ 15 }
        ensures entry { result ≡ slice_index_or (listed self.now) at result }
    {
        entry_at(self.bits, self.width, at)
    }
}

/// Entry `at` of a table at the front of bits, which is whole.
pub(crate) fn entry_at(bits: BitSlice<'_>, width: usize, at: usize) -> Entry
    requires { HoldEntry bits.len width at }
    ensures { result ≡ entry_of width (run bits.entry) at }
{
    Entry {
        ft: bits.number(at * width + 1, 4) as u8,
        q: bits.bit(at * width + 5),
    }
}
