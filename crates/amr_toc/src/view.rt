ghost use Rattle.std.specs.Prelude.{◌≡◌, ◌+◌, ◌-◌, ◌*◌, ◌/◌, ◌%◌, ◌^◌, ◌≤◌, ◌<◌, ◌↔◌, ℕ, IfSome, IsNone, None, Some, cond, false, length, nat_eq, slice_index, slice_index_or, true};
ghost use Rattle.amr_bits.specs.Bits.{bits_at, filled, octets_for};
ghost use Rattle.amr_bits.specs.Runs.{run};
ghost use Rattle.amr_frame.specs.Cells.{IsCell, held};
ghost use Rattle.amr_frame.specs.Profiles.{IsValid};
ghost use Rattle.amr_frame.specs.Tables.{bits_in, octets_in};
ghost use Rattle.amr_toc.specs.Lists.{listed, toc_at, types_of};
ghost use Rattle.amr_toc.specs.Places.{bits_to, body_bit};
ghost use Rattle.spec_payload.specs.Reading.{payload_refusal};
ghost use Rattle.spec_payload.specs.Values.{IsValue};

use crate::checks::check_over;
use crate::counts::{bits_before, checks_of, filled_before, octet_counts, octets_before};
use crate::entry::{Entry, Toc};
use crate::header::{header_octets, interleaving_number};
use crate::octets::{are_octets, octet_in};
use crate::walk::{Walk, begin_rows, gather};
use amr_bits::BitSlice;
use amr_frame::{Cell, Profile, bits_of, octets_of};
use amr_guard::sorted_place;
use spec_payload::PayloadRefusal;

/// A payload that was read, in place: its octets, its table of contents and where its body begins.
#[derive(Drop)]
pub struct PayloadView<'a> {
    profile: Profile,
    octets: &'a [u8],
    toc: Toc<'a>,
    /// The first bit behind the table and the CRCs.
    body: usize,
    ghost valid: { IsValid profile },
    ghost accepted: { payload_refusal profile octets.now ≡ None },
    ghost table: { listed toc ≡ toc_at profile octets.now },
    ghost behind: { body ≡ body_bit profile (types_of (listed toc)) },
    ghost short: { body ≤ 6160 },
}

impl<'a> PayloadView<'a> {
    ghost use Rattle.amr_toc.specs.Frames.{HasGathered, HasSorted, HasType, InPlain, InSorted, IsEntry, IsGathered, IsLent, IsRun, ShowsFrame};
    ghost use Rattle.amr_toc.specs.Told.{Accepts, IsTableOf, Reads};
    ghost use Rattle.amr_toc.specs.Viewed.{format_of, frame_in, is_damaged, octets_of, said, standing, viewed};
    ghost use Rattle.amr_toc.specs.Walks.{RowsAt, StandsAt, begins_at, check_octet, checks_in};

    /// What a reader tells of a payload's octets: their view, where it read their table and they aren't
    /// refused, or why they are.
    #[inline(always)]
    pub fn told(
        profile: &Profile,
        octets: &'a [u8],
        table: Result<Toc<'a>, PayloadRefusal>,
    ) -> Result<PayloadView<'a>, PayloadRefusal>
        requires valid { IsValid profile.now }
        requires accepts { Accepts profile.now octets.now table }
        ensures { Reads profile.now octets.now result }
    {
        are_octets(octets);
        match table {
            Ok(toc) => Ok(PayloadView::over(profile, octets, toc)),
            Err(why) => Err(why),
        }
    }

    /// The view of a payload's octets, of which `toc` is the table of contents.
    #[inline(always)]
    fn over(profile: &Profile, octets: &'a [u8], toc: Toc<'a>) -> PayloadView<'a>
        requires { IsTableOf profile.now octets.now toc }

        ensures format { format_of result ≡ profile.now }
        ensures octets { octets_of result ≡ octets.now }
    {
        let body = body_of(profile, &toc);
        PayloadView {
            profile: *profile,
            octets,
            toc,
            body,
        }
    }

    /// The octets of the payload, as they were read.
    pub fn octets(&self) -> &'a [u8]
        ensures { result.now ≡ octets_of self.now }
    {
        self.octets
    }

    /// The codec mode request, from 0 to 15.
    pub fn cmr(&self) -> u8
        ensures { result ≡ (viewed self.now).cmr }
    {
        let head = BitSlice {
            octets: self.octets,
            start: 0,
            len: 4,
        };
        head.number(0, 4) as u8
    }

    /// How many frames the payload has: those of all blocks.
    pub fn frames(&self) -> usize
        ensures frames { result ≡ length (viewed self.now).frames }
        ensures said { result ≡ length (said self.now).frames }
        ensures value { IsValue (format_of self.now) (viewed self.now) }
        ensures some { 1 ≤ result }
        ensures most { result ≤ 384 }
    {
        self.toc.len()
    }

    /// How many blocks the payload has, each of one frame for each channel.
    pub fn blocks(&self) -> usize
        ensures blocks { result * (format_of self.now).channels ≡ length (viewed self.now).frames }
        ensures some { 1 ≤ result }
        ensures most { result ≤ (format_of self.now).max_blocks }
    {
        self.toc.len() / self.profile.channels as usize
    }

    /// How many frame times apart the blocks stand: ILL and one more where the format interleaves
    /// (RFC 4867, 4.4.1), else 1.
    pub fn stride(&self) -> u8
        ensures { result ≡ (viewed self.now).stride }
    {
        if self.profile.interleaving.is_none() {
            return 1;
        }
        interleaving_number(self.octets, 0) + 1
    }

    /// The number of the payload in its interleaving group, from 0: ILP where the format interleaves
    /// (RFC 4867, 4.4.1), else 0.
    pub fn index(&self) -> u8
        ensures { result ≡ (viewed self.now).index }
    {
        if self.profile.interleaving.is_none() {
            return 0;
        }
        interleaving_number(self.octets, 4)
    }

    /// Entry `at` of the table of contents, as it stands there.
    pub fn entry(&self, at: usize) -> Entry
        requires { at < length (viewed self.now).frames }
        ensures entry { IsEntry self.now at result }
        ensures size { length (frame_in (said self.now) at).bits
            ≡ bits_in (format_of self.now).codec result.ft }
    {
        self.toc.entry(at)
    }

    /// Whether frame `at` has a CRC, and it isn't the frame's.
    pub fn damaged(&self, at: usize) -> bool
        requires { at < length (viewed self.now).frames }
        ensures { result ≡ is_damaged self.now at }
    {
        if !self.profile.crc {
            return false;
        }
        let ft = self.entry(at).ft;
        if !self.profile.sorting {
            let bits = self.run_from(at, ft, self.start_of(at));
            return self.check_differs(at, ft, bits, self.check_place(at));
        }
        let gathered = self.gathered(at);
        self.check_differs(at, ft, self.run_in(at, ft, &gathered), self.check_place(at))
    }

    /// Octet `octet` of frame `at`. In an octet-aligned payload its fill bits are as they stand, in
    /// another they are 0.
    pub fn octet(&self, at: usize, octet: usize) -> u8
        requires frame { at < length (viewed self.now).frames }
        requires octet { octet < octets_for (length (frame_in (said self.now) at).bits) }
        ensures filled { (format_of self.now).octet_aligned ≡ false
            → result ≡ slice_index (filled (frame_in (said self.now) at).bits) octet }
        ensures standing { (format_of self.now).octet_aligned ≡ true
            → result ≡ standing self.now at octet }
        ensures bits { (format_of self.now).octet_aligned ≡ true → (i : ℕ) → i < 8
            → 8 * octet + i < length (frame_in (said self.now) at).bits
            → nat_eq (result / 2 ^ (7 - i) % 2) 1
            ≡ slice_index_or (frame_in (said self.now) at).bits (8 * octet + i) false }
    {
        if !self.profile.octet_aligned {
            return octet_in(self.run_of(at), octet);
        }
        if !self.profile.sorting {
            return self.octets[self.start_of(at) / 8 + octet];
        }
        let counts = octet_counts(&self.profile, &self.toc);
        self.sorted_octet(&counts[..self.toc.len()], at, octet)
    }

    /// The bits of frame `at`, lent from the payload; `None` where the format sorts the octets.
    pub fn bits(&self, at: usize) -> Option<BitSlice<'a>>
        requires { at < length (viewed self.now).frames }
        ensures none { IsNone result ↔ ((format_of self.now).sorting ≡ true) }
        ensures bits { IfSome result (λ lent. run lent ≡ (frame_in (said self.now) at).bits) }
        ensures lent { IfSome result (λ lent. lent.octets.now ≡ octets_of self.now) }
    {
        if self.profile.sorting {
            return None;
        }
        Some(self.run_of(at))
    }

    /// Frame `at`, with Q = 0 where it is damaged.
    pub fn frame(&self, at: usize) -> Cell
        requires { at < length (viewed self.now).frames }
        ensures { ShowsFrame self.now at result }
    {
        self.frame_from(at, self.entry(at), self.start_of(at))
    }

    /// A walk that stands before the first frame, for `next_frame`.
    #[inline(always)]
    pub fn walk<const ROWS: usize>(&self) -> Walk<ROWS>
        requires rows { (format_of self.now).sorting ≡ true → ROWS ≡ 60 }
        ensures { StandsAt self.now result 0 }
    {
        let mut walk = Walk {
            place: self.body,
            check: header_octets(&self.profile) + self.toc.len(),
            rows: [0; ROWS],
        };
        if !self.profile.sorting {
            return walk;
        }
        begin_rows(&self.profile, &self.toc, self.body / 8, &mut walk.rows);
        walk
    }

    /// Frame `at`, as `frame` gives it, where the walk has passed the frames before, and then passes it too. It doesn't
    /// look at the frames before.
    pub fn next_frame<const ROWS: usize>(&self, at: usize, walk: &mut Walk<ROWS>) -> Cell
        requires frame { at < length (viewed self.now).frames }
        requires stands { StandsAt self.now walk.old at }
        ensures frame { held result ≡ Some (frame_in (viewed self.now) at) }
        ensures valid { IsCell (format_of self.now).codec result }
        ensures stands { StandsAt self.now walk.new (at + 1) }
    {
        let entry = self.entry(at);
        let start = walk.place;
        let check = walk.check;
        walk.place += self.room_of(entry.ft);
        walk.check += self.checks_of(entry.ft);
        if !self.profile.sorting {
            return self.seen_as(at, entry, self.run_from(at, entry.ft, start), check);
        }
        self.next_sorted(at, entry, check, &mut walk.rows)
    }

    /// Frame `at` of a payload whose octets are sorted, which has this entry, whose CRC stands at octet `check`, and
    /// before which the rows stand. Then they stand behind it.
    #[inline(never)]
    fn next_sorted(&self, at: usize, entry: Entry, check: usize, rows: &mut [u16]) -> Cell
        requires entry { IsEntry self.now at entry }
        requires check { check ≡ check_octet self.now at }
        requires sorted { self.now.profile.sorting ≡ true }
        requires rows { RowsAt self.now at rows.old }
        ensures frame { ShowsFrame self.now at result }
        ensures rows { RowsAt self.now (at + 1) rows.new }
    {
        let count = octets_of(self.profile.codec, entry.ft);
        let gathered = gather(self.octets, count, rows);
        self.seen_as(at, entry, self.run_in(at, entry.ft, &gathered), check)
    }

    /// How many CRCs a frame of this type has.
    fn checks_of(&self, ft: u8) -> usize
        requires { ft ≤ 15 }
        ensures checks { result ≡ checks_in self.now.profile ft }
        ensures most { result ≤ 1 }
    {
        if self.profile.crc && bits_of(self.profile.codec, ft) > 0 {
            1
        } else {
            0
        }
    }

    /// How many bits of the body a frame of this type takes up.
    fn room_of(&self, ft: u8) -> usize
        requires { ft ≤ 15 }
        ensures room { result
            ≡ cond self.now.profile.octet_aligned (8 * octets_in self.now.profile.codec ft)
            (bits_in self.now.profile.codec ft) }
        ensures most { result ≤ 480 }
    {
        if self.profile.octet_aligned {
            8 * octets_of(self.profile.codec, ft)
        } else {
            bits_of(self.profile.codec, ft)
        }
    }

    /// Frame `at`, which has this entry and begins at bit `start` where the octets aren't sorted.
    fn frame_from(&self, at: usize, entry: Entry, start: usize) -> Cell
        requires entry { IsEntry self.now at entry }
        requires start { start ≡ begins_at self.now at }
        ensures { ShowsFrame self.now at result }
    {
        if !self.profile.sorting {
            let bits = self.run_from(at, entry.ft, start);
            return self.seen_as(at, entry, bits, self.check_place(at));
        }
        let gathered = self.gathered(at);
        let bits = self.run_in(at, entry.ft, &gathered);
        self.seen_as(at, entry, bits, self.check_place(at))
    }

    /// Frame `at`, which has this entry and these bits, and whose CRC stands at octet `check`, with Q = 0 where it is
    /// damaged.
    fn seen_as(&self, at: usize, entry: Entry, bits: BitSlice<'_>, check: usize) -> Cell
        requires lent { IsLent self.now at entry bits }
        requires check { check ≡ check_octet self.now at }
        ensures { ShowsFrame self.now at result }
    {
        let damaged = self.check_differs(at, entry.ft, bits, check);
        let q = entry.q && !damaged;
        Cell::from_bits(self.profile.codec, entry.ft, q, bits)
    }

    /// Whether frame `at`, which has this type and these bits, has a CRC, which stands at octet `check`, and it isn't the
    /// frame's.
    fn check_differs(&self, at: usize, ft: u8, bits: BitSlice<'_>, check: usize) -> bool
        requires run { IsRun self.now at ft bits }
        requires check { check ≡ check_octet self.now at }
        ensures { result ≡ is_damaged self.now at }
    {
        if !self.profile.crc {
            return false;
        }
        if bits.len() == 0 {
            return false;
        }
        self.octets[check] != check_over(self.profile.codec, ft, bits)
    }

    /// The octet where the CRC of frame `at` stands, if it has one (RFC 4867, 4.4.2.1).
    fn check_place(&self, at: usize) -> usize
        requires { at < length (viewed self.now).frames }
        ensures { result ≡ check_octet self.now at }
    {
        let first = header_octets(&self.profile) + self.toc.len();
        if !self.profile.crc {
            return first;
        }
        first + filled_before(&self.profile, &self.toc, at)
    }

    /// The bits of frame `at` in a payload whose octets aren't sorted.
    fn run_of(&self, at: usize) -> BitSlice<'a>
        requires { InPlain self.now at }
        ensures bits { run result ≡ (frame_in (said self.now) at).bits }
        ensures lent { result.octets.now ≡ octets_of self.now }
    {
        self.run_from(at, self.entry(at).ft, self.start_of(at))
    }

    /// The bits of frame `at`, which has this type and begins at bit `start`, in a payload whose octets aren't sorted.
    fn run_from(&self, at: usize, ft: u8, start: usize) -> BitSlice<'a>
        requires kind { HasType self.now at ft }
        requires place { (self.now.profile.sorting ≡ false) × (start ≡ begins_at self.now at) }
        ensures run { IsRun self.now at ft result }
        ensures octets { result.octets.now ≡ octets_of self.now }
    {
        BitSlice {
            octets: self.octets,
            start,
            len: bits_of(self.profile.codec, ft),
        }
    }

    /// The bits of frame `at`, which has this type, in its octets, brought together.
    fn run_in<'b>(&self, at: usize, ft: u8, gathered: &'b [u8; 60]) -> BitSlice<'b>
        requires { IsGathered self.now at ft gathered.now }
        ensures { IsRun self.now at ft result }
    {
        BitSlice {
            octets: gathered,
            start: 0,
            len: bits_of(self.profile.codec, ft),
        }
    }

    /// The first bit of frame `at` in a payload whose octets aren't sorted.
    fn start_of(&self, at: usize) -> usize
        requires { at < length (listed self.now.toc) }
        ensures { result ≡ begins_at self.now at }
    {
        if self.profile.octet_aligned {
            self.body + 8 * octets_before(&self.profile, &self.toc, at)
        } else {
            self.body + bits_before(&self.profile, &self.toc, at)
        }
    }

    /// The octets of frame `at` of a payload whose octets are sorted, brought together; zeros behind them.
    fn gathered(&self, at: usize) -> [u8; 60]
        requires { InSorted self.now at }
        ensures { HasGathered self.now at result }
    {
        let counts = octet_counts(&self.profile, &self.toc);
        let counts = &counts[..self.toc.len()];
        let mut octets = [0; 60];
        for octet in 0..counts[at] as usize {
            octets[octet] = self.sorted_octet(counts, at, octet);
        }
        octets
    }

    /// Octet `octet` of frame `at` of a payload whose octets are sorted, where the frames have so many
    /// octets.
    fn sorted_octet(&self, counts: &[u8], at: usize, octet: usize) -> u8
        requires { HasSorted self.now counts.now at octet }
        ensures { result ≡ standing self.now at octet }
    {
        self.octets[self.body / 8 + sorted_place(counts, at, octet)]
    }
}

/// The first bit behind the table and the CRCs.
#[inline(always)]
fn body_of(profile: &Profile, toc: &Toc<'_>) -> usize
    ensures body { result ≡ body_bit profile.now (types_of (listed toc.now)) }
    ensures short { result ≤ 6160 }
{
    if profile.octet_aligned {
        8 * (header_octets(profile) + toc.len() + checks_of(profile, toc))
    } else {
        4 + 6 * toc.len()
    }
}
