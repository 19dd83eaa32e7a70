//! Where an octet-aligned payload first differs from the canonical one of its value (RFC 4867, 4.4), as its octets go by.
ghost use Rattle.std.specs.Prelude.{◌≡◌, ◌+◌, ◌<◌, ◌≤◌, ◌∷◌, [], length, nat_lt, slice_index};
ghost use Rattle.amr_bits.specs.Bits.{bits_at, filled, octets_for};
ghost use Rattle.amr_oa.specs.Written.{body_part, check_part, frame_part, longest_of, octet_part};
ghost use Rattle.amr_oa.specs.Written.{sorted_part};
ghost use Rattle.amr_payload.specs.Comparing.{Compares, IsAligned, part_of, piece_of};
ghost use Rattle.amr_payload.specs.Octets.{entry_octet, header_part, interleaving_part, written_as};
ghost use Rattle.amr_toc.specs.Viewed.{frame_in, octets_of, said, viewed};
ghost use Rattle.spec_payload.specs.Grammar.{text};
ghost use Rattle.spec_payload.specs.Strict.{first_difference};

use amr_bits::BitSlice;
use amr_frame::{Profile, bits_of, octets_of};
use amr_toc::{PayloadView, are_octets, check_over};

/// What each frame has a piece of: the table of contents (RFC 4867, 4.4.2), the CRCs (4.4.2.1), the frames one behind
/// the other (4.4.3), and a row of the robust order, which is one octet of each frame that has it (4.4.4).
#[derive(Clone, Copy)]
pub enum Part {
    Table,
    Checks,
    Frames,
    Row(usize),
}

/// The first octet in which a payload isn't the canonical one of its value.
pub(crate) fn aligned_difference(profile: &Profile, view: &PayloadView<'_>) -> Option<usize>
    requires { IsAligned profile.now view.now }
    ensures { result ≡ first_difference (octets_of view.now) (text profile.now (said view.now)) }
{
    are_octets(view.octets());
    match compare_aligned(profile, view) {
        Ok(_) => None,
        Err(place) => Some(place),
    }
}

/// Compares a payload with the canonical one of its value.
fn compare_aligned(profile: &Profile, view: &PayloadView<'_>) -> Result<usize, usize>
    requires { IsAligned profile.now view.now }
    ensures { Compares (octets_of view.now) 0 (written_as profile.now (said view.now)) result }
{
    let table = match compare_header(profile, view) {
        Ok(end) => end,
        Err(place) => return Err(place),
    };
    let checks = match compare_part(profile, view, Part::Table, table) {
        Ok(end) => end,
        Err(place) => return Err(place),
    };
    let body = match compare_part(profile, view, Part::Checks, checks) {
        Ok(end) => end,
        Err(place) => return Err(place),
    };
    compare_body(profile, view, body)
}

/// Compares the frames from an octet on, in the order of the format.
fn compare_body(profile: &Profile, view: &PayloadView<'_>, start: usize) -> Result<usize, usize>
    requires { IsAligned profile.now view.now }
    ensures { Compares (octets_of view.now) start
        (body_part profile.now.sorting (said view.now).frames) result }
{
    if profile.sorting {
        compare_sorted(profile, view, start)
    } else {
        compare_part(profile, view, Part::Frames, start)
    }
}

/// Compares an octet of a payload.
fn compare_at(view: &PayloadView<'_>, at: usize, octet: u8) -> Result<usize, usize>
    ensures { Compares (octets_of view.now) at (octet ∷ []) result }
{
    compare_octet(view.octets(), at, octet)
}

/// Compares an octet.
fn compare_octet(octets: &[u8], at: usize, octet: u8) -> Result<usize, usize>
    ensures { Compares octets.now at (octet ∷ []) result }
{
    if at < octets.len() && octets[at] == octet {
        Ok(at + 1)
    } else {
        Err(at)
    }
}

/// Compares what stands before the table (RFC 4867, 4.4.1).
fn compare_header(profile: &Profile, view: &PayloadView<'_>) -> Result<usize, usize>
    requires { IsAligned profile.now view.now }
    ensures { Compares (octets_of view.now) 0 (header_part profile.now (said view.now)) result }
{
    match compare_at(view, 0, 16 * view.cmr()) {
        Ok(end) => compare_interleaving(profile, view, end),
        Err(place) => Err(place),
    }
}

/// Compares ILL and ILP, where the format interleaves.
fn compare_interleaving(
    profile: &Profile,
    view: &PayloadView<'_>,
    place: usize,
) -> Result<usize, usize>
    requires { IsAligned profile.now view.now }
    ensures { Compares (octets_of view.now) place
        (interleaving_part profile.now.interleaving (said view.now)) result }
{
    if profile.interleaving.is_none() {
        return Ok(place);
    }
    compare_at(view, place, 16 * (view.stride() - 1) + view.index())
}

/// Compares from an octet on what each frame has of a part, frame by frame.
fn compare_part(
    profile: &Profile,
    view: &PayloadView<'_>,
    part: Part,
    start: usize,
) -> Result<usize, usize>
    requires { IsAligned profile.now view.now }
    ensures { Compares (octets_of view.now) start
        (part_of profile.now part (said view.now).frames) result }
{
    let mut place = start;
    for at in 0..view.frames() {
        place = match compare_piece(profile, view, part, at, place) {
            Ok(end) => end,
            Err(place) => return Err(place),
        };
    }
    Ok(place)
}

/// Compares what frame `at` has of a part.
fn compare_piece(
    profile: &Profile,
    view: &PayloadView<'_>,
    part: Part,
    at: usize,
    place: usize,
) -> Result<usize, usize>
    requires payload { IsAligned profile.now view.now }
    requires frame { at < length (viewed view.now).frames }
    ensures { Compares (octets_of view.now) place
        (piece_of profile.now part (said view.now).frames at) result }
{
    match part {
        Part::Table => compare_entry(view, at, place),
        Part::Checks => compare_check(profile, view, at, place),
        Part::Frames => compare_frame(profile, view, at, place),
        Part::Row(octet) => compare_one(profile, view, at, octet, place),
    }
}

/// Compares entry `at` of the table.
fn compare_entry(view: &PayloadView<'_>, at: usize, place: usize) -> Result<usize, usize>
    requires { at < length (viewed view.now).frames }
    ensures { Compares (octets_of view.now) place
        (entry_octet (nat_lt (at + 1) (length (said view.now).frames))
        (frame_in (said view.now) at) ∷ []) result }
{
    let entries = view.frames();
    let more = at + 1 < entries;
    compare_at(view, place, entry_of(view, at, more))
}

/// Entry `at` of the table, its free bits being 0, with F = 1 where more entries follow.
fn entry_of(view: &PayloadView<'_>, at: usize, more: bool) -> u8
    requires { at < length (viewed view.now).frames }
    ensures { result ≡ entry_octet more (frame_in (said view.now) at) }
{
    let entry = view.entry(at);
    128 * more as u8 + 8 * entry.ft + 4 * entry.q as u8
}

/// Compares the CRC of frame `at`, where it has one.
fn compare_check(
    profile: &Profile,
    view: &PayloadView<'_>,
    at: usize,
    place: usize,
) -> Result<usize, usize>
    requires payload { IsAligned profile.now view.now }
    requires frame { at < length (viewed view.now).frames }
    ensures { Compares (octets_of view.now) place
        (check_part profile.now (frame_in (said view.now) at)) result }
{
    if !profile.crc {
        return Ok(place);
    }
    let cell = view.frame(at);
    if cell.bits.len() == 0 {
        return Ok(place);
    }
    let check = check_over(profile.codec, cell.ft, cell.bits.as_bits());
    compare_at(view, place, check)
}

/// Compares the octets of frame `at` from an octet on.
fn compare_frame(
    profile: &Profile,
    view: &PayloadView<'_>,
    at: usize,
    start: usize,
) -> Result<usize, usize>
    requires payload { IsAligned profile.now view.now }
    requires frame { at < length (viewed view.now).frames }
    ensures { Compares (octets_of view.now) start
        (frame_part (frame_in (said view.now) at)) result }
{
    let mut place = start;
    for octet in 0..octets_in(profile, view, at) {
        place = match compare_clear(profile, view, at, octet, place) {
            Ok(end) => end,
            Err(place) => return Err(place),
        };
    }
    Ok(place)
}

/// Compares the frames in the robust order from an octet on (RFC 4867, 4.4.4).
fn compare_sorted(profile: &Profile, view: &PayloadView<'_>, start: usize) -> Result<usize, usize>
    requires { IsAligned profile.now view.now }
    ensures { Compares (octets_of view.now) start (sorted_part (said view.now).frames) result }
{
    let mut place = start;
    for octet in 0..longest(profile, view) {
        place = match compare_part(profile, view, Part::Row(octet), place) {
            Ok(end) => end,
            Err(place) => return Err(place),
        };
    }
    Ok(place)
}

/// Compares octet `octet` of frame `at`, where it has one.
fn compare_one(
    profile: &Profile,
    view: &PayloadView<'_>,
    at: usize,
    octet: usize,
    place: usize,
) -> Result<usize, usize>
    requires payload { IsAligned profile.now view.now }
    requires frame { at < length (viewed view.now).frames }
    ensures { Compares (octets_of view.now) place
        (octet_part octet (frame_in (said view.now) at)) result }
{
    if octets_in(profile, view, at) <= octet {
        return Ok(place);
    }
    compare_clear(profile, view, at, octet, place)
}

/// Compares octet `octet` of frame `at`, which has it.
fn compare_clear(
    profile: &Profile,
    view: &PayloadView<'_>,
    at: usize,
    octet: usize,
    place: usize,
) -> Result<usize, usize>
    requires payload { IsAligned profile.now view.now }
    requires frame { at < length (viewed view.now).frames }
    requires octet { octet < octets_for (length (frame_in (said view.now) at).bits) }
    ensures { Compares (octets_of view.now) place
        (slice_index (filled (frame_in (said view.now) at).bits) octet ∷ []) result }
{
    compare_at(view, place, clear_octet(profile, view, at, octet))
}

/// The most octets that a frame has.
fn longest(profile: &Profile, view: &PayloadView<'_>) -> usize
    requires { IsAligned profile.now view.now }
    ensures { result ≡ longest_of (said view.now).frames }
{
    let mut most = 0;
    for at in 0..view.frames() {
        most = most.max(octets_in(profile, view, at));
    }
    most
}

/// How many octets frame `at` has.
fn octets_in(profile: &Profile, view: &PayloadView<'_>, at: usize) -> usize
    requires payload { IsAligned profile.now view.now }
    requires frame { at < length (viewed view.now).frames }
    ensures { result ≡ octets_for (length (frame_in (said view.now) at).bits) }
{
    octets_of(profile.codec, view.entry(at).ft)
}

/// Octet `octet` of frame `at`, its fill bits being 0.
fn clear_octet(profile: &Profile, view: &PayloadView<'_>, at: usize, octet: usize) -> u8
    requires payload { IsAligned profile.now view.now }
    requires frame { at < length (viewed view.now).frames }
    requires octet { octet < octets_for (length (frame_in (said view.now) at).bits) }
    ensures { result ≡ slice_index (filled (frame_in (said view.now) at).bits) octet }
{
    let bits = bits_of(profile.codec, view.entry(at).ft);
    first_bits(view.octet(at, octet), (bits - 8 * octet).min(8))
}

/// The first bits of an octet, so many, and zeros behind them.
fn first_bits(octet: u8, count: usize) -> u8
    requires some { 1 ≤ count }
    requires most { count ≤ 8 }
    ensures { result ≡ slice_index (filled (bits_at (octet ∷ []) 0 count)) 0 }
{
    let octets = [octet];
    let lent = BitSlice {
        octets: &octets,
        start: 0,
        len: count,
    };
    let mut out = [0; 1];
    lent.copy_to(&mut out);
    out[0]
}
