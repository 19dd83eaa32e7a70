//! Octets of frames between plain and robust order, in time linear in them. The readers and writers of this
//! repository look octets up in place (`sorted_place`) and don't need these; they are for other users.
ghost use Rattle.std.specs.Prelude.{◌≡◌, ℕ, List, ◌+◌, ◌<◌, length, sum};
ghost use Rattle.amr_guard.specs.Sorting.{Agree, AreLengths, HoldFrames, plain_place, sorted_of};
ghost use Rattle.amr_guard.specs.Walking.{GoesTo, StandsAt};

use crate::places::row_starts;

/// A walk over the octets in plain order, which has passed the first `octet` octets of frame `frame`.
#[derive(Drop)]
struct Walk {
    frame: usize,
    octet: usize,
}

/// Brings the octets `plain` of frames with these lengths, which stand frame by frame, into the
/// robust order (RFC 4867, 4.4.4), in time linear in the octets.
pub fn sort_octets(lengths: &[u8], plain: &[u8], out: &mut [u8])
    requires octets { HoldFrames lengths.now plain.now out.old }
    ensures sorted { out.new ≡ sorted_of lengths.now plain.now }
    ensures octets { Agree lengths.now plain.now out.new }
{
    let mut places = row_starts(lengths);
    let mut walk = Walk { frame: 0, octet: 0 };
    for at in 0..plain.len() {
        let place = next_place(lengths, &mut walk, &mut places);
        out[place] = plain[at];
    }
}

/// Brings the octets `sorted` of frames with these lengths, which stand in the robust order, back
/// frame by frame, in time linear in the octets.
pub fn unsort_octets(lengths: &[u8], sorted: &[u8], out: &mut [u8])
    requires octets { HoldFrames lengths.now out.old sorted.now }
    ensures octets { Agree lengths.now out.new sorted.now }
    ensures sorts_back { sorted_of lengths.now out.new ≡ sorted.now }
    ensures undoes_sorting { (plain : List ℕ) → length plain ≡ sum lengths.now
        → sorted.now ≡ sorted_of lengths.now plain → out.new ≡ plain }
{
    let mut places = row_starts(lengths);
    let mut walk = Walk { frame: 0, octet: 0 };
    for at in 0..sorted.len() {
        let place = next_place(lengths, &mut walk, &mut places);
        out[at] = sorted[place];
    }
}

/// The place in the robust order of the octet behind those that are passed, which is passed then.
/// `places` has, for each octet number, the place of the next octet with that number.
fn next_place(lengths: &[u8], walk: &mut Walk, places: &mut [usize; 60]) -> usize
    requires lengths { AreLengths lengths.now }
    requires stands { StandsAt lengths.now walk.old.frame walk.old.octet places.old }
    requires more { plain_place lengths.now walk.old.frame walk.old.octet < sum lengths.now }
    ensures place { GoesTo lengths.now (plain_place lengths.now walk.old.frame walk.old.octet)
        result }
    ensures stands { StandsAt lengths.now walk.new.frame walk.new.octet places.new }
    ensures passed { plain_place lengths.now walk.new.frame walk.new.octet
        ≡ plain_place lengths.now walk.old.frame walk.old.octet + 1 }
{
    while walk.octet == lengths[walk.frame] as usize {
        walk.frame += 1;
        walk.octet = 0;
    }
    let place = places[walk.octet];
    places[walk.octet] = place + 1;
    walk.octet += 1;
    place
}
