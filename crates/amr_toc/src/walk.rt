// A walk over the frames of a payload: where the next one stands.
ghost use Rattle.std.specs.Prelude.{◌≡◌, ℕ, ◌≤◌, ◌<◌, length, nat_eq, slice_index};
ghost use Rattle.std.specs.List.{count_by};
ghost use Rattle.amr_toc.specs.Lists.{listed, types_of};
ghost use Rattle.amr_toc.specs.Places.{sizes_in};
ghost use Rattle.amr_toc.specs.Rows.{AreRows, CanGather, MovedOn};

use crate::entry::Toc;
use amr_frame::{Profile, octets_of};

/// A walk over the frames of a payload, in their order. A format that sorts the octets (RFC 4867, 4.4.4) has a row for
/// each octet number, 60 in all; another needs none.
#[derive(Drop)]
pub struct Walk<const ROWS: usize> {
    /// The first bit of the next frame, where the octets aren't sorted.
    pub(crate) place: usize,
    /// The octet where the next CRC stands, if the format has them.
    pub(crate) check: usize,
    /// The octet of the payload that has the next octet with each number.
    pub(crate) rows: [u16; ROWS],
}

/// Puts each row at the octet of the first frame that has it, where `front` octets stand before the frames.
pub(crate) fn begin_rows(profile: &Profile, toc: &Toc<'_>, front: usize, rows: &mut [u16])
    requires rows { length rows.old ≡ 60 }
    requires front { front ≤ 770 }
    ensures { AreRows front (sizes_in profile.now (types_of (listed toc.now))) 0 rows.new }
{
    let counts = size_counts(profile, toc);
    let mut frames = toc.len() - counts[0] as usize;
    let mut place = front;
    for octet in 0..60 {
        if frames == 0 {
            return;
        }
        rows[octet] = place as u16;
        place += frames;
        frames -= counts[octet + 1] as usize;
    }
}

/// How many frames have each number of octets.
fn size_counts(profile: &Profile, toc: &Toc<'_>) -> [u16; 61]
    ensures { (k : ℕ) → k ≤ 60 → slice_index result k
        ≡ count_by (λ l. nat_eq l k) (sizes_in profile.now (types_of (listed toc.now))) }
{
    let mut counts = [0; 61];
    for at in 0..toc.len() {
        counts[octets_of(profile.codec, toc.entry(at).ft)] += 1;
    }
    counts
}

/// The octets at the first `count` rows, brought together; zeros behind them. Each of these rows then stands one octet
/// further.
pub(crate) fn gather(octets: &[u8], count: usize, rows: &mut [u16]) -> [u8; 60]
    requires { CanGather octets.now count rows.old }
    ensures octets { (o : ℕ) → o < count
        → slice_index result o ≡ slice_index octets.now (slice_index rows.old o) }
    ensures rows { MovedOn count rows.old rows.new }
{
    let mut gathered = [0; 60];
    for octet in 0..count {
        let place = rows[octet];
        gathered[octet] = octets[place as usize];
        rows[octet] = place + 1;
    }
    gathered
}
