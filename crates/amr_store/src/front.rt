// The frame that stands first in the octets held (RFC 4867, 5.3).
ghost use Rattle.std.specs.Prelude.{◌≡◌};
ghost use Rattle.amr_store.specs.Passing.{ShowsUnit};

use crate::block::{First, first_frame};
use amr_frame::Codec;

/// The most octets of a frame in a storage file: its head, and 477 bits of AMR-WB.
pub const MOST_UNIT: usize = 61;

/// The frame that stands first in octets, with what stands behind it.
#[derive(Clone, Copy, Debug)]
pub struct UnitAhead<'a> {
    /// The first 61 octets.
    pub octets: &'a [u8; MOST_UNIT],
    /// How many of them are the frame's own, its head included.
    pub size: usize,
}

/// The frame that stands first in octets: none where they are fewer than 61, or its type is
/// reserved.
#[inline(always)]
pub(crate) fn unit_ahead(codec: Codec, octets: &[u8]) -> Option<UnitAhead<'_>>
    ensures { ShowsUnit codec octets.now result }
{
    let front = octets.first_chunk::<MOST_UNIT>()?;
    match first_frame(codec, front) {
        First::Whole { size } => Some(UnitAhead {
            octets: front,
            size,
        }),
        First::Part => None,
        First::Reserved { .. } => None,
    }
}
