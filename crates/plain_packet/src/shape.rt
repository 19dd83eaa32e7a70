// How many bits a frame has, by its type.
ghost use Rattle.std.specs.Prelude.{◌≡◌, ◌≤◌};
ghost use Rattle.amr_frame.specs.Tables.{bits_in};

use amr_frame::Codec;

/// The bits of a frame by its type (3GPP TS 26.101, table 1, and TS 26.201, table 2), 0 where there
/// is none.
const BITS_AMR: [u16; 16] = [
    95, 103, 118, 134, 148, 159, 204, 244, 39, 0, 0, 0, 0, 0, 0, 0,
];

const BITS_AMR_WB: [u16; 16] = [
    132, 177, 253, 285, 317, 365, 397, 461, 477, 40, 0, 0, 0, 0, 0, 0,
];

/// The bits of a frame of this type.
#[inline(always)]
pub(crate) fn bits_by_type(codec: Codec, ft: u8) -> usize
    requires { ft ≤ 15 }
    ensures exact { result ≡ bits_in codec ft }
    ensures most { result ≤ 477 }
{
    let bits = match codec {
        Codec::Amr => BITS_AMR[usize::from(ft)],
        Codec::AmrWb => BITS_AMR_WB[usize::from(ft)],
    };
    usize::from(bits)
}
