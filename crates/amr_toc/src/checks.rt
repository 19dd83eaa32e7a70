ghost use Rattle.std.specs.Prelude.{◌≡◌, ◌≤◌, take};
ghost use Rattle.amr_bits.specs.Bits.{number};
ghost use Rattle.amr_bits.specs.Runs.{run};
ghost use Rattle.amr_frame.specs.Tables.{bits_in, class_a_in};
ghost use Rattle.spec_payload.specs.FrameCrc.{crc_of};

use amr_bits::BitSlice;
use amr_frame::{Codec, class_a_of};
use amr_guard::crc8;

/// The CRC of a frame of this type that has these bits: over the class A bits, which come first.
pub fn check_over(codec: Codec, ft: u8, bits: BitSlice<'_>) -> u8
    requires type_exists { ft ≤ 15 }
    requires size { bits.len ≡ bits_in codec ft }
    ensures { result ≡ number (crc_of (take (class_a_in codec ft) (run bits.entry))) }
{
    crc8(bits.part(0, class_a_of(codec, ft)))
}
