ghost use Rattle.std.specs.Prelude.{◌≡◌, ◌≤◌, ◌↔◌, IsTrue, None, Some, [], false, length};
ghost use Rattle.amr_frame.specs.Tables.{bits_in, is_reserved};

use crate::codec::{Codec, Kind};
use crate::table::{bits_of, kind_of};
use amr_bits::{BitSlice, FixedBits};

/// A frame by value, or none: a frame type, the quality bit Q, and up to 477 speech bits.
#[derive(Clone, Copy, Debug, PartialEq, Eq)]
pub struct Cell {
    pub ft: u8,
    pub q: bool,
    pub present: bool,
    pub bits: FixedBits<60>,
}

impl Cell {
    ghost use Rattle.amr_bits.specs.Runs.{run};
    ghost use Rattle.amr_frame.specs.Cells.{IsCell, frame_of, held};
    ghost use Rattle.amr_frame.specs.Frames.{IsFrame, no_data as no_data_frame};

    /// The one cell without a frame.
    pub fn absent() -> Cell
        ensures absent { held result ≡ None }
        ensures present { result.present ≡ false }
        ensures like_no_data { frame_of result ≡ no_data_frame }
    {
        Cell {
            ft: 15,
            q: true,
            present: false,
            bits: FixedBits::empty(),
        }
    }

    /// NO_DATA with Q = 1 (RFC 4867, 4.3.2).
    pub fn no_data() -> Cell
        ensures frame { held result ≡ Some no_data_frame }
        ensures present { IsTrue result.present }
        ensures like_absent { frame_of result ≡ no_data_frame }
    {
        Cell {
            ft: 15,
            q: true,
            present: true,
            bits: FixedBits::empty(),
        }
    }

    /// A frame of the codec with these bits, as many as its type has.
    #[inline(always)]
    pub fn from_bits(codec: Codec, ft: u8, q: bool, bits: BitSlice<'_>) -> Cell
        requires type_exists { ft ≤ 15 }
        requires not_reserved { is_reserved codec ft ≡ false }
        requires size { bits.len ≡ bits_in codec ft }

        ensures frame { held result ≡ Some (record { ft = ft; q = q; bits = run bits.entry }) }
        ensures fields { frame_of result ≡ record { ft = ft; q = q; bits = run bits.entry } }
        ensures present { IsTrue result.present }
        ensures valid { IsCell codec result }
        ensures of_codec { IsFrame codec (frame_of result) }
    {
        Cell {
            ft,
            q,
            present: true,
            bits: FixedBits::load(bits),
        }
    }

    /// Whether this is the absent cell or a frame of the codec.
    pub fn valid(&self, codec: Codec) -> bool
        ensures { IsTrue result ↔ IsCell codec self.now }
    {
        if !self.present {
            return self.ft == 15 && self.q && self.bits.len() == 0;
        }
        if self.ft > 15 || kind_of(codec, self.ft) == Kind::Reserved {
            return false;
        }
        self.bits.len() == bits_of(codec, self.ft)
    }
}

/// The absent cell.
impl Default for Cell {
    ghost use Rattle.amr_frame.specs.Cells.{held};

    ghost is_default = { λ cell. held cell ≡ None };

    fn default() -> Cell {
        Cell::absent()
    }
}
