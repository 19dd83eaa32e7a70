// The frames of a block that is read (RFC 4867, 5.3).
ghost use Rattle.std.specs.Prelude.{◌≡◌, ◌<◌, ◌+◌, ◌≤◌, ◌^◌, length};
ghost use Rattle.amr_store.specs.Sights.{AreFrames, BeginsFrame, BlockEnds, BlockPart, BlockShows, ReadsBlock, ReadsFrame, StandsFirst};

use crate::step::{Found, Sight};
use amr_bits::BitSlice;
use amr_frame::{Cell, Codec, Kind, bits_of, kind_of, octets_of};
use spec_store::StoreRefusal;

// What stands first in octets: less than a frame, a frame of `size` octets, or one of a reserved
// type.
#[derive(Clone, Copy, Debug, PartialEq, Eq)]
pub(crate) enum First {
    Part,
    Whole { size: usize },
    Reserved { ft: u8 },
}

/// What stands first in octets.
pub(crate) fn first_frame(codec: Codec, octets: &[u8]) -> First
    ensures { StandsFirst codec octets.now result }
{
    if octets.is_empty() {
        return First::Part;
    }
    let ft = octets[0] / 8 % 16;
    if kind_of(codec, ft) == Kind::Reserved {
        return First::Reserved { ft };
    }
    let size = 1 + octets_of(codec, ft);
    if size <= octets.len() {
        First::Whole { size }
    } else {
        First::Part
    }
}

/// What octets show of the block that begins there, `place` octets behind the front of the file.
pub(crate) fn block_sight(codec: Codec, channels: u8, octets: &[u8], place: u64) -> Sight
    requires { place + length octets.now < 2 ^ 64 }
    ensures { BlockShows codec channels place octets.now result }
{
    let mut at = 0;
    for _frame in 0..channels {
        match first_frame(codec, &octets[at..]) {
            First::Whole { size } => at += size,
            First::Part => return Sight::Part { at },
            First::Reserved { ft } => {
                let place = place + at as u64;
                return Sight::Refused(StoreRefusal::Reserved { place, ft });
            }
        }
    }
    Sight::Whole { len: at }
}

/// What a file comes to that ends here: in a frame, in a block, or on the edge of a block.
pub(crate) fn block_end(codec: Codec, channels: u8, octets: &[u8], at: usize, place: u64) -> Found
    requires part { BlockPart codec channels octets.now at }
    requires place { place + length octets.now < 2 ^ 64 }
    ensures { BlockEnds octets.now place at result }
{
    if at < octets.len() {
        let place = place + at as u64;
        Found::Cut(StoreRefusal::Truncated { place })
    } else if at > 0 {
        Found::Cut(StoreRefusal::BlockRest { place })
    } else {
        Found::End
    }
}

/// Reads the frame that stands first in octets.
fn read_frame(codec: Codec, octets: &[u8]) -> Cell
    requires { BeginsFrame codec octets.now }
    ensures { ReadsFrame codec octets.now result }
{
    let head = octets[0];
    let ft = head / 8 % 16;
    let bits = BitSlice {
        octets,
        start: 8,
        len: bits_of(codec, ft),
    };
    Cell::from_bits(codec, ft, head / 4 % 2 == 1, bits)
}

/// Reads the frames of a block into as many cells.
pub(crate) fn read_block(codec: Codec, octets: &[u8], cells: &mut [Cell])
    requires { AreFrames codec (length cells.old) octets.now }
    ensures { ReadsBlock codec octets.now cells.new }
{
    let mut at = 0;
    for k in 0..cells.len() {
        let cell = read_frame(codec, &octets[at..]);
        at += 1 + octets_of(codec, cell.ft);
        cells[k] = cell;
    }
}
