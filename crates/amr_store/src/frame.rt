ghost use Rattle.std.specs.Prelude.{◌≡◌, ◌≤◌, ◌∷◌, ◌++◌, [], false, take};
ghost use Rattle.amr_bits.specs.Bits.{filled, nat};
ghost use Rattle.amr_frame.specs.Cells.{frame_of};
ghost use Rattle.amr_store.specs.Written.{WroteText};
ghost use Rattle.spec_store.specs.StorageFile.{frame_text};

use amr_frame::Cell;
use amr_io::{Failed, Sink, write_whole_headed};

/// The octet before a frame's bits: P, the type in 4 bits, Q, and two P bits (RFC 4867, 5.3).
fn frame_head(ft: u8, q: bool) -> u8
    requires { ft ≤ 15 }
    ensures { result ∷ [] ≡ filled (false ∷ nat 4 ft ++ q ∷ []) }
{
    ft * 8 + u8::from(q) * 4
}

/// Writes a frame, as it stands in a file, behind what the sink got.
///
/// `Failed` comes only where the sink's faults rose. A front of the octets was then written.
#[inline(always)]
pub(crate) fn write_cell<O: Sink>(cell: &Cell, sink: &mut O) -> Result<(), Failed>
    requires { cell.now.ft ≤ 15 }
    ensures { WroteText O.Sink (frame_text (frame_of cell.now)) sink.old sink.new result }
{
    let count = cell.bits.as_octets().len();
    write_whole_headed(sink, frame_head(cell.ft, cell.q), &cell.bits.octets, count)
}

/// Writes a frame as it stands in a file to the front of `out`, and answers how many octets it takes, from 1 to 61.
pub fn write_frame(cell: &Cell, out: &mut [u8; 61]) -> usize
    requires { cell.now.ft ≤ 15 }

    ensures count { result ≤ 61 }
    ensures octets { take result out.new ≡ frame_text (frame_of cell.now) }
{
    out[0] = frame_head(cell.ft, cell.q);
    // A copy of a fixed size is the cheapest, so it takes the octets behind the bits too; they aren't counted.
    out[1..61].copy_from_slice(&cell.bits.octets);
    1 + cell.bits.as_octets().len()
}
