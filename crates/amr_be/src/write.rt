ghost use Rattle.std.specs.Prelude.{◌≡◌, ◌+◌, ◌*◌, ◌^◌, ◌≤◌, ◌<◌, length};
ghost use Rattle.amr_be.specs.Carried.{CarriesPacked, CarriesPackedInto};
ghost use Rattle.amr_be.specs.Parts.{body_part};
ghost use Rattle.amr_frame.specs.Blocks.{frames_of};
ghost use Rattle.amr_toc.specs.Behind.{WrittenBehind};
ghost use Rattle.amr_toc.specs.Payloads.{IsSize, meant};
ghost use Rattle.spec_payload.specs.Grammar.{text};

use amr_bits::BitWriter;
use amr_frame::{Cell, Profile};
use amr_toc::{Payload, entries_of, entries_within, write_toc};

/// How many octets a bandwidth-efficient payload has.
pub fn size_be(profile: &Profile, payload: &Payload<'_>) -> usize
    requires { CarriesPacked profile.now payload.now }
    ensures { IsSize profile.now payload.now 23185 result }
{
    entries_within(profile);
    let cells = payload.cells;
    (4 + 6 * cells.len() + body_bits(cells)).div_ceil(8)
}

/// How many bits the frames of cells have.
fn body_bits(cells: &[Cell]) -> usize
    requires { length cells.now ≤ 384 }
    ensures bits { result ≡ length (body_part (frames_of cells.now)) }
{
    let mut bits = 0;
    for cell in cells {
        bits += cell.bits.len();
    }
    bits
}

/// Writes a bandwidth-efficient payload, with the pad bits 0. All of `out` is then the payload.
pub fn write_be(profile: &Profile, payload: &Payload<'_>, out: &mut [u8])
    requires { CarriesPackedInto profile.now payload.now out.old }
    ensures { out.new ≡ text profile.now (meant payload.now) }
{
    entries_within(profile);
    let entries = entries_of(payload.cells);
    let mut at = BitWriter::new();
    at.put(out, payload.cmr as u32, 4);
    write_toc(&entries, 6, &mut at, out);
    put_bodies(payload.cells, &mut at, out);
}

/// Writes the bits of the frames of cells behind the bits written, and zeros up to a whole octet.
fn put_bodies(cells: &[Cell], at: &mut BitWriter, out: &mut [u8])
    requires some { 1 ≤ length cells.now }
    requires fits { at.old.written + length (body_part (frames_of cells.now)) ≤ 8 * length out.old }
    requires counts { at.old.written + length (body_part (frames_of cells.now)) < 2 ^ 64 }
    ensures written { at.new.written ≡ at.old.written + length (body_part (frames_of cells.now)) }
    ensures text { WrittenBehind out.old at.old.written (body_part (frames_of cells.now)) out.new
        at.new.written }
{
    for cell in cells {
        at.put_bits(out, cell.bits.as_bits());
    }
}
