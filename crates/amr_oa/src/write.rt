ghost use Rattle.std.specs.Prelude.{◌≡◌, ◌+◌, ◌*◌, ◌≤◌, ◌<◌, ◌∷◌, [], cond, is_some, length};
ghost use Rattle.std.specs.List.{AllByRecursion};
ghost use Rattle.amr_frame.specs.Blocks.{frames_of};
ghost use Rattle.amr_frame.specs.Cells.{frame_of};
ghost use Rattle.amr_frame.specs.Frames.{IsFrame};
ghost use Rattle.amr_oa.specs.Carried.{CarriesAligned, CarriesAlignedInto};
ghost use Rattle.amr_oa.specs.Written.{PutAt, check_part, checks_part, header_part};
ghost use Rattle.amr_toc.specs.Behind.{WrittenBehind};
ghost use Rattle.amr_toc.specs.Payloads.{IsSize, meant};
ghost use Rattle.spec_payload.specs.Grammar.{check_of, text};

use crate::body::{body_octets, put_bodies};
use amr_bits::BitWriter;
use amr_frame::{Cell, Profile};
use amr_toc::{
    Payload, are_octets, check_over, entries_of, entries_within, header_octets, write_toc,
};

/// How many octets an octet-aligned payload has.
pub fn size_oa(profile: &Profile, payload: &Payload<'_>) -> usize
    requires { CarriesAligned profile.now payload.now }
    ensures { IsSize profile.now payload.now 23810 result }
{
    entries_within(profile);
    let cells = payload.cells;
    header_octets(profile) + cells.len() + check_octets(profile, cells) + body_octets(cells)
}

/// How many CRCs the frames of cells have.
fn check_octets(profile: &Profile, cells: &[Cell]) -> usize
    ensures count { result ≡ length (checks_part profile.now (frames_of cells.now)) }
    ensures most { result ≤ length cells.now }
{
    let mut checks = 0;
    for cell in cells {
        if has_check(profile, cell) {
            checks += 1;
        }
    }
    checks
}

/// Whether the frame of a cell has a CRC.
fn has_check(profile: &Profile, cell: &Cell) -> bool
    ensures { check_part profile.now (frame_of cell.now)
        ≡ cond result (check_of profile.now (frame_of cell.now) ∷ []) [] }
{
    profile.crc && cell.bits.len() > 0
}

/// Writes an octet-aligned payload, with the free bits 0. All of `out` is then the payload.
pub fn write_oa(profile: &Profile, payload: &Payload<'_>, out: &mut [u8])
    requires { CarriesAlignedInto profile.now payload.now out.old }
    ensures { out.new ≡ text profile.now (meant payload.now) }
{
    entries_within(profile);
    let entries = entries_of(payload.cells);
    let mut at = put_header(profile, payload, out);
    write_toc(&entries, 8, &mut at, out);
    let body = put_checks(profile, payload.cells, at.written() / 8, out);
    put_bodies(profile, payload.cells, body, out);
    are_octets(out);
}

/// Writes what stands before the table (RFC 4867, 4.4.1).
fn put_header(profile: &Profile, payload: &Payload<'_>, out: &mut [u8]) -> BitWriter
    requires cmr { payload.now.cmr ≤ 15 }
    requires some { 1 ≤ payload.now.stride }
    requires most { payload.now.stride ≤ 16 }
    requires index { payload.now.index < payload.now.stride }
    requires fits { cond (is_some profile.now.interleaving) 2 1 ≤ length out.old }
    ensures written { result.written ≡ 8 * cond (is_some profile.now.interleaving) 2 1 }
    ensures text { WrittenBehind out.old 0 (header_part profile.now (meant payload.now)) out.new
        result.written }
{
    let mut at = BitWriter::new();
    at.put(out, payload.cmr as u32, 4);
    at.put(out, 0, 4);
    if profile.interleaving.is_none() {
        return at;
    }
    at.put(out, payload.stride as u32 - 1, 4);
    at.put(out, payload.index as u32, 4);
    at
}

/// Writes the CRCs of cells at an octet, and gives the place behind them (RFC 4867, 4.4.2.1).
fn put_checks(profile: &Profile, cells: &[Cell], start: usize, out: &mut [u8]) -> usize
    requires frames { AllByRecursion (IsFrame profile.now.codec) (frames_of cells.now) }
    requires fits { start + length (checks_part profile.now (frames_of cells.now))
        ≤ length out.old }
    ensures { PutAt out.old start (checks_part profile.now (frames_of cells.now)) out.new result }
{
    let mut at = start;
    for cell in cells {
        at = put_check(profile, cell, at, out);
    }
    at
}

/// Writes the CRC of a cell at an octet, where it has one, and gives the place behind it.
fn put_check(profile: &Profile, cell: &Cell, at: usize, out: &mut [u8]) -> usize
    requires frame { IsFrame profile.now.codec (frame_of cell.now) }
    requires fits { at + length (check_part profile.now (frame_of cell.now)) ≤ length out.old }
    ensures { PutAt out.old at (check_part profile.now (frame_of cell.now)) out.new result }
{
    if !has_check(profile, cell) {
        return at;
    }
    out[at] = check_over(profile.codec, cell.ft, cell.bits.as_bits());
    at + 1
}
