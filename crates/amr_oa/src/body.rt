//! The frames of an octet-aligned payload as they are written, each filled up to a whole octet (RFC 4867, 4.4.3
//! and 4.4.4).
ghost use Rattle.std.specs.Prelude.{◌≡◌, ◌+◌, ◌*◌, ◌≤◌, ◌++◌, length, take};
ghost use Rattle.amr_bits.specs.Bits.{octets_for};
ghost use Rattle.amr_bits.specs.Runs.{kept};
ghost use Rattle.amr_frame.specs.Blocks.{frames_of};
ghost use Rattle.amr_frame.specs.Cells.{frame_of};
ghost use Rattle.amr_oa.specs.Written.{PutAt, body_part, frame_part, longest_of, octet_part, plain_part, row_part, sorted_part};

use amr_frame::{Cell, Profile};

/// How many octets hold the frames of cells.
pub(crate) fn body_octets(cells: &[Cell]) -> usize
    requires { length cells.now ≤ 384 }
    ensures octets { result ≡ length (plain_part (frames_of cells.now)) }
    ensures most { result ≤ 60 * length cells.now }
{
    let mut octets = 0;
    for cell in cells {
        octets += octets_in(cell);
    }
    octets
}

/// How many octets hold the frame of a cell.
fn octets_in(cell: &Cell) -> usize
    ensures octets { result ≡ octets_for (length (kept cell.now.bits)) }
    ensures most { result ≤ 60 }
{
    cell.bits.len().div_ceil(8)
}

/// Writes the frames of cells at an octet, in the order of the format.
pub(crate) fn put_bodies(profile: &Profile, cells: &[Cell], start: usize, out: &mut [u8])
    requires { start + length (body_part profile.now.sorting (frames_of cells.now))
        ≤ length out.old }
    ensures { take (start + length (body_part profile.now.sorting (frames_of cells.now))) out.new
        ≡ take start out.old ++ body_part profile.now.sorting (frames_of cells.now) }
{
    if profile.sorting {
        put_sorted(cells, start, out);
    } else {
        put_plain(cells, start, out);
    }
}

/// Writes the frames of cells one behind the other, and gives the place behind them.
fn put_plain(cells: &[Cell], start: usize, out: &mut [u8]) -> usize
    requires { start + length (plain_part (frames_of cells.now)) ≤ length out.old }
    ensures { PutAt out.old start (plain_part (frames_of cells.now)) out.new result }
{
    let mut at = start;
    for cell in cells {
        at = put_frame(cell, at, out);
    }
    at
}

/// Writes the frame of a cell at an octet, and gives the place behind it.
fn put_frame(cell: &Cell, at: usize, out: &mut [u8]) -> usize
    requires { at + length (frame_part (frame_of cell.now)) ≤ length out.old }
    ensures { PutAt out.old at (frame_part (frame_of cell.now)) out.new result }
{
    let end = at + octets_in(cell);
    cell.bits.as_bits().copy_to(&mut out[at..end]);
    end
}

/// Writes the frames of cells in the robust order, and gives the place behind them.
fn put_sorted(cells: &[Cell], start: usize, out: &mut [u8]) -> usize
    requires { start + length (sorted_part (frames_of cells.now)) ≤ length out.old }
    ensures { PutAt out.old start (sorted_part (frames_of cells.now)) out.new result }
{
    let mut at = start;
    for octet in 0..longest(cells) {
        at = put_row(cells, octet, at, out);
    }
    at
}

/// The most octets that the frame of a cell has.
fn longest(cells: &[Cell]) -> usize
    ensures { result ≡ longest_of (frames_of cells.now) }
{
    let mut most = 0;
    for cell in cells {
        most = most.max(octets_in(cell));
    }
    most
}

/// Writes octet `octet` of each cell that has one, and gives the place behind them.
fn put_row(cells: &[Cell], octet: usize, start: usize, out: &mut [u8]) -> usize
    requires { start + length (row_part (frames_of cells.now) octet) ≤ length out.old }
    ensures { PutAt out.old start (row_part (frames_of cells.now) octet) out.new result }
{
    let mut at = start;
    for cell in cells {
        at = put_octet(cell, octet, at, out);
    }
    at
}

/// Writes octet `octet` of a cell at an octet, where it has one, and gives the place behind it.
fn put_octet(cell: &Cell, octet: usize, at: usize, out: &mut [u8]) -> usize
    requires { at + length (octet_part octet (frame_of cell.now)) ≤ length out.old }
    ensures { PutAt out.old at (octet_part octet (frame_of cell.now)) out.new result }
{
    if octets_in(cell) <= octet {
        return at;
    }
    out[at] = cell.bits.octet(octet);
    at + 1
}
