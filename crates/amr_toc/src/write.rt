ghost use Rattle.std.specs.Prelude.{◌≡◌, ◌⊎◌, ◌+◌, ◌*◌, ◌^◌, ◌≤◌, ◌<◌, ℕ, length};
ghost use Rattle.amr_frame.specs.Blocks.{frames_of};
ghost use Rattle.amr_toc.specs.Behind.{WrittenBehind};
ghost use Rattle.amr_toc.specs.Entries.{AreListed, AreWritable, IsWritable, entry_text, headings, table_part, table_text};

use crate::entry::Entry;
use amr_bits::BitWriter;
use amr_frame::Cell;
use arrayvec::ArrayVec;

/// The entries of the frames of cells, in order: the table of contents of a payload that carries them.
pub fn entries_of(cells: &[Cell]) -> ArrayVec<Entry, 384>
    requires frames { AreListed (frames_of cells.now) }
    ensures entries { result.items ≡ headings (frames_of cells.now) }
    ensures count { length result.items ≡ length cells.now }
    ensures writable { (width : ℕ) → (width ≡ 6) ⊎ (width ≡ 8) → AreWritable width result.items }
    ensures text { (width : ℕ) → table_text width result.items
        ≡ table_part width (frames_of cells.now) }
{
    let mut entries: ArrayVec<Entry, 384> = ArrayVec::new();
    for cell in cells {
        entries.push(Entry {
            ft: cell.ft,
            q: cell.q,
        });
    }
    entries
}

/// Writes a table of contents behind the bits written, entries of 6 bits (RFC 4867, 4.3.2) or 8 bits
/// (4.4.2). F is 1 on each entry but the last, and the two bits P of an entry of 8 bits are 0. The other
/// bits of a begun octet become 0.
pub fn write_toc(entries: &[Entry], width: u32, at: &mut BitWriter, out: &mut [u8])
    requires entries { AreWritable width entries.now }
    requires fits { at.old.written + width * length entries.now ≤ 8 * length out.old }
    requires counts { at.old.written + width * length entries.now < 2 ^ 64 }
    ensures written { at.new.written ≡ at.old.written + width * length entries.now }
    ensures text { WrittenBehind out.old at.old.written (table_text width entries.now) out.new
        at.new.written }
{
    for k in 0..entries.len() {
        put_entry(entries[k], k + 1 < entries.len(), width, at, out);
    }
}

/// Writes one entry of a table of contents behind the bits written, with F = 1 where more entries follow.
/// The other bits of a begun octet become 0.
fn put_entry(entry: Entry, more: bool, width: u32, at: &mut BitWriter, out: &mut [u8])
    requires entry { IsWritable width entry }
    requires fits { at.old.written + width ≤ 8 * length out.old }
    requires counts { at.old.written + width < 2 ^ 64 }
    ensures written { at.new.written ≡ at.old.written + width }
    ensures text { WrittenBehind out.old at.old.written (entry_text width entry more) out.new
        at.new.written }
{
    let bits = 32 * more as u32 + 2 * entry.ft as u32 + entry.q as u32;
    at.put(out, bits << (width - 6), width);
}
