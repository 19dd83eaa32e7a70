ghost use Rattle.std.specs.Prelude.{◌≡◌, ℕ, ◌+◌, ◌*◌, ◌/◌, ◌%◌, ◌^◌, ◌-◌, ◌≤◌, ◌<◌, length, map, slice_index};
ghost use Rattle.std.specs.List.{range_with_len};
ghost use Rattle.amr_bits.specs.Bits.{number_at, octets_for};
ghost use Rattle.amr_bits.specs.Shifted.{AreCopied, IsNear, IsShift, IsShifted, IsSpelt};

/// How many octets are copied at once: as many as one instruction works on.
const BLOCK: usize = 16;

/// How many octets are copied at once where there are fewer: as many as a number has.
const WORD: usize = 8;

/// How many octets hold so many bits.
pub fn octets_needed(bits: usize) -> usize
    ensures { result ≡ octets_for bits }
{
    bits / 8 + (bits % 8 + 7) / 8
}

/// The number that the `width` bits from bit `start` on spell.
pub fn number_from(octets: &[u8], start: usize, width: usize) -> u32
    requires near { IsNear octets.now start width }
    requires width { width ≤ 32 }
    ensures spelt { IsSpelt octets.now start width result }
{
    if 0 < width && start + width <= 16 {
        return few_from(octets, start, width);
    }
    let count = octets_needed(start + width);
    let mut value = 0u64;
    for at in 0..count {
        value = 256 * value + octets[at] as u64;
    }
    let behind = (8 * count - start - width) as u32;
    ((value >> behind) % (1u64 << width as u32)) as u32
}

/// The number that bits in one octet or across two spell, with no loop.
pub fn few_from(octets: &[u8], start: usize, width: usize) -> u32
    requires near { IsNear octets.now start width }
    requires some { 0 < width }
    requires two { start + width ≤ 16 }
    ensures spelt { IsSpelt octets.now start width result }
{
    let end = start + width;
    let modulus = 1u64 << width as u32;
    if end <= 8 {
        let one = octets[0] as u64;
        return ((one >> (8 - end) as u32) % modulus) as u32;
    }
    let two = 256 * octets[0] as u64 + octets[1] as u64;
    ((two >> (16 - end) as u32) % modulus) as u32
}

/// Copies whole octets that begin at bit `start`: `out` takes the bits from there on.
pub fn copy_octets(octets: &[u8], start: usize, out: &mut [u8])
    requires near { IsNear octets.now start (8 * length out.old) }
    ensures { AreCopied octets.now start out.old out.new }
{
    if start == 0 {
        out.copy_from_slice(&octets[..out.len()]);
    } else if out.len() < WORD {
        copy_each(octets, start as u32, out);
    } else if out.len() < BLOCK {
        copy_words(octets, start as u32, out);
    } else {
        copy_blocks(octets, start as u32, out);
    }
}

/// Copies octets that stand across two each, one by one.
fn copy_each(octets: &[u8], shift: u32, out: &mut [u8])
    requires shifted { IsShifted octets.now shift out.old }
    ensures { AreCopied octets.now shift out.old out.new }
{
    for at in 0..out.len() {
        out[at] = across(octets[at], octets[at + 1], shift);
    }
}

/// Copies octets that stand across two each as two words, of which the last may lie over the first.
fn copy_words(octets: &[u8], shift: u32, out: &mut [u8])
    requires shifted { IsShifted octets.now shift out.old }
    requires word { 8 ≤ length out.old }
    requires most { length out.old ≤ 16 }
    ensures { AreCopied octets.now shift out.old out.new }
{
    let last = out.len() - WORD;
    copy_word(octets, shift, out, 0);
    copy_word(octets, shift, out, last);
}

/// Copies the word from octet `at` on, and leaves the octets before it.
fn copy_word(octets: &[u8], shift: u32, out: &mut [u8], at: usize)
    requires shifted { IsShifted octets.now shift out.old }
    requires word { at + 8 ≤ length out.old }
    ensures copied { (k : ℕ) → at ≤ k → k < at + 8
        → slice_index out.new k ≡ number_at octets.now (8 * k + shift) 8 }
    ensures before { (k : ℕ) → k < at → slice_index out.new k ≡ slice_index out.old k }
{
    out[at..at + WORD].copy_from_slice(&word_at(octets, shift, at));
    // Into the last octet come bits of a ninth. It is put by itself, so that the compiler sees of the others that the
    // octets of a number are only turned around, which is one instruction.
    out[at + 7] = across(octets[at + 7], octets[at + 8], shift);
}

/// The word from octet `at` on, without the bits of a ninth octet that come into its last.
fn word_at(octets: &[u8], shift: u32, at: usize) -> [u8; WORD]
    requires shift { IsShift shift }
    requires fits { at + 8 ≤ length octets.now }
    ensures { (k : ℕ) → k < 7
        → slice_index result k ≡ number_at octets.now (8 * (at + k) + shift) 8 }
{
    let front = u64::from_be_bytes([
        octets[at],
        octets[at + 1],
        octets[at + 2],
        octets[at + 3],
        octets[at + 4],
        octets[at + 5],
        octets[at + 6],
        octets[at + 7],
    ]);
    (front << shift).to_be_bytes()
}

/// Copies octets that stand across two each, a block at a time; the last block may lie over the one before it.
fn copy_blocks(octets: &[u8], shift: u32, out: &mut [u8])
    requires shifted { IsShifted octets.now shift out.old }
    requires block { 16 ≤ length out.old }
    ensures { AreCopied octets.now shift out.old out.new }
{
    let last = out.len() - BLOCK;
    let mut at = 0;
    while at < last {
        copy_block(octets, shift, out, at);
        at += BLOCK;
    }
    copy_block(octets, shift, out, last);
}

/// Copies the block from octet `at` on, and leaves the octets before it.
fn copy_block(octets: &[u8], shift: u32, out: &mut [u8], at: usize)
    requires shifted { IsShifted octets.now shift out.old }
    requires block { at + 16 ≤ length out.old }
    ensures copied { (k : ℕ) → at ≤ k → k < at + 16
        → slice_index out.new k ≡ number_at octets.now (8 * k + shift) 8 }
    ensures before { (k : ℕ) → k < at → slice_index out.new k ≡ slice_index out.old k }
{
    out[at..at + BLOCK].copy_from_slice(&block_at(octets, shift, at));
}

/// The block from octet `at` on. It is made as a whole before any of it is written, so that the compiler need not ask
/// whether what is written lies over what is read, and takes all octets at once.
fn block_at(octets: &[u8], shift: u32, at: usize) -> [u8; BLOCK]
    requires shift { IsShift shift }
    requires fits { at + 16 < length octets.now }
    ensures { (k : ℕ) → k < 16
        → slice_index result k ≡ number_at octets.now (8 * (at + k) + shift) 8 }
{
    let mut made = [0; BLOCK];
    for step in 0..BLOCK {
        let place = at + step;
        made[step] = across(octets[place], octets[place + 1], shift);
    }
    made
}

/// The octet that begins at bit `shift` of the first of two octets.
fn across(first: u8, second: u8, shift: u32) -> u8
    requires shift { IsShift shift }
    ensures { result ≡ (256 * first + second) / 2 ^ (8 - shift) % 256 }
{
    first << shift | second >> (8 - shift)
}

/// Each octet is below 256. Says so, and does nothing.
pub fn are_octets(octets: &[u8])
    ensures { (k : ℕ) → slice_index octets.now k < 256 }
{}
