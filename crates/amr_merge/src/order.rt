ghost use Rattle.std.specs.Cmp.Lexicographic.{slice_cmp};
ghost use Rattle.std.specs.Ordering.{nat_cmp};
ghost use Rattle.std.specs.Prelude.{◌≡◌, ℕ, ◌≤◌, ◌<◌, ◌*◌, ◌↔◌, false, get_or, length};
ghost use Rattle.std.specs.declared.cmp.Ordering.TheVariants.{Equal as equal};
ghost use Rattle.amr_bits.specs.Bits.{bit_at, bits_at};
ghost use Rattle.amr_bits.specs.Runs.{kept};
ghost use Rattle.amr_frame.specs.Cells.{IsCell, held};
ghost use Rattle.amr_merge.specs.Numbers.{numbers};
ghost use Rattle.spec_session.specs.Quality.{better, quality, rank};

use amr_bits::FixedBits;
use amr_frame::{Cell, Codec, Kind, kind_of};
use std::cmp::Ordering;

/// How the frames of two valid cells compare by quality, an absent one being below all others.
///
/// Speech and SID with Q = 1 come before those with Q = 0, then SPEECH_LOST, then NO_DATA; within such a class
/// the higher frame type, then Q = 1, then the greater bits, compared from the first on.
pub fn compare(codec: Codec, a: &Cell, b: &Cell) -> Ordering
    requires first { IsCell codec a.now }
    requires second { IsCell codec b.now }

    ensures quality { result ≡ quality codec (held a.now) (held b.now) }
    ensures equal { (result ≡ equal) ↔ (a.now ≡ b.now) }
{
    a.bits.equal_by_bits(&b.bits);
    let by_class = class_of(codec, a).cmp(&class_of(codec, b));
    let by_type = a.ft.cmp(&b.ft);
    let by_q = a.q.cmp(&b.q);
    match by_class.then(by_type).then(by_q) {
        Ordering::Equal => compare_bits(&a.bits, &b.bits),
        decided => decided,
    }
}

/// Keeps the better of two valid cells in the first.
pub fn keep_better(codec: Codec, kept: &mut Cell, other: &Cell)
    requires first { IsCell codec kept.old }
    requires second { IsCell codec other.now }

    ensures better { held kept.new ≡ better codec (held kept.old) (held other.now) }
    ensures valid { IsCell codec kept.new }
{
    if !kept.present || compare(codec, kept, other).is_lt() {
        *kept = *other;
    }
}

/// The class of a cell, from 0 to 6.
fn class_of(codec: Codec, cell: &Cell) -> u8
    requires { IsCell codec cell.now }
    ensures { result ≡ get_or (rank codec (held cell.now)) 0 0 }
{
    if !cell.present {
        return 0;
    }
    match (kind_of(codec, cell.ft), cell.q) {
        (Kind::Speech, true) => 6,
        (Kind::Sid, true) => 5,
        (Kind::Speech, false) => 4,
        (Kind::Sid, false) => 3,
        (Kind::Lost, _) => 2,
        _ => 1,
    }
}

/// How as many bits compare, from the first on.
fn compare_bits<const N: usize>(a: &FixedBits<N>, b: &FixedBits<N>) -> Ordering
    requires { a.now.len ≡ b.now.len }
    ensures { result ≡ slice_cmp nat_cmp (numbers (kept a.now)) (numbers (kept b.now)) }
{
    compare_front(&a.octets, &b.octets, a.len)
}

/// How the first `len` bits of octets compare, where all others are 0.
fn compare_front(a: &[u8], b: &[u8], len: usize) -> Ordering
    requires first { len ≤ 8 * length a.now }
    requires second { length b.now ≡ length a.now }
    requires clear { (k : ℕ) → len ≤ k → (bit_at a.now k ≡ false) × (bit_at b.now k ≡ false) }
    ensures { result
        ≡ slice_cmp nat_cmp (numbers (bits_at a.now 0 len)) (numbers (bits_at b.now 0 len)) }
{
    let used = len.div_ceil(8);
    compare_octets(&a[..used], &b[..used])
}

/// How as many octets compare, from the first on, and that each is below 256.
fn compare_octets(a: &[u8], b: &[u8]) -> Ordering
    ensures octets { result ≡ slice_cmp nat_cmp a.now b.now }
    ensures first { (k : ℕ) → get_or a.now k 0 < 256 }
    ensures second { (k : ℕ) → get_or b.now k 0 < 256 }
{
    a.cmp(b)
}
