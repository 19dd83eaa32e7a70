ghost use Rattle.std.specs.Prelude.{ℕ, ◌*◌, ◌+◌, ◌<◌, ◌≤◌, ◌≡◌, length};

use crate::{BitSlice, BitWriter, FixedBits};
use std::process::Abort;

/// 0111_1010 1100_0101, which stands before what is written.
const HEAD: [u8; 2] = [0x7a, 0xc5];

/// 1011_0110 1101_0101 1010_0011 1100_1001, of which the first bits are written.
const TEXT: [u8; 4] = [0xb6, 0xd5, 0xa3, 0xc9];

/// Bit `at`, the most significant of an octet first.
fn bit_of(octets: &[u8], at: usize) -> bool
    requires { at < 8 * length octets.now }
{
    octets[at / 8] & (0x80u8 >> (at % 8) as u32) != 0
}

/// The run of the first bits of some octets.
fn front(octets: &[u8], len: usize) -> BitSlice<'_>
    requires { len ≤ 8 * length octets.now }
    ensures { result.len ≡ len }
{
    BitSlice {
        octets,
        start: 0,
        len,
    }
}

/// `out` was full of ones: bits of the head, bits of the text, zeros up to an octet, and ones.
fn expect_written(rt: &impl Abort, out: [u8; 8], place: usize, width: usize)
    requires place { place < 16 }
    requires width { width ≤ 32 }
{
    let end = place + width;
    for at in 0..64usize {
        let want = if at < place {
            bit_of(&HEAD, at)
        } else if at < end {
            bit_of(&TEXT, at - place)
        } else {
            at >= (end + 7) / 8 * 8
        };
        assert_eq!(rt;
            bit_of(&out, at),
            want,
            "bit {at}, {width} bits at place {place}"
        );
    }
}

/// A writer that stands at a place behind bits of the head.
fn begun(out: &mut [u8; 8], place: usize) -> BitWriter
    requires { place < 16 }
    ensures { result.written ≡ place }
{
    let mut writer = BitWriter::new();
    writer.put(
        out,
        front(&HEAD, place).number(0, place as u32),
        place as u32,
    );
    writer
}

#[test]
fn writes_numbers_at_each_place(rt: HostRuntime) {
    for place in 0..16usize {
        for width in 0..33usize {
            let mut out = [0xff; 8];
            let mut writer = begun(&mut out, place);
            let value = front(&TEXT, width).number(0, width as u32);
            writer.put(&mut out, value, width as u32);
            assert_eq!(rt; writer.written(), place + width);
            expect_written(&rt, out, place, width);
        }
    }
}

#[test]
fn writes_runs_at_each_place(rt: HostRuntime) {
    for place in 0..16usize {
        for width in 0..33usize {
            let mut out = [0xff; 8];
            let mut writer = begun(&mut out, place);
            writer.put_bits(&mut out, front(&TEXT, width));
            assert_eq!(rt; writer.written(), place + width);
            expect_written(&rt, out, place, width);
        }
    }
}

#[test]
fn fills_an_octet(rt: HostRuntime) {
    let mut out = [0xff; 4];
    let mut writer = BitWriter::new();
    writer.put(&mut out, 5, 3);
    writer.fill_octet(&mut out);
    assert_eq!(rt; writer.written(), 8);
    assert_eq!(rt; out, [0xa0, 0xff, 0xff, 0xff]);
    writer.fill_octet(&mut out);
    assert_eq!(rt; writer.written(), 8);
    assert_eq!(rt; out, [0xa0, 0xff, 0xff, 0xff]);
}

#[test]
fn reads_a_run(rt: HostRuntime) {
    assert_eq!(rt; BitSlice::of(&TEXT, 3, 30).is_none(), true);
    assert_eq!(rt; BitSlice::of(&TEXT, usize::MAX, 1).is_none(), true);
    let Some(run) = BitSlice::of(&TEXT, 3, 20) else {
        assert!(rt; false);
        return;
    };
    // 1_0110_1101_0101_1010_001
    assert_eq!(rt; run.len(), 20);
    assert_eq!(rt; (run.bit(0), run.bit(1), run.bit(19)), (true, false, true));
    assert_eq!(rt; run.number(1, 7), 0b0110_110);
    assert_eq!(rt; run.part(9, 6).number(0, 6), 0b010110);
    let mut out = [0xff; 3];
    run.copy_to(&mut out);
    assert_eq!(rt; out, [0b1011_0110, 0b1010_1101, 0b0001_0000]);
}

#[test]
fn copies_a_run_at_each_place(rt: HostRuntime) {
    let mut text = [0u8; 24];
    for at in 0..24usize {
        text[at] = (at * at * 7 % 251) as u8;
    }
    for start in 0..9usize {
        for len in 0..181usize {
            let run = BitSlice {
                octets: &text,
                start,
                len,
            };
            let kept = FixedBits::<23>::load(run);
            for at in 0..len {
                assert_eq!(rt;
                    kept.as_bits().bit(at),
                    bit_of(&text, start + at),
                    "bit {at} of {len} at place {start}"
                );
            }
            assert_eq!(rt; kept.as_octets().len(), (len + 7) / 8);
        }
    }
}

#[test]
fn keeps_bits(rt: HostRuntime) {
    let kept = FixedBits::<3>::load(front(&TEXT, 13));
    assert_eq!(rt; kept.len(), 13);
    assert_eq!(rt;
        (kept.octet(0), kept.octet(1), kept.octet(2)),
        (0xb6, 0xd0, 0)
    );
    assert_eq!(rt; kept.as_octets(), [0xb6, 0xd0].as_slice());
    assert_eq!(rt; kept.as_bits().number(8, 5), 0b11010);
    let again = FixedBits::<3>::load(kept.as_bits());
    kept.equal_by_bits(&again);
    assert_eq!(rt; kept == again, true);
    assert_eq!(rt; kept == FixedBits::<3>::empty(), false);
}
