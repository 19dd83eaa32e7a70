use crate::{crc8, sort_octets, sorted_place, unsort_octets};
use amr_bits::BitSlice;
use std::process::Abort;

/// The remainder of `x^(88 - at)` by `x^8 + x^4 + x^3 + x^2 + 1` for each place `at` of the 81 class
/// A bits of AMR at 12.2 kbit/s.
const ONE_BIT: [u8; 81] = [
    0xfe, 0x7f, 0xb1, 0xd6, 0x6b, 0xbb, 0xd3, 0xe7, 0xfd, 0xf0, 0x78, 0x3c, 0x1e, 0x0f, 0x89, 0xca,
    0x65, 0xbc, 0x5e, 0x2f, 0x99, 0xc2, 0x61, 0xbe, 0x5f, 0xa1, 0xde, 0x6f, 0xb9, 0xd2, 0x69, 0xba,
    0x5d, 0xa0, 0x50, 0x28, 0x14, 0x0a, 0x05, 0x8c, 0x46, 0x23, 0x9f, 0xc1, 0xee, 0x77, 0xb5, 0xd4,
    0x6a, 0x35, 0x94, 0x4a, 0x25, 0x9c, 0x4e, 0x27, 0x9d, 0xc0, 0x60, 0x30, 0x18, 0x0c, 0x06, 0x03,
    0x8f, 0xc9, 0xea, 0x75, 0xb4, 0x5a, 0x2d, 0x98, 0x4c, 0x26, 0x13, 0x87, 0xcd, 0xe8, 0x74, 0x3a,
    0x1d,
];

#[test]
fn crcs_of_one_bit(rt: HostRuntime) {
    for (at, want) in ONE_BIT.iter().enumerate() {
        let mut octets = [0u8; 12];
        octets[at / 8] = 0x80 >> (at % 8) as u32;
        check_run(&rt, &octets, 0, at, *want);
        let mut moved = [0xffu8; 12];
        for place in 3..84 {
            if place != at + 3 {
                moved[place / 8] &= !(0x80 >> (place % 8) as u32);
            }
        }
        check_run(&rt, &moved, 3, at, *want);
    }
}

fn check_run(rt: &impl Abort, octets: &[u8], start: usize, at: usize, want: u8) {
    match BitSlice::of(octets, start, 81) {
        Some(bits) => assert_eq!(rt; crc8(bits), want, "bit {at} of 81 from {start} on"),
        None => panic!(rt; "81 bits are there"),
    }
}

#[test]
fn crc_of_no_bits(rt: HostRuntime) {
    match BitSlice::of(&[0xff], 5, 0) {
        Some(bits) => assert_eq!(rt; crc8(bits), 0),
        None => panic!(rt; "no bits are there"),
    }
}

/// Two frames of 4 and 2 octets: the octets 0 to 3 of the first are 10 to 13, those of the second 20
/// and 21.
#[test]
fn two_frames(rt: HostRuntime) {
    let lengths = [4u8, 2];
    let plain = [10u8, 11, 12, 13, 20, 21];
    let robust = [10u8, 20, 11, 21, 12, 13];
    let mut sorted = [0u8; 6];
    sort_octets(&lengths, &plain, &mut sorted);
    assert_eq!(rt; sorted, robust);
    let mut back = [0u8; 6];
    unsort_octets(&lengths, &robust, &mut back);
    assert_eq!(rt; back, plain);
    assert_eq!(rt; sorted_place(&lengths, 0, 3), 5);
    assert_eq!(rt; sorted_place(&lengths, 1, 1), 3);
}
