use crate::read_payload;
use amr_frame::{Codec, Profile};
use std::process::Abort;

// Octets that begin so, filled with zeros.
fn padded<const N: usize>(front: &[u8]) -> [u8; N] {
    let mut octets = [0u8; N];
    for (at, octet) in front.iter().enumerate() {
        if at < N {
            octets[at] = *octet;
        }
    }
    octets
}

fn is_read(profile: &Profile, octets: &[u8]) -> bool {
    if let Err(_) = profile.check() {
        return false;
    }
    match read_payload(profile, octets) {
        Ok(_) => true,
        Err(_) => false,
    }
}

// The type and the quality of a frame, and one of its octets.
fn frame(profile: &Profile, octets: &[u8], at: usize, octet: usize) -> Option<(u8, bool, u8)> {
    if let Err(_) = profile.check() {
        return None;
    }
    let Ok(view) = read_payload(profile, octets) else {
        return None;
    };
    if at >= view.frames() || octet >= 60 {
        return None;
    }
    let cell = view.frame(at);
    Some((cell.ft, cell.q, cell.bits.octet(octet)))
}

// The payload is read whole, and at no other length up to its own.
fn is_cut_anywhere(rt: &impl Abort, profile: &Profile, octets: &[u8]) {
    assert!(rt; is_read(profile, octets), "whole");
    for length in 0..octets.len() {
        assert!(rt; !is_read(profile, &octets[..length]), "{length} octets");
    }
}

#[test]
fn a_payload_cut_anywhere_is_refused(rt: HostRuntime) {
    let mono = Profile::plain(Codec::Amr, 1);
    let stereo = Profile::plain(Codec::Amr, 2);
    let mut groups = Profile::plain(Codec::Amr, 1);
    groups.octet_aligned = true;
    groups.interleaving = Some(4);
    // A frame of type 7; frames of types 7, 4 and 8; a SID and NO_DATA of two channels; two SIDs of a group of four.
    is_cut_anywhere(&rt, &mono, &padded::<32>(&[0xF3, 0xC0]));
    is_cut_anywhere(&rt, &mono, &padded::<57>(&[0xFB, 0xE9, 0x44]));
    is_cut_anywhere(&rt, &stereo, &padded::<7>(&[0xFC, 0x5F]));
    is_cut_anywhere(&rt, &groups, &padded::<14>(&[0xF0, 0x10, 0xC4, 0x44]));
}

#[test]
fn free_bits_are_passed_over(rt: HostRuntime) {
    let mono = Profile::plain(Codec::Amr, 1);
    let clear = padded::<57>(&[0xFB, 0xE9, 0x44]);
    // The last three bits are free; the one before them is the last of the SID.
    for last in [0u8, 1, 2, 4, 7] {
        let mut octets = clear;
        octets[56] = last;
        assert_eq!(rt;
            frame(&mono, &octets, 2, 4),
            Some((8, true, 0)),
            "last octet {last}"
        );
    }
    let mut octets = clear;
    octets[56] = 8;
    assert_eq!(rt; frame(&mono, &octets, 2, 4), Some((8, true, 2)));

    // Octet-aligned: four bits of the header, two of the entry, and one behind the SID.
    let mut aligned = Profile::plain(Codec::Amr, 1);
    aligned.octet_aligned = true;
    for low in 0..16u8 {
        let mut octets = padded::<7>(&[0xF0, 0x44]);
        octets[0] = 0xF0 + low;
        octets[1] = 0x44 + low % 4;
        octets[6] = low % 2;
        assert_eq!(rt;
            frame(&aligned, &octets, 0, 4),
            Some((8, true, 0)),
            "free bits {low}"
        );
    }
}
