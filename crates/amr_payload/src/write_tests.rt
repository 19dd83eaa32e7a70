ghost use Rattle.std.specs.Prelude.{◌≡◌, ◌≤◌, IsTrue, false, length, None};
ghost use Rattle.std.specs.List.{AllByRecursion};
ghost use Rattle.amr_frame.specs.Blocks.{frames_of};
ghost use Rattle.amr_frame.specs.Cells.{frame_of};
ghost use Rattle.amr_frame.specs.declared.cell.Cell.{Cell};
ghost use Rattle.amr_frame.specs.Frames.{IsFrame};
ghost use Rattle.amr_frame.specs.Tables.{is_reserved};

use crate::{read_payload, size_payload, write_payload};
use amr_bits::BitSlice;
use amr_frame::{Cell, Codec, Kind, Profile, bits_of, kind_of};
use amr_toc::Payload;

/// As many octets as a payload of these tests has at most.
const MOST: usize = 128;

// A frame whose bits are the first ones of octets.
fn cell(codec: Codec, ft: u8, q: bool, octets: &[u8; 60]) -> Cell
    requires type_exists { ft ≤ 15 }
    requires not_reserved { is_reserved codec ft ≡ false }
    ensures present { IsTrue result.present }
    ensures frame { IsFrame codec (frame_of result) }
{
    let len = bits_of(codec, ft);
    let Some(bits) = BitSlice::of(octets, 0, len) else {
        unreachable!()
    };
    Cell::from_bits(codec, ft, q, bits)
}

// A format of one channel without interleaving.
fn format(codec: Codec, octet_aligned: bool, crc: bool, sorting: bool) -> Profile
    ensures codec { result.codec ≡ codec }
    ensures channels { result.channels ≡ 1 }
    ensures blocks { result.max_blocks ≡ 64 }
    ensures interleaving { result.interleaving ≡ None }
{
    let mut profile = Profile::plain(codec, 1);
    profile.octet_aligned = octet_aligned;
    profile.crc = crc;
    profile.sorting = sorting;
    profile
}

// A payload of cells, one in each block, in octets FF, and its size.
fn written(profile: &Profile, cells: &[Cell]) -> Option<([u8; MOST], usize)>
    requires channels { profile.now.channels ≡ 1 }
    requires blocks { profile.now.max_blocks ≡ 64 }
    requires interleaving { profile.now.interleaving ≡ None }
    requires some { 1 ≤ length cells.now }
    requires most { length cells.now ≤ 64 }
    requires present { AllByRecursion (λ (cell : Cell). IsTrue cell.present) cells.now }
    requires frames { AllByRecursion (IsFrame profile.now.codec) (frames_of cells.now) }
{
    if let Err(_) = profile.check() {
        return None;
    }
    let payload = Payload {
        cmr: 15,
        stride: 1,
        index: 0,
        cells,
    };
    let size = size_payload(profile, &payload);
    if size > MOST {
        return None;
    }
    let mut out = [0xff; MOST];
    write_payload(profile, &payload, &mut out[..size]);
    Some((out, size))
}

// Whether octets of a payload that was written, and its size, are read as these cells, with no frame damaged.
fn say(profile: &Profile, payload: Option<([u8; MOST], usize)>, cells: &[Cell]) -> bool {
    if let Err(_) = profile.check() {
        return false;
    }
    let Some(pair) = payload else {
        return false;
    };
    let out = pair.0;
    let size = pair.1;
    if size > MOST {
        return false;
    }
    let Ok(view) = read_payload(profile, &out[..size]) else {
        return false;
    };
    if view.frames() != cells.len() {
        return false;
    }
    for at in 0..cells.len() {
        if view.damaged(at) || view.frame(at) != cells[at] {
            return false;
        }
    }
    view.cmr() == 15 && view.blocks() == cells.len()
}

// Whether frames of two types come back in the bandwidth-efficient format and in the four octet-aligned ones;
// `None` where a type is reserved.
fn pair_comes_back(codec: Codec, one: u8, two: u8) -> Option<bool>
    requires one { one ≤ 15 }
    requires two { two ≤ 15 }
{
    if kind_of(codec, one) == Kind::Reserved || kind_of(codec, two) == Kind::Reserved {
        return None;
    }
    let cells = [
        cell(codec, one, true, &[0xb6; 60]),
        cell(codec, two, false, &[0x5d; 60]),
    ];
    for (octet_aligned, crc, sorting) in [
        (false, false, false),
        (true, false, false),
        (true, true, false),
        (true, false, true),
        (true, true, true),
    ] {
        let profile = format(codec, octet_aligned, crc, sorting);
        if !say(&profile, written(&profile, &cells), &cells) {
            return Some(false);
        }
    }
    Some(true)
}

#[test]
fn each_pair_of_types_comes_back(rt: HostRuntime) {
    let mut pairs = 0u32;
    for codec in [Codec::Amr, Codec::AmrWb] {
        for one in 0..16u8 {
            for two in 0..16u8 {
                if let Some(same) = pair_comes_back(codec, one, two) {
                    assert!(rt; same, "types {one} and {two}");
                    pairs = pairs.saturating_add(1);
                }
            }
        }
    }
    // Ten types of AMR and twelve of AMR-WB aren't reserved.
    assert!(rt; pairs == 244);
}

// An interleaved payload of one frame without bits: the second of two, whose blocks stand two frame times apart.
fn interleaved(codec: Codec, cell: Cell) -> Option<[u8; 3]>
    requires present { IsTrue cell.present }
    requires frame { IsFrame codec (frame_of cell) }
{
    let mut profile = format(codec, true, false, false);
    profile.interleaving = Some(4);
    if let Err(_) = profile.check() {
        return None;
    }
    let cells = [cell];
    let payload = Payload {
        cmr: 3,
        stride: 2,
        index: 1,
        cells: &cells,
    };
    if size_payload(&profile, &payload) != 3 {
        return None;
    }
    let mut out = [0xff; 3];
    write_payload(&profile, &payload, &mut out);
    Some(out)
}

// Octets with zeros behind them, so many, and FF behind those.
fn expected(front: &[u8], size: usize) -> Option<([u8; MOST], usize)> {
    let mut out = [0xff; MOST];
    for at in 0..MOST {
        if at < front.len() {
            out[at] = front[at];
        } else if at < size {
            out[at] = 0;
        }
    }
    Some((out, size))
}

#[test]
fn payloads_are_written(rt: HostRuntime) {
    let zeros = [0; 60];
    let mut last = [0; 60];
    // Of 244 bits the CRC covers those up to bit 80.
    last[10] = 0x80;
    let speech = cell(Codec::Amr, 7, true, &last);
    let empty = cell(Codec::Amr, 15, true, &zeros);
    let sid = cell(Codec::Amr, 8, false, &[0xff; 60]);
    let packed = format(Codec::Amr, false, false, false);
    assert!(rt;
        written(&packed, &[cell(Codec::Amr, 7, true, &zeros)]) == expected(&[0xf3, 0xc0], 32)
    );
    assert!(rt;
        written(&packed, &[cell(Codec::Amr, 4, true, &zeros)]) == expected(&[0xf2, 0x40], 20)
    );
    assert!(rt; written(&packed, &[empty, empty]) == expected(&[0xff, 0xdf], 2));
    assert!(rt;
        written(
            &format(Codec::AmrWb, false, false, false),
            &[cell(Codec::AmrWb, 9, false, &[0xff; 60])]
        ) == expected(&[0xf4, 0xbf, 0xff, 0xff, 0xff, 0xff, 0xc0], 7)
    );
    let checked = format(Codec::Amr, true, true, false);
    assert!(rt;
        written(&checked, &[speech])
            == expected(&[0xf0, 0x3c, 0x1d, 0, 0, 0, 0, 0, 0, 0, 0, 0, 0, 0x80], 34)
    );
    assert!(rt; written(&checked, &[empty]) == expected(&[0xf0, 0x7c], 2));
    assert!(rt;
        written(&checked, &[empty, speech])
            == expected(
                &[0xf0, 0xfc, 0x3c, 0x1d, 0, 0, 0, 0, 0, 0, 0, 0, 0, 0, 0x80],
                35
            )
    );
    assert!(rt;
        written(&format(Codec::Amr, true, false, true), &[sid, speech])
            == expected(
                &[
                    0xf0, 0xc0, 0x3c, 0xff, 0, 0xff, 0, 0xff, 0, 0xff, 0, 0xfe, 0, 0, 0, 0, 0, 0,
                    0x80
                ],
                39
            )
    );
    assert!(rt; interleaved(Codec::Amr, empty) == Some([0x30, 0x11, 0x7c]));
    assert!(rt;
        written(&format(Codec::Amr, true, false, false), &[sid])
            == expected(&[0xf0, 0x40, 0xff, 0xff, 0xff, 0xff, 0xfe], 7)
    );
}
