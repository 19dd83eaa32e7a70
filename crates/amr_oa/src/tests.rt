ghost use Rattle.std.specs.Prelude.{◌≡◌, IfSome};
ghost use Rattle.amr_toc.specs.Viewed.{format_of};

use crate::read_oa;
use amr_frame::{Codec, Profile, octets_of};
use amr_toc::{PayloadRefusal, PayloadView};

// An octet-aligned format of AMR.
fn aligned(channels: u8, crc: bool, sorting: bool, interleaving: Option<u16>) -> Profile {
    let mut profile = Profile::plain(Codec::Amr, channels);
    profile.octet_aligned = true;
    profile.crc = crc;
    profile.sorting = sorting;
    profile.interleaving = interleaving;
    profile
}

// Why these octets are refused.
fn refusal(profile: &Profile, octets: &[u8]) -> Option<PayloadRefusal> {
    if !profile.octet_aligned {
        return Some(PayloadRefusal::Empty);
    }
    if let Err(_) = profile.check() {
        return Some(PayloadRefusal::Empty);
    }
    match read_oa(profile, octets) {
        Ok(_) => None,
        Err(why) => Some(why),
    }
}

// The view of octets that aren't refused.
fn view<'a>(profile: &Profile, octets: &'a [u8]) -> Option<PayloadView<'a>>
    ensures format { IfSome result (λ view. format_of view ≡ profile.now) }
{
    if !profile.octet_aligned {
        return None;
    }
    if let Err(_) = profile.check() {
        return None;
    }
    read_oa(profile, octets).ok()
}

// The codec mode request, the blocks, the stride and the index.
fn shape(profile: &Profile, octets: &[u8]) -> Option<(u8, usize, u8, u8)> {
    let view = view(profile, octets)?;
    Some((view.cmr(), view.blocks(), view.stride(), view.index()))
}

// The type, Q as it is seen, and number of bits of frame `at`, and its octet `octet`, as it is kept and as it
// stands.
fn frame(
    profile: &Profile,
    octets: &[u8],
    at: usize,
    octet: usize,
) -> Option<(u8, bool, usize, u8, u8)> {
    let view = view(profile, octets)?;
    if at >= view.frames() || octet >= 60 {
        return None;
    }
    let entry = view.entry(at);
    if octet >= octets_of(profile.codec, entry.ft) {
        return None;
    }
    let cell = view.frame(at);
    Some((
        cell.ft,
        cell.q,
        cell.bits.len(),
        cell.bits.octet(octet),
        view.octet(at, octet),
    ))
}

// Whether frame `at` is damaged, Q of its entry, and whether its bits are lent.
fn marks(profile: &Profile, octets: &[u8], at: usize) -> Option<(bool, bool, bool)> {
    let view = view(profile, octets)?;
    if at >= view.frames() {
        return None;
    }
    Some((view.damaged(at), view.entry(at).q, view.bits(at).is_some()))
}

// Octets with zeros behind them.
fn padded<const N: usize>(front: &[u8]) -> [u8; N] {
    let mut octets = [0; N];
    for at in 0..N {
        if at < front.len() {
            octets[at] = front[at];
        }
    }
    octets
}

#[test]
fn refusals_come_in_order(rt: HostRuntime) {
    let plain = aligned(1, false, false, None);
    let grouped = aligned(1, false, false, Some(4));
    let checked = aligned(1, true, false, None);
    let mut single = plain;
    single.max_blocks = 1;
    assert!(rt; refusal(&plain, &[]) == Some(PayloadRefusal::Empty));
    assert!(rt; refusal(&grouped, &[0xF0]) == Some(PayloadRefusal::HeaderShort));
    assert!(rt;
        refusal(&grouped, &[0xF0, 0x12])
            == Some(PayloadRefusal::IndexAboveLength { ill: 1, ilp: 2 })
    );
    assert!(rt; refusal(&plain, &[0xF0, 0xFC]) == Some(PayloadRefusal::TocUnended { entries: 1 }));
    assert!(rt;
        refusal(&plain, &[0xF0, 0x4C]) == Some(PayloadRefusal::ReservedType { entry: 0, ft: 9 })
    );
    assert!(rt; refusal(&single, &[0xF0, 0xFC, 0x7C]) == Some(PayloadRefusal::TooManyBlocks));
    assert!(rt; refusal(&plain, &[0xF0, 0xFC, 0x7C]) == None);
    assert!(rt;
        refusal(&aligned(2, false, false, None), &[0xF0, 0xFC, 0xFC, 0x7C])
            == Some(PayloadRefusal::ChannelRest { entries: 3 })
    );
    let two = padded::<14>(&[0xF0, 0x10, 0xC4, 0x44]);
    assert!(rt; refusal(&grouped, &two) == None);
    assert!(rt;
        refusal(&aligned(1, false, false, Some(3)), &two)
            == Some(PayloadRefusal::GroupTooLarge {
                blocks: 2,
                length: 2
            })
    );
    assert!(rt;
        refusal(&plain, &padded::<6>(&[0xF0, 0x44]))
            == Some(PayloadRefusal::BodyShort { need: 7, have: 6 })
    );
    assert!(rt;
        refusal(&checked, &padded::<9>(&[0xF0, 0x44]))
            == Some(PayloadRefusal::BodyLong { need: 8, have: 9 })
    );
    assert!(rt;
        refusal(&checked, &[0xF0, 0x7C]) == None,
        "NO_DATA has no CRC"
    );
}

#[test]
fn frames_are_read_where_they_stand(rt: HostRuntime) {
    let plain = aligned(1, false, false, None);
    let grouped = aligned(1, false, false, Some(4));
    let sorted = aligned(1, false, true, None);
    let two = padded::<14>(&[0xF0, 0x10, 0xC4, 0x44]);
    assert!(rt; shape(&grouped, &two) == Some((15, 2, 2, 0)));
    assert!(rt; shape(&grouped, &[0x30, 0x11, 0x7C]) == Some((3, 1, 2, 1)));
    assert!(rt; shape(&plain, &[0xF0, 0x7C]) == Some((15, 1, 1, 0)));
    // Free bits are 1.
    assert!(rt; frame(&plain, &[0xF7, 0x47, 0, 0, 0, 0, 3], 0, 4) == Some((8, true, 39, 2, 3)));
    let robust = [
        0xF0, 0xC4, 0x3C, 0xA0, 0x40, 0xA1, 0x41, 0xA2, 0x42, 0xA3, 0x43, 0xA4, 0x44, 0x45, 0x46,
        0x47, 0x48, 0x49, 0x4A, 0x4B, 0x4C, 0x4D, 0x4E, 0x4F, 0x50, 0x51, 0x52, 0x53, 0x54, 0x55,
        0x56, 0x57, 0x58, 0x59, 0x5A, 0x5B, 0x5C, 0x5D, 0x5E,
    ];
    assert!(rt; frame(&sorted, &robust, 0, 4) == Some((8, true, 39, 0xA4, 0xA4)));
    assert!(rt; frame(&sorted, &robust, 1, 4) == Some((7, true, 244, 0x44, 0x44)));
    assert!(rt; frame(&sorted, &robust, 1, 30) == Some((7, true, 244, 0x50, 0x5E)));
    assert!(rt; frame(&plain, &robust, 1, 0) == Some((7, true, 244, 0x42, 0x42)));
    assert!(rt; marks(&sorted, &robust, 0) == Some((false, true, false)));
    assert!(rt; marks(&plain, &robust, 0) == Some((false, true, true)));
}

#[test]
fn damaged_frames_are_kept_with_q_0(rt: HostRuntime) {
    let checked = aligned(1, true, false, None);
    // Of 244 bits the CRC covers those up to bit 80.
    let last = padded::<34>(&[0xF0, 0x3C, 0x1D, 0, 0, 0, 0, 0, 0, 0, 0, 0, 0, 0x80]);
    let wrong = padded::<34>(&[0xF0, 0x3C, 0x1C, 0, 0, 0, 0, 0, 0, 0, 0, 0, 0, 0x80]);
    let behind = padded::<34>(&[0xF0, 0x3C, 0x00, 0, 0, 0, 0, 0, 0, 0, 0, 0, 0, 0x40]);
    assert!(rt; frame(&checked, &last, 0, 10) == Some((7, true, 244, 0x80, 0x80)));
    assert!(rt; marks(&checked, &last, 0) == Some((false, true, true)));
    assert!(rt; frame(&checked, &wrong, 0, 10) == Some((7, false, 244, 0x80, 0x80)));
    assert!(rt; marks(&checked, &wrong, 0) == Some((true, true, true)));
    assert!(rt; frame(&checked, &behind, 0, 10) == Some((7, true, 244, 0x40, 0x40)));
    let sorted = aligned(1, true, true, None);
    assert!(rt; frame(&sorted, &wrong, 0, 10) == Some((7, false, 244, 0x80, 0x80)));
    // The CRC of the second frame is the second one, also behind NO_DATA, which has none.
    let third = padded::<16>(&[0xF0, 0xC4, 0xFC, 0x44, 0x00, 0x1D]);
    assert!(rt; marks(&checked, &third, 0) == Some((false, true, true)));
    assert!(rt; marks(&checked, &third, 1) == Some((false, true, true)));
    assert!(rt; marks(&checked, &third, 2) == Some((true, true, true)));
}
