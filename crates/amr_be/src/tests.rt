use crate::read_be;
use amr_frame::{Codec, Profile};
use amr_toc::{PayloadRefusal, PayloadView};

// Why these octets are refused, of a format with so many channels and blocks.
fn refusal(codec: Codec, channels: u8, max_blocks: u8, octets: &[u8]) -> Option<PayloadRefusal> {
    let mut profile = Profile::plain(codec, channels);
    profile.max_blocks = max_blocks;
    if let Err(_) = profile.check() {
        return Some(PayloadRefusal::HeaderShort);
    }
    match read_be(&profile, octets) {
        Ok(_) => None,
        Err(why) => Some(why),
    }
}

// The view of octets that aren't refused, of a format with so many channels.
fn view(codec: Codec, channels: u8, octets: &[u8]) -> Option<PayloadView<'_>> {
    let profile = Profile::plain(codec, channels);
    if let Err(_) = profile.check() {
        return None;
    }
    read_be(&profile, octets).ok()
}

// The type, Q, number of bits, first octet and octet `at` of frame `frame`.
fn frame(
    codec: Codec,
    channels: u8,
    octets: &[u8],
    frame: usize,
    at: usize,
) -> Option<(u8, bool, usize, u8, u8)> {
    let view = view(codec, channels, octets)?;
    if frame >= view.frames() || at >= 60 {
        return None;
    }
    let cell = view.frame(frame);
    Some((
        cell.ft,
        cell.q,
        cell.bits.len(),
        cell.bits.octet(0),
        cell.bits.octet(at),
    ))
}

// Two octets and zeros behind them.
fn payload<const N: usize>(first: u8, second: u8, last: u8) -> [u8; N] {
    let mut octets = [0; N];
    for at in 0..N {
        if at == 0 {
            octets[at] = first;
        } else if at == 1 {
            octets[at] = second;
        } else if at + 1 == N {
            octets[at] = last;
        }
    }
    octets
}

#[test]
fn refusals_come_in_order(rt: HostRuntime) {
    let amr = |octets: &[u8]| refusal(Codec::Amr, 1, 64, octets);
    assert!(rt; amr(&payload::<32>(0xF3, 0xC0, 0)) == None);
    assert!(rt;
        amr(&payload::<32>(0xF3, 0xC0, 3)) == None,
        "pad bits are free"
    );
    assert!(rt;
        amr(&payload::<33>(0xF3, 0xC0, 0)) == Some(PayloadRefusal::BodyLong { need: 32, have: 33 })
    );
    assert!(rt; amr(&payload::<20>(0xF2, 0x40, 0)) == None);
    assert!(rt;
        amr(&payload::<19>(0xF2, 0x40, 0)) == Some(PayloadRefusal::BodyShort { need: 20, have: 19 })
    );
    assert!(rt; amr(&[]) == Some(PayloadRefusal::Empty));
    assert!(rt; amr(&[0xF3]) == Some(PayloadRefusal::TocUnended { entries: 0 }));
    assert!(rt; amr(&[0xF4, 0xC0]) == Some(PayloadRefusal::ReservedType { entry: 0, ft: 9 }));
    assert!(rt; amr(&[0xFF, 0xDF]) == None);
    assert!(rt; refusal(Codec::Amr, 1, 1, &[0xFF, 0xDF]) == Some(PayloadRefusal::TooManyBlocks));
    assert!(rt;
        refusal(Codec::Amr, 2, 64, &payload::<32>(0xF3, 0xC0, 0))
            == Some(PayloadRefusal::ChannelRest { entries: 1 })
    );
    assert!(rt; refusal(Codec::AmrWb, 1, 64, &payload::<7>(0xF4, 0xC0, 0)) == None);
    assert!(rt;
        refusal(Codec::AmrWb, 1, 64, &[0xF5, 0x40])
            == Some(PayloadRefusal::ReservedType { entry: 0, ft: 10 })
    );
    assert!(rt; refusal(Codec::Amr, 2, 64, &payload::<7>(0xFC, 0x5F, 0)) == None);
}

#[test]
fn frames_are_read_bit_by_bit(rt: HostRuntime) {
    // The first and the last of 244 bits are 1, and so are the pad bits.
    assert!(rt;
        frame(Codec::Amr, 1, &payload::<32>(0xF3, 0xE0, 7), 0, 30)
            == Some((7, true, 244, 0x80, 0x10))
    );
    // Q = 0, and the 40 bits of SID end on an octet of their own.
    assert!(rt;
        frame(Codec::AmrWb, 1, &payload::<7>(0xF4, 0x80, 0x40), 0, 4) == Some((9, false, 40, 0, 1))
    );
    assert!(rt;
        frame(Codec::Amr, 2, &payload::<7>(0xFC, 0x5F, 0), 0, 4) == Some((8, true, 39, 0, 0))
    );
    assert!(rt;
        frame(Codec::Amr, 2, &payload::<7>(0xFC, 0x5F, 0), 1, 0) == Some((15, true, 0, 0, 0))
    );
    assert!(rt; frame(Codec::Amr, 1, &[0xFF, 0xDF], 1, 0) == Some((15, true, 0, 0, 0)));
}
