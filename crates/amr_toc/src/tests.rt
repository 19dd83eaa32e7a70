ghost use Rattle.std.specs.Prelude.{◌≡◌, ◌≤◌, ◌⊎◌, length};

use crate::{Entry, PayloadRefusal, Toc, read_toc, write_toc};
use amr_bits::{BitSlice, BitWriter};
use amr_frame::{Codec, Profile};

// All bits of a few octets.
fn all_bits(octets: &[u8]) -> BitSlice<'_>
    requires { length octets.now ≤ 8 }
{
    BitSlice {
        octets,
        start: 0,
        len: 8 * octets.len(),
    }
}

// Why the table at the front of octets is refused, in AMR payloads of so many channels and blocks.
fn refusal(channels: u8, max_blocks: u8, width: u32, octets: &[u8]) -> Option<PayloadRefusal>
    requires width { (width ≡ 6) ⊎ (width ≡ 8) }
    requires short { length octets.now ≤ 8 }
{
    let mut profile = Profile::plain(Codec::Amr, channels);
    profile.max_blocks = max_blocks;
    if let Err(_) = profile.check() {
        return Some(PayloadRefusal::HeaderShort);
    }
    match read_toc(&profile, all_bits(octets), width) {
        Ok(_) => None,
        Err(why) => Some(why),
    }
}

// The table at the front of octets, in payloads of one channel.
fn table(codec: Codec, width: u32, octets: &[u8]) -> Option<Toc<'_>>
    requires width { (width ≡ 6) ⊎ (width ≡ 8) }
    requires short { length octets.now ≤ 8 }
{
    let profile = Profile::plain(codec, 1);
    if let Err(_) = profile.check() {
        return None;
    }
    read_toc(&profile, all_bits(octets), width).ok()
}

// The type and Q of an entry of the table at the front of octets.
fn entry(width: u32, octets: &[u8], at: usize) -> Option<(u8, bool)>
    requires width { (width ≡ 6) ⊎ (width ≡ 8) }
    requires short { length octets.now ≤ 8 }
{
    let toc = table(Codec::AmrWb, width, octets)?;
    if at >= toc.len() {
        return None;
    }
    let entry = toc.entry(at);
    Some((entry.ft, entry.q))
}

// The table at the front of octets, written behind four bits 1 into octets FF, and how many bits there are then.
fn written(width: u32, octets: &[u8]) -> Option<([u8; 5], usize)>
    requires width { (width ≡ 6) ⊎ (width ≡ 8) }
    requires short { length octets.now ≤ 8 }
{
    let toc = table(Codec::Amr, width, octets)?;
    if toc.len() > 4 {
        return None;
    }
    let mut out = [0xff; 5];
    let mut at = BitWriter { written: 4 };
    let mut entries = [Entry { ft: 15, q: true }; 4];
    for k in 0..toc.len() {
        entries[k] = toc.entry(k);
    }
    write_toc(&entries[..toc.len()], width, &mut at, &mut out);
    Some((out, at.written()))
}

#[test]
fn tables_are_read(rt: HostRuntime) {
    // 0 0111 1, and bits that aren't looked at.
    assert!(rt; entry(6, &[0x3f], 0) == Some((7, true)));
    assert!(rt; entry(8, &[0x3f], 0) == Some((7, true)));
    // 1 1001 0, 0 1110 1
    assert!(rt; entry(6, &[0xc9, 0xd0], 0) == Some((9, false)));
    assert!(rt; entry(6, &[0xc9, 0xd0], 1) == Some((14, true)));
    assert!(rt; entry(8, &[0xc8, 0x74, 0xff], 0) == Some((9, false)));
    assert!(rt; entry(8, &[0xc8, 0x74, 0xff], 1) == Some((14, true)));
    assert!(rt; entry(8, &[0xc8, 0x74, 0xff], 2) == None);
    for width in [6, 8] {
        assert!(rt; refusal(1, 64, width, &[]) == Some(PayloadRefusal::TocUnended { entries: 0 }));
        assert!(rt;
            refusal(1, 64, width, &[0xbf]) == Some(PayloadRefusal::TocUnended { entries: 1 })
        );
        assert!(rt;
            refusal(1, 64, width, &[0x4c]) == Some(PayloadRefusal::ReservedType { entry: 0, ft: 9 })
        );
        assert!(rt; refusal(1, 1, width, &[0xff, 0xff]) == Some(PayloadRefusal::TooManyBlocks));
        assert!(rt;
            refusal(2, 64, width, &[0x3c]) == Some(PayloadRefusal::ChannelRest { entries: 1 })
        );
        assert!(rt; refusal(1, 1, width, &[0x3c]) == None);
    }
    // 1 1111 1, 1 1011 1: one entry too many, but reserved first.
    assert!(rt;
        refusal(1, 1, 6, &[0xff, 0x7f]) == Some(PayloadRefusal::ReservedType { entry: 1, ft: 11 })
    );
}

#[test]
fn tables_are_written(rt: HostRuntime) {
    // 1111, 0 0111 1
    assert!(rt; written(6, &[0x3f]) == Some(([0xf3, 0xc0, 0xff, 0xff, 0xff], 10)));
    // 1111, 0 0111 1 00
    assert!(rt; written(8, &[0x3f]) == Some(([0xf3, 0xc0, 0xff, 0xff, 0xff], 12)));
    // 1111, 0 0100 0
    assert!(rt; written(6, &[0x23]) == Some(([0xf2, 0x00, 0xff, 0xff, 0xff], 10)));
    // 1111, 1 1000 1, 0 1111 1
    assert!(rt; written(6, &[0xc5, 0xff]) == Some(([0xfc, 0x5f, 0xff, 0xff, 0xff], 16)));
    // 1111, 1 1000 1 00, 0 1111 1 00
    assert!(rt; written(8, &[0xc7, 0x7f]) == Some(([0xfc, 0x47, 0xc0, 0xff, 0xff], 20)));
    // 1111, three times 1 1111 1, 0 1111 1
    assert!(rt; written(6, &[0xff, 0xff, 0xdf]) == Some(([0xff, 0xff, 0xfd, 0xf0, 0xff], 28)));
}
