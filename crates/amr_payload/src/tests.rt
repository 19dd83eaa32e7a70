use crate::read_payload;
use amr_frame::{Codec, Profile};

// The number of frames and the type of the first, in a format of AMR with one channel.
fn first(octet_aligned: bool, octets: &[u8]) -> Option<(usize, u8)> {
    let mut profile = Profile::plain(Codec::Amr, 1);
    profile.octet_aligned = octet_aligned;
    if let Err(_) = profile.check() {
        return None;
    }
    let Ok(view) = read_payload(&profile, octets) else {
        return None;
    };
    Some((view.frames(), view.frame(0).ft))
}

// The same octets say other frames in another format.
#[test]
fn format_is_that_of_the_profile(rt: HostRuntime) {
    assert!(rt; first(false, &[0xF7, 0xC0]) == Some((1, 15)));
    assert!(rt; first(true, &[0xF7, 0xC0]) == None);
    assert!(rt; first(true, &[0xF0, 0x7C]) == Some((1, 15)));
    assert!(rt; first(false, &[0xF0, 0x7C]) == None);
    assert!(rt; first(true, &[0xF0, 0xFC, 0x7C]) == Some((2, 15)));
}
