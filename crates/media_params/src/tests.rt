use crate::{Fmtp, FmtpRefusal, Param, print_fmtp, read_fmtp, read_modes};
use amr_frame::{Codec, Profile};
use amr_io::{Failed, MemorySink};
use amr_mode::ModeSet;
use std::test::Fail;

const PLAIN: Fmtp = Fmtp {
    octet_aligned: false,
    modes: None,
    period: 1,
    capability: 1,
    neighbor: false,
    crc: false,
    sorting: false,
    interleaving: None,
    max_red: None,
};

// The first of these texts that is read as anything else.
fn first_wrong<'a>(rows: &[(&'a str, Result<Fmtp, FmtpRefusal>)]) -> Option<&'a str> {
    for (text, answer) in rows {
        if read_fmtp(Codec::Amr, text.as_bytes()) != *answer {
            return Some(*text);
        }
    }
    None
}

#[test]
fn texts_are_read_or_refused(rt: HostRuntime) -> Result<(), Fail> {
    let crc = Fmtp {
        octet_aligned: true,
        crc: true,
        ..PLAIN
    };
    let ends = Fmtp {
        modes: Some(ModeSet { bits: 0x81 }),
        ..PLAIN
    };
    let most = Fmtp {
        max_red: Some(65_535),
        ..PLAIN
    };
    let bad = |param: Param| Err(FmtpRefusal::BadValue { param });
    let rows = [
        ("", Ok(PLAIN)),
        (" ; ", Ok(PLAIN)),
        ("CRC = 1", Ok(crc)),
        ("=1", Err(FmtpRefusal::NoName)),
        ("crc", bad(Param::Crc)),
        ("mode-set=8", bad(Param::ModeSet)),
        ("mode-set=7,0,0", Ok(ends)),
        (
            "crc=0; crc=1",
            Err(FmtpRefusal::Repeated { param: Param::Crc }),
        ),
        ("crc=0; crc=2", bad(Param::Crc)),
        ("interleaving=0", bad(Param::Interleaving)),
        ("octet-align=0; crc=0", Ok(PLAIN)),
        ("crc=1; octet-align=0", Err(FmtpRefusal::Contradiction)),
        ("foo; foo=2; max-red=65535", Ok(most)),
        ("max-red=65536", bad(Param::MaxRed)),
    ];
    assert_eq!(rt; first_wrong(&rows), None);
    Ok(())
}

// The format that a text gives for AMR-WB.
fn wide_profile(text: &[u8]) -> Result<Profile, FmtpRefusal> {
    Ok(read_fmtp(Codec::AmrWb, text)?.profile(Codec::AmrWb, 1, 64))
}

#[test]
fn lists_of_modes_are_read(rt: HostRuntime) -> Result<(), Fail> {
    let rows: [(&[u8], Option<u16>); 8] = [
        (b"0", Some(1)),
        (b" 7 ,\t00000,7", Some(0x81)),
        (b"7,6,5,4,3,2,1,0", Some(0xff)),
        (b"8", None),
        (b"", None),
        (b"0,", None),
        (b"000000", None),
        (b"0;1", None),
    ];
    for (text, bits) in rows {
        let read = read_modes(Codec::Amr, text).map(|set| set.bits);
        assert_eq!(rt; read, bits);
    }
    let wide = read_modes(Codec::AmrWb, b"8").map(|set| set.bits);
    assert_eq!(rt; wide, Some(0x100));
    Ok(())
}

#[test]
fn wideband_has_a_mode_more(rt: HostRuntime) -> Result<(), Fail> {
    let wide = Profile {
        modes: 0x100,
        ..Profile::plain(Codec::AmrWb, 1)
    };
    assert_eq!(rt; wide_profile(b"mode-set=8"), Ok(wide));
    Ok(())
}

#[test]
fn long_texts_are_read(rt: HostRuntime) -> Result<(), Fail> {
    let mut text = [b';'; 65_536];
    assert_eq!(rt; read_fmtp(Codec::Amr, &text), Ok(PLAIN));
    for place in 0..65_536 {
        text[place] = b"crc;"[place % 4];
    }
    let bad = Err(FmtpRefusal::BadValue { param: Param::Crc });
    assert_eq!(rt; read_fmtp(Codec::Amr, &text), bad);
    Ok(())
}

#[test]
fn texts_that_are_cut_are_read(rt: HostRuntime) -> Result<(), Fail> {
    let text = b"crc=1; max-red=20";
    let crc = Fmtp {
        octet_aligned: true,
        crc: true,
        ..PLAIN
    };
    for len in 0..18 {
        let wanted = match len {
            0..=2 => Ok(PLAIN),
            3..=4 => Err(FmtpRefusal::BadValue { param: Param::Crc }),
            5..=13 => Ok(crc),
            14..=15 => Err(FmtpRefusal::BadValue {
                param: Param::MaxRed,
            }),
            16 => Ok(Fmtp {
                max_red: Some(2),
                ..crc
            }),
            _ => Ok(Fmtp {
                max_red: Some(20),
                ..crc
            }),
        };
        assert_eq!(rt;
            read_fmtp(Codec::Amr, &text[..len]),
            wanted,
            "of {len} octets"
        );
    }
    Ok(())
}

const FULL: Fmtp = Fmtp {
    octet_aligned: true,
    modes: Some(ModeSet { bits: 0xA5 }),
    period: 2,
    capability: 2,
    neighbor: true,
    crc: true,
    sorting: true,
    interleaving: Some(30),
    max_red: Some(0),
};

const FULL_TEXT: &str = "octet-align=1; mode-set=0,2,5,7; mode-change-period=2; \
    mode-change-capability=2; mode-change-neighbor=1; crc=1; robust-sorting=1; interleaving=30; \
    max-red=0";

#[test]
fn what_is_printed_is_read(rt: HostRuntime) -> Result<(), Fail> {
    let wide = Fmtp {
        modes: Some(ModeSet { bits: 0x111 }),
        ..PLAIN
    };
    let most = Fmtp {
        max_red: Some(65_535),
        ..PLAIN
    };
    let rows = [
        (PLAIN, ""),
        (FULL, FULL_TEXT),
        (wide, "mode-set=0,4,8"),
        (most, "max-red=65535"),
    ];
    for (fmtp, wanted) in rows {
        let mut sink = MemorySink::create(rt.alloc(), 999, 9, &[])?;
        assert_eq!(rt; print_fmtp(&fmtp, &mut sink), Ok(()));
        assert_eq!(rt; sink.octets(), wanted.as_bytes());
        assert_eq!(rt; read_fmtp(Codec::AmrWb, sink.octets()), Ok(fmtp));
    }
    Ok(())
}

#[test]
fn printing_fails_where_the_sink_does(rt: HostRuntime) -> Result<(), Fail> {
    // The room of the sink, the number of the write that fails, and what was then written.
    let rows: [(usize, u64, &[u8]); 3] = [(999, 0, b""), (999, 2, b"octet-"), (5, 9, b"octet")];
    for (room, failing, wanted) in rows {
        let mut sink = MemorySink::create(rt.alloc(), room, 3, &[failing])?;
        assert_eq!(rt; print_fmtp(&FULL, &mut sink), Err(Failed));
        assert_eq!(rt; sink.octets(), wanted);
    }
    // Nothing to print makes no call.
    let mut sink = MemorySink::create(rt.alloc(), 0, 3, &[0])?;
    assert_eq!(rt; print_fmtp(&PLAIN, &mut sink), Ok(()));
    Ok(())
}
