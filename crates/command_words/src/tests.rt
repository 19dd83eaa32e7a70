use crate::{
    AnswerWords, Command, ConvertWords, ListWords, RecordWords, StreamWords, TrialWords,
    read_command,
};
use amr_frame::Codec;
use amr_mode::ModeSet;
use media_params::Fmtp;
use std::alloc::{AllocError, Global};
use std::test::Fail;

// What the empty text of media parameters says.
const PACKED: Fmtp = Fmtp {
    octet_aligned: false,
    modes: None,
    period: 1,
    capability: 1,
    neighbor: false,
    crc: false,
    sorting: false,
    interleaving: None,
    max_red: None,
};

const PLAIN: RecordWords = RecordWords {
    codec: Codec::Amr,
    channels: 1,
    fmtp: PACKED,
    pt: None,
    limit: 1_099_511_627_776,
    window: 256,
    reach: 45_000,
    max_blocks: 64,
    strict: false,
};

const SENDING: StreamWords = StreamWords {
    codec: Codec::Amr,
    channels: 1,
    fmtp: PACKED,
    pt: 96,
    limit: 1_099_511_627_776,
    blocks: 1,
    length: 1,
    repeat: 0,
    skip_empty: false,
    cmr: 15,
    ssrc: 0,
    seq: 0,
    ts: 0,
};

// Another value of each option.
const OTHERS: StreamWords = StreamWords {
    codec: Codec::AmrWb,
    channels: 6,
    fmtp: Fmtp {
        octet_aligned: true,
        crc: true,
        modes: Some(ModeSet { bits: 0x101 }),
        ..PACKED
    },
    limit: 4,
    blocks: 64,
    length: 16,
    repeat: 63,
    skip_empty: true,
    cmr: 8,
    pt: 5,
    ssrc: 4_294_967_295,
    seq: 65_535,
    ts: 1,
};

const ANSWERING: AnswerWords = AnswerWords {
    codec: Codec::Amr,
    channels: 1,
    modes: ModeSet { bits: 0xff },
    crc: true,
    sorting: true,
    interleaving: 65_535,
    port: 9,
    limit: 65_536,
};

const LISTING: ListWords = ListWords {
    codec: Codec::Amr,
    channels: 1,
    fmtp: PACKED,
    modes: ModeSet { bits: 0xff },
    start: 7,
    pt: None,
    max_blocks: 64,
    strict: false,
    show_bits: false,
    limit: 1_099_511_627_776,
};

// What the words of a line ask, which stand between single spaces.
pub fn read(alloc: Global, line: &str) -> Result<Option<Command>, AllocError> {
    let mut words = Vec::new(alloc);
    for word in line.split(' ') {
        words.push(String::from_str(alloc, word)?)?;
    }
    Ok(read_command(&words))
}

// The first of these lines that asks anything else of `record`.
fn first_wrong<'a>(
    alloc: Global,
    rows: &[(&'a str, RecordWords)],
) -> Result<Option<&'a str>, AllocError> {
    for (line, job) in rows {
        if read(alloc, line)? != Some(Command::Record(*job)) {
            return Ok(Some(line));
        }
    }
    Ok(None)
}

#[test]
fn a_codec_is_enough(rt: HostRuntime) -> Result<(), Fail> {
    let wide = RecordWords {
        codec: Codec::AmrWb,
        ..PLAIN
    };
    let six = RecordWords {
        channels: 6,
        ..PLAIN
    };
    let rows = [
        ("record --codec AMR", PLAIN),
        ("record --codec AMR-WB", wide),
        ("record --codec AMR --channels 6", six),
    ];
    assert_eq!(rt; first_wrong(rt.alloc(), &rows)?, None);
    Ok(())
}

#[test]
fn numbers_have_up_to_thirteen_digits(rt: HostRuntime) -> Result<(), Fail> {
    let of_type = |pt: u8| RecordWords {
        pt: Some(pt),
        ..PLAIN
    };
    let limited = |limit: u64| RecordWords { limit, ..PLAIN };
    let rows = [
        ("record --codec AMR --limit 1099511627776", PLAIN),
        ("record --codec AMR --limit 1", limited(1)),
        ("record --codec AMR --pt 97", of_type(97)),
        ("record --codec AMR --pt 097", of_type(97)),
        ("record --codec AMR --pt 0", of_type(0)),
        ("record --codec AMR --pt 127", of_type(127)),
        ("record --codec AMR --pt 0000000000007", of_type(7)),
    ];
    assert_eq!(rt; first_wrong(rt.alloc(), &rows)?, None);
    Ok(())
}

#[test]
fn a_payload_has_no_more_blocks_than_the_window(rt: HostRuntime) -> Result<(), Fail> {
    let sized = |window: u16, max_blocks: u8| RecordWords {
        window,
        max_blocks,
        ..PLAIN
    };
    let reaching = |reach: u32| RecordWords { reach, ..PLAIN };
    let rows = [
        ("record --codec AMR --window 8", sized(8, 8)),
        ("record --codec AMR --window 4096", sized(4096, 64)),
        ("record --codec AMR --window 1", sized(1, 1)),
        ("record --codec AMR --max-blocks 9", sized(256, 9)),
        // Whether the window has room for a payload isn't a question of the words.
        ("record --codec AMR --window 8 --max-blocks 9", sized(8, 9)),
        ("record --max-blocks 9 --window 8 --codec AMR", sized(8, 9)),
        ("record --codec AMR --reach 1", reaching(1)),
        ("record --codec AMR --reach 45000", PLAIN),
    ];
    assert_eq!(rt; first_wrong(rt.alloc(), &rows)?, None);
    Ok(())
}

#[test]
fn a_window_has_room_for_a_group(rt: HostRuntime) -> Result<(), Fail> {
    let of_groups = |blocks: u16, window: u16, max_blocks: u8| RecordWords {
        fmtp: Fmtp {
            octet_aligned: true,
            interleaving: Some(blocks),
            ..PACKED
        },
        window,
        max_blocks,
        ..PLAIN
    };
    let rows = [
        (
            "record --codec AMR --fmtp interleaving=256",
            of_groups(256, 256, 64),
        ),
        (
            "record --codec AMR --fmtp interleaving=257",
            of_groups(257, 257, 64),
        ),
        (
            "record --fmtp interleaving=65535 --codec AMR",
            of_groups(65_535, 1024, 64),
        ),
        // Whether a given window has room for a group isn't a question of the words.
        (
            "record --codec AMR --fmtp interleaving=30 --window 8",
            of_groups(30, 8, 8),
        ),
        // A text that names no parameter.
        ("record --codec AMR --fmtp --pt", PLAIN),
    ];
    assert_eq!(rt; first_wrong(rt.alloc(), &rows)?, None);
    Ok(())
}

#[test]
fn options_stand_in_any_order(rt: HostRuntime) -> Result<(), Fail> {
    let all = RecordWords {
        codec: Codec::AmrWb,
        channels: 2,
        fmtp: PACKED,
        pt: Some(5),
        limit: 4,
        window: 6,
        reach: 2,
        max_blocks: 3,
        strict: true,
    };
    let rows = [
        (
            "record --reach 2 --max-blocks 3 --pt 5 --codec AMR-WB --strict 1 --limit 4 --window 6 --channels 2",
            all,
        ),
        (
            "record --channels 2 --window 6 --limit 4 --strict 01 --codec AMR-WB --pt 5 --max-blocks 3 --reach 2",
            all,
        ),
    ];
    assert_eq!(rt; first_wrong(rt.alloc(), &rows)?, None);
    Ok(())
}

#[test]
fn a_file_is_sent_as_the_options_say(rt: HostRuntime) -> Result<(), Fail> {
    let rows = [
        ("stream --codec AMR", SENDING),
        (
            "stream --codec AMR --pt 0",
            StreamWords { pt: 0, ..SENDING },
        ),
        (
            "stream --codec AMR --pt 127",
            StreamWords { pt: 127, ..SENDING },
        ),
        (
            "stream --codec AMR --cmr 0",
            StreamWords { cmr: 0, ..SENDING },
        ),
        // Whether the codec has the mode isn't a question of the words.
        (
            "stream --codec AMR --cmr 14",
            StreamWords { cmr: 14, ..SENDING },
        ),
        // Nor whether the format has room for the group.
        (
            "stream --codec AMR --length 2",
            StreamWords {
                length: 2,
                ..SENDING
            },
        ),
        ("stream --codec AMR --length 01", SENDING),
        (
            "stream --codec AMR --repeat 2",
            StreamWords {
                repeat: 2,
                ..SENDING
            },
        ),
        (
            "stream --skip 1 --codec AMR",
            StreamWords {
                skip_empty: true,
                ..SENDING
            },
        ),
        ("stream --codec AMR --skip 0 --repeat 0", SENDING),
        (
            "stream --codec AMR --ts 9",
            StreamWords { ts: 9, ..SENDING },
        ),
        (
            "stream --ts 1 --seq 65535 --ssrc 4294967295 --cmr 8 --skip 1 --blocks 64 --length 16 --repeat 63 --limit 4 --pt 5 --channels 6 --fmtp crc=1;mode-set=8,0 --codec AMR-WB",
            OTHERS,
        ),
    ];
    for (line, job) in rows {
        let asked = read(rt.alloc(), line)?;
        assert_eq!(rt; asked, Some(Command::Stream(job)), "of {line}");
    }
    Ok(())
}

#[test]
fn a_log_is_converted_as_the_options_say(rt: HostRuntime) -> Result<(), Fail> {
    let same = ConvertWords {
        received: PLAIN,
        sent: SENDING,
    };
    let wide = RecordWords {
        codec: Codec::AmrWb,
        channels: 2,
        fmtp: Fmtp {
            octet_aligned: true,
            crc: true,
            ..PACKED
        },
        pt: Some(97),
        limit: 1000,
        window: 300,
        reach: 100,
        max_blocks: 12,
        strict: true,
    };
    let grouped = StreamWords {
        codec: Codec::AmrWb,
        channels: 2,
        fmtp: Fmtp {
            octet_aligned: true,
            interleaving: Some(8),
            ..PACKED
        },
        pt: 98,
        limit: 1000,
        blocks: 2,
        length: 4,
        repeat: 0,
        skip_empty: true,
        cmr: 8,
        ssrc: 1,
        seq: 2,
        ts: 3,
    };
    let of_type = |pt: u8| RecordWords {
        pt: Some(pt),
        ..PLAIN
    };
    let rows = [
        ("convert --codec AMR", same),
        // The type that is read isn't that of what is sent.
        (
            "convert --codec AMR --pt 97",
            ConvertWords {
                received: of_type(97),
                ..same
            },
        ),
        (
            "convert --codec AMR --to-pt 0",
            ConvertWords {
                sent: StreamWords { pt: 0, ..SENDING },
                ..same
            },
        ),
        (
            "convert --codec AMR-WB --channels 2 --fmtp crc=1 --to-fmtp interleaving=8 --pt 97 --to-pt 98 --window 300 --reach 100 --max-blocks 12 --strict 1 --limit 1000 --blocks 2 --length 4 --repeat 0 --skip 1 --cmr 8 --ssrc 1 --ts 3 --seq 2",
            ConvertWords {
                received: wide,
                sent: grouped,
            },
        ),
    ];
    for (line, job) in rows {
        let asked = read(rt.alloc(), line)?;
        assert_eq!(rt; asked, Some(Command::Convert(job)), "of {line}");
    }
    Ok(())
}

#[test]
fn a_trial_is_made_as_the_options_say(rt: HostRuntime) -> Result<(), Fail> {
    let none = TrialWords {
        count: 0,
        seed: 0,
        sent: SENDING,
        received: PLAIN,
    };
    // What is sent has no more blocks in a payload than the window holds.
    let narrow = RecordWords {
        window: 8,
        max_blocks: 8,
        ..PLAIN
    };
    let again = StreamWords {
        codec: Codec::AmrWb,
        channels: 6,
        repeat: 1,
        ..SENDING
    };
    let wide = RecordWords {
        codec: Codec::AmrWb,
        channels: 6,
        ..PLAIN
    };
    let rows = [
        ("trial --codec AMR --count 0", none),
        (
            "trial --codec AMR --seed 7 --window 8 --count 100000",
            TrialWords {
                count: 100_000,
                seed: 7,
                received: narrow,
                ..none
            },
        ),
        (
            "trial --codec AMR-WB --count 10000 --channels 6 --repeat 1 --seed 4294967295",
            TrialWords {
                count: 10_000,
                seed: 4_294_967_295,
                sent: again,
                received: wide,
            },
        ),
    ];
    for (line, job) in rows {
        let asked = read(rt.alloc(), line)?;
        assert_eq!(rt; asked, Some(Command::Trial(job)), "of {line}");
    }
    Ok(())
}

#[test]
fn an_offer_is_answered_as_the_options_say(rt: HostRuntime) -> Result<(), Fail> {
    let wide = AnswerWords {
        codec: Codec::AmrWb,
        modes: ModeSet { bits: 0x1ff },
        ..ANSWERING
    };
    let all = AnswerWords {
        codec: Codec::AmrWb,
        channels: 6,
        modes: ModeSet { bits: 0x101 },
        crc: false,
        sorting: false,
        interleaving: 0,
        port: 65_535,
        limit: 1,
    };
    let of_modes = |bits: u16| AnswerWords {
        modes: ModeSet { bits },
        ..ANSWERING
    };
    let rows = [
        ("answer --codec AMR", ANSWERING),
        ("answer --codec AMR-WB", wide),
        // Order and repeats have no meaning, zeros may stand in front.
        ("answer --modes 7,0,007,0 --codec AMR", of_modes(0x81)),
        ("answer --codec AMR --modes 0,1,2,3,4,5,6,7", ANSWERING),
        (
            "answer --codec AMR --crc 00",
            AnswerWords {
                crc: false,
                ..ANSWERING
            },
        ),
        (
            "answer --codec AMR --sorting 0 --crc 01",
            AnswerWords {
                sorting: false,
                ..ANSWERING
            },
        ),
        (
            "answer --codec AMR --port 1",
            AnswerWords {
                port: 1,
                ..ANSWERING
            },
        ),
        (
            "answer --codec AMR --limit 65536 --interleaving 0000000000004",
            AnswerWords {
                interleaving: 4,
                ..ANSWERING
            },
        ),
        (
            "answer --limit 1 --port 65535 --interleaving 0 --sorting 0 --crc 0 --modes 8,0 --channels 6 --codec AMR-WB",
            all,
        ),
    ];
    for (line, job) in rows {
        let asked = read(rt.alloc(), line)?;
        assert_eq!(rt; asked, Some(Command::Answer(job)), "of {line}");
    }
    Ok(())
}

#[test]
fn a_log_is_listed_as_the_options_say(rt: HostRuntime) -> Result<(), Fail> {
    let wide = ListWords {
        codec: Codec::AmrWb,
        modes: ModeSet { bits: 0x1ff },
        start: 8,
        ..LISTING
    };
    let all = ListWords {
        codec: Codec::AmrWb,
        channels: 6,
        fmtp: Fmtp {
            octet_aligned: true,
            modes: Some(ModeSet { bits: 0x0a5 }),
            period: 2,
            neighbor: true,
            ..PACKED
        },
        modes: ModeSet { bits: 0x0a5 },
        start: 2,
        pt: Some(127),
        max_blocks: 1,
        strict: true,
        show_bits: true,
        limit: 1,
    };
    let rows = [
        ("list --codec AMR", LISTING),
        ("list --codec AMR-WB", wide),
        // The frames are shown by default, and the desk starts at the greatest mode that is left.
        ("list --codec AMR --show frames --start 7", LISTING),
        (
            "list --fmtp mode-set=2,0,5 --codec AMR",
            ListWords {
                fmtp: Fmtp {
                    modes: Some(ModeSet { bits: 0x25 }),
                    ..PACKED
                },
                modes: ModeSet { bits: 0x25 },
                start: 5,
                ..LISTING
            },
        ),
        (
            "list --start 0000000000000 --codec AMR",
            ListWords {
                start: 0,
                ..LISTING
            },
        ),
        // The window of a receiver is none of its options.
        ("list --codec AMR --max-blocks 64 --strict 00", LISTING),
        (
            "list --start 02 --limit 1 --show bits --strict 1 --max-blocks 1 --pt 127 --channels 6 --fmtp octet-align=1;mode-set=0,2,5,7;mode-change-period=2;mode-change-neighbor=1 --codec AMR-WB",
            all,
        ),
    ];
    for (line, job) in rows {
        let asked = read(rt.alloc(), line)?;
        assert_eq!(rt; asked, Some(Command::List(job)), "of {line}");
    }
    Ok(())
}
