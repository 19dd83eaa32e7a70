// What is out and what is noted of each command where a read, a write or a note fails.
use crate::fault_runs::{
    Case, Failing, expect_faults, expect_note_faults, expect_write_faults, run_with,
};
use crate::run::run_gateway;
use crate::status::Status;
use crate::test_logs::{
    ANSWER, FORMAT, HEAD, MAP, Parts, RECORD, SEVEN, STREAM, at, join, log_of, offer_with,
    three_packets, words_of,
};
use amr_io::{MemorySink, MemorySource, Source};
use std::alloc::Global;
use std::process::Abort;
use std::test::Fail;

#[test]
fn a_recording_is_a_front_of_its_file(rt: HostRuntime) -> Result<(), Fail> {
    let three = three_packets(rt.alloc())?;
    let file = join(
        rt.alloc(),
        &[(HEAD, 0), (&[0x3C], 31), (&[0x24], 19), (&[0x14], 15)],
    )?;
    // Whatever read fails, the header is out, and nothing has left the window.
    let reordered = Case {
        line: "record --codec AMR --window 3",
        input: &three,
        whole: &file,
        notes: "packets=3 null=0 rtp=0 type=0 payload=0 place=0 late=0 copies=0 blocks=3\n",
        early: &[(0, 6)],
    };
    expect_faults(&rt, &reordered)?;
    let gap = log_of(rt.alloc(), &[at(0, 0, SEVEN), at(1, 480, SEVEN)])?;
    let file = join(
        rt.alloc(),
        &[(HEAD, 0), (&[0x3C], 31), (&[0x7C, 0x7C, 0x3C], 31)],
    )?;
    let notes = "packets=2 null=0 rtp=0 type=0 payload=0 place=0 late=0 copies=0 blocks=4\n";
    // A window of 256 frame times keeps all back. From one of a single frame time three are out with the second record.
    for (line, early) in [
        (RECORD, [(0, 6), (92, 6)]),
        ("record --codec AMR --window 1", [(0, 6), (92, 40)]),
    ] {
        let gapped = Case {
            line,
            input: &gap,
            whole: &file,
            notes,
            early: &early,
        };
        expect_faults(&rt, &gapped)?;
    }
    Ok(())
}

// The records of the packets that are sent for frames of types 7, 4 and 2.
const SENT: Parts<'_> = &[
    (&[0, 44, 0x80, 0xE0], 10),
    (&[0xF3, 0xC0], 30),
    (&[0, 32, 0x80, 0x60, 0, 1, 0, 0, 0, 160], 4),
    (&[0xF2, 0x40], 18),
    (&[0, 28, 0x80, 0x60, 0, 2, 0, 0, 1, 0x40], 4),
    (&[0xF1, 0x40], 14),
];

#[test]
fn a_stream_has_the_packets_of_the_blocks_that_are_read(rt: HostRuntime) -> Result<(), Fail> {
    let file = join(
        rt.alloc(),
        &[(HEAD, 0), (&[0x3C], 31), (&[0x24], 19), (&[0x14], 15)],
    )?;
    let log = join(rt.alloc(), SENT)?;
    let singly = Case {
        line: STREAM,
        input: &file,
        whole: &log,
        notes: "blocks=3 packets=3\n",
        early: &[(38, 46), (58, 80), (74, 110)],
    };
    expect_faults(&rt, &singly)?;
    // A group of two packets is out with its fourth block, and the fifth block may be one of a further group.
    let sid: (&[u8], u16) = (&[0x44], 5);
    let file = join(rt.alloc(), &[(HEAD, 0), sid, sid, sid, sid, sid])?;
    let log = join(
        rt.alloc(),
        &[
            (&[0, 26, 0x80, 0x60], 10),
            (&[0xF0, 0x10, 0xC4, 0x44], 10),
            (&[0, 26, 0x80, 0x60, 0, 1, 0, 0, 0, 160], 4),
            (&[0xF0, 0x11, 0xC4, 0x44], 10),
            (&[0, 20, 0x80, 0x60, 0, 2, 0, 0, 2, 0x80], 4),
            (&[0xF0, 0, 0x44], 5),
        ],
    )?;
    let grouped = Case {
        line: "stream --codec AMR --fmtp interleaving=4 --blocks 2 --length 2",
        input: &file,
        whole: &log,
        notes: "blocks=5 packets=3\n",
        early: &[(30, 56)],
    };
    expect_faults(&rt, &grouped)
}

#[test]
fn a_conversion_has_the_packets_of_what_left_the_window(rt: HostRuntime) -> Result<(), Fail> {
    let three = three_packets(rt.alloc())?;
    let log = join(rt.alloc(), SENT)?;
    let reordered = Case {
        line: "convert --codec AMR --window 3",
        input: &three,
        whole: &log,
        notes: "packets=3 null=0 rtp=0 type=0 payload=0 place=0 late=0 copies=0 blocks=3\nblocks=3 packets=3\n",
        early: &[],
    };
    expect_faults(&rt, &reordered)?;
    // Three frame times have left the window with the second record: speech, and two without a frame.
    let gap = log_of(rt.alloc(), &[at(0, 0, SEVEN), at(1, 480, SEVEN)])?;
    let log = join(
        rt.alloc(),
        &[
            (&[0, 45, 0x80, 0xE0], 10),
            (&[0xF0, 0x3C], 31),
            (&[0, 14, 0x80, 0x60, 0, 1, 0, 0, 0, 160], 4),
            (&[0xF0, 0x7C, 0, 14, 0x80, 0x60, 0, 2, 0, 0, 1, 0x40], 4),
            (&[0xF0, 0x7C, 0, 45, 0x80, 0xE0, 0, 3, 0, 0, 1, 0xE0], 4),
            (&[0xF0, 0x3C], 31),
        ],
    )?;
    let aligned = Case {
        line: "convert --codec AMR --window 1 --to-fmtp octet-align=1",
        input: &gap,
        whole: &log,
        notes: "packets=2 null=0 rtp=0 type=0 payload=0 place=0 late=0 copies=0 blocks=4\nblocks=4 packets=4\n",
        early: &[(92, 79)],
    };
    expect_faults(&rt, &aligned)
}

#[test]
fn a_listing_has_the_lines_of_the_records_that_are_read(rt: HostRuntime) -> Result<(), Fail> {
    let three = three_packets(rt.alloc())?;
    let first: &str =
        "0 28 pt=96 m=0 seq=2 ts=320 ssrc=00000000 cmr=15 mode=7 stride=1 index=0 blocks=1 frames=2/1\n";
    let second: &str =
        "1 44 pt=96 m=0 seq=0 ts=0 ssrc=00000000 cmr=15 mode=7 stride=1 index=0 blocks=1 frames=7/1\n";
    let third: &str =
        "2 32 pt=96 m=0 seq=1 ts=160 ssrc=00000000 cmr=15 mode=7 stride=1 index=0 blocks=1 frames=4/1\n";
    let parts: Parts<'_> = &[
        (first.as_bytes(), 0),
        (second.as_bytes(), 0),
        (third.as_bytes(), 0),
    ];
    let lines = join(rt.alloc(), parts)?;
    let listed = Case {
        line: "list --codec AMR",
        input: &three,
        whole: &lines,
        notes: "",
        early: &[(30, 93), (76, 184), (110, 277)],
    };
    expect_faults(&rt, &listed)
}

#[test]
fn an_answer_is_out_when_the_offer_is_read(rt: HostRuntime) -> Result<(), Fail> {
    let offer = offer_with(rt.alloc(), MAP, FORMAT)?;
    let answered = Case {
        line: ANSWER,
        input: &offer,
        whole: b"m=audio 9 RTP/AVP 98\r\na=rtpmap:98 AMR/8000/1\r\n\
a=fmtp:98 octet-align=1; mode-set=0,2,5,7\r\na=ptime:20\r\na=maxptime:240\r\n",
        notes: "type=97 refused=codec\n",
        early: &[],
    };
    expect_faults(&rt, &answered)
}

#[test]
fn a_trial_reads_nothing(rt: HostRuntime) -> Result<(), Fail> {
    let tried = Case {
        line: "trial --codec AMR --count 0",
        input: &[1, 2, 3],
        whole: b"made=0 sent=0 lost=0 doubled=0 held=0\n\
packets=0 null=0 rtp=0 type=0 payload=0 place=0 late=0 copies=0 blocks=0\nfile=6 sum=302\n",
        notes: "",
        early: &[],
    };
    for cut in [1usize, 2, 45] {
        expect_write_faults(&rt, &tried, cut)?;
        expect_note_faults(&rt, &tried, cut)?;
        let failing = Failing {
            reads: &[0],
            writes: &[],
            notes: &[],
        };
        let ended = run_with(&rt, &tried, cut, failing)?;
        assert_eq!(rt; ended.status, Status::Done);
        assert_eq!(rt; ended.output.octets(), tried.whole);
    }
    Ok(())
}

#[test]
fn nothing_is_read_where_the_header_is_not_written(rt: HostRuntime) -> Result<(), Fail> {
    let words = words_of(rt.alloc(), RECORD)?;
    let log = log_of(rt.alloc(), &[at(0, 0, SEVEN)])?;
    let mut input = MemorySource::create(rt.alloc(), &log, 46, &[])?;
    let mut output = MemorySink::create(rt.alloc(), 99, 99, &[0])?;
    let mut told = MemorySink::create(rt.alloc(), 99, 99, &[])?;
    let ended = run_gateway(rt.alloc(), &words, &mut input, &mut output, &mut told);
    assert_eq!(rt; ended, Status::WriteFault);
    assert!(rt; output.octets().is_empty());
    let mut rest = [0u8; 99];
    assert_eq!(rt; input.read(&mut rest), Ok(46));
    Ok(())
}

// Each write of the notes fails in turn, where the run ends with this status anyway.
fn expect_status_kept(
    rt: &(impl Abort + Alloc<A = Global>),
    case: &Case<'_>,
    reads: &[u64],
    writes: &[u64],
    status: Status,
) -> Result<(), Fail> {
    let line = case.line;
    let told = case.notes.as_bytes();
    for failing in 0..told.len() {
        let calls = [failing as u64];
        let ended = run_with(
            rt,
            case,
            1,
            Failing {
                reads,
                writes,
                notes: &calls,
            },
        )?;
        assert_eq!(rt; ended.status, status, "{line}: note {failing}");
        assert_eq!(rt; ended.output.octets(), case.whole, "{line}: note {failing}");
        assert_eq!(rt;
            ended.told.octets(),
            &told[..failing],
            "{line}: note {failing}"
        );
    }
    Ok(())
}

#[test]
fn notes_that_fail_leave_every_other_status(rt: HostRuntime) -> Result<(), Fail> {
    let log = log_of(rt.alloc(), &[at(0, 0, SEVEN)])?;
    let offer = offer_with(rt.alloc(), MAP, FORMAT)?;
    let mut case = Case {
        line: "record",
        input: &log,
        whole: &[],
        notes: "usage: record, stream, convert, list, answer or trial, then pairs of an option and its value\n",
        early: &[],
    };
    expect_status_kept(&rt, &case, &[], &[], Status::Usage)?;
    case.line = RECORD;
    case.whole = HEAD;
    case.notes = "read fault\n";
    expect_status_kept(&rt, &case, &[46], &[], Status::ReadFault)?;
    case.notes = "write fault\n";
    expect_status_kept(&rt, &case, &[], &[6], Status::WriteFault)?;
    case.line = "record --codec AMR --limit 45";
    case.notes =
        "packets=0 null=0 rtp=0 type=0 payload=0 place=0 late=0 copies=0 blocks=0\nlimit reached\n";
    expect_status_kept(&rt, &case, &[], &[], Status::LimitReached)?;
    let cut = Case {
        line: RECORD,
        input: &log[..log.len().saturating_sub(1)],
        whole: HEAD,
        notes: "packets=0 null=0 rtp=0 type=0 payload=0 place=0 late=0 copies=0 blocks=0\ntruncated have=45\n",
        early: &[],
    };
    expect_status_kept(&rt, &cut, &[], &[], Status::InputRefused)?;
    let unsuited = Case {
        line: "answer --codec AMR --modes 0,2",
        input: &offer,
        whole: &[],
        notes: "type=97 refused=codec\ntype=98 refused=modes\nno answer\n",
        early: &[],
    };
    expect_status_kept(&rt, &unsuited, &[], &[], Status::NoAnswer)
}
