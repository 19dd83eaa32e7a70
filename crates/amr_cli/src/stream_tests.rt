use crate::run::run_gateway;
use crate::status::Status;
use crate::test_logs::{HEAD, Parts, STREAM, join, words_of};
use crate::tests::expect;
use amr_io::{MemorySink, MemorySource};
use std::alloc::{AllocError, Global};
use std::process::Abort;
use std::test::Fail;

// A line of its parts.
fn line_of(alloc: Global, parts: &[&str]) -> Result<String, AllocError> {
    let mut line = String::new(alloc);
    for part in parts {
        line.push_str(part)?;
    }
    Ok(line)
}

// What these words put out for an input, at status 0.
fn put_out(
    rt: &(impl Abort + Alloc<A = Global>),
    line: &[&str],
    octets: &[u8],
) -> Result<Vec<u8>, Fail> {
    let line = line_of(rt.alloc(), line)?;
    let words = words_of(rt.alloc(), line.as_str())?;
    let mut input = MemorySource::create(rt.alloc(), octets, 7, &[])?;
    let mut output = MemorySink::create(rt.alloc(), 9_999, 99_999, &[])?;
    let mut notes = MemorySink::create(rt.alloc(), 999, 999, &[])?;
    let ended = run_gateway(rt.alloc(), &words, &mut input, &mut output, &mut notes);
    assert_eq!(rt; ended, Status::Done, "{line}");
    let mut put = Vec::new(rt.alloc());
    put.extend_from_slice(output.octets())?;
    Ok(put)
}

#[test]
fn a_file_is_sent_as_packets(rt: HostRuntime) -> Result<(), Fail> {
    // The file behind its header, the log, and the notes.
    let rows: [(Parts<'_>, Parts<'_>, &str); 4] = [
        (&[], &[], "blocks=0 packets=0\n"),
        (
            &[(&[0x3C], 31)],
            &[(&[0, 44, 0x80, 0xE0], 10), (&[0xF3, 0xC0], 30)],
            "blocks=1 packets=1\n",
        ),
        // Speech behind a frame without speech is marked, speech behind speech isn't.
        (
            &[(&[0x3C], 31), (&[0x7C, 0x3C], 31), (&[0x14], 15)],
            &[
                (&[0, 44, 0x80, 0xE0], 10),
                (&[0xF3, 0xC0], 30),
                (&[0, 14, 0x80, 0x60, 0, 1, 0, 0, 0, 160], 4),
                (&[0xF7, 0xC0, 0, 44, 0x80, 0xE0, 0, 2, 0, 0, 1, 64], 4),
                (&[0xF3, 0xC0], 30),
                (&[0, 28, 0x80, 0x60, 0, 3, 0, 0, 1, 0xE0], 4),
                (&[0xF1, 0x40], 14),
            ],
            "blocks=4 packets=4\n",
        ),
        // A descriptor of silence has no marker.
        (
            &[(&[0x44], 5)],
            &[(&[0, 19, 0x80, 0x60], 10), (&[0xF4, 0x40], 5)],
            "blocks=1 packets=1\n",
        ),
    ];
    for (frames, log, notes) in rows {
        let mut file = join(rt.alloc(), &[(HEAD, 0)])?;
        file.extend_from_slice(&join(rt.alloc(), frames)?)?;
        expect(&rt, STREAM, &file, Status::Done, log, notes)?;
    }
    Ok(())
}

#[test]
fn packets_carry_what_the_options_say(rt: HostRuntime) -> Result<(), Fail> {
    let file = join(
        rt.alloc(),
        &[
            (b"#!AMR-WB_MC1.0\n", 3),
            (&[2, 0x7C, 0x7C, 0x7C, 0x7C, 0x7C, 0x7C], 0),
        ],
    )?;
    // The number of a packet and its timestamp begin anew behind the greatest.
    expect(
        &rt,
        "stream --codec AMR-WB --channels 2 --pt 5 --blocks 2 --cmr 8 --ssrc 16909060 --seq 65535 --ts 4294967295",
        &file,
        Status::Done,
        &[
            (&[0, 16, 0x80, 5, 0xFF, 0xFF, 0xFF, 0xFF, 0xFF, 0xFF], 0),
            (&[1, 2, 3, 4, 0x8F, 0xFF, 0xFD, 0xF0], 0),
            (&[0, 14, 0x80, 5, 0, 0, 0, 0, 2, 0x7F], 0),
            (&[1, 2, 3, 4, 0x8F, 0xDF], 0),
        ],
        "blocks=3 packets=2\n",
    )?;
    // A mode of AMR-WB that AMR doesn't have may be asked of AMR-WB.
    expect(
        &rt,
        "stream --codec AMR-WB --cmr 8",
        b"#!AMR-WB\n",
        Status::Done,
        &[],
        "blocks=0 packets=0\n",
    )
}

#[test]
fn groups_are_interleaved(rt: HostRuntime) -> Result<(), Fail> {
    let mut file = join(rt.alloc(), &[(HEAD, 0)])?;
    for _ in 0..5 {
        file.extend_from_slice(&[0x44, 0, 0, 0, 0, 0])?;
    }
    // A group of two packets, of blocks 0 and 2 and of blocks 1 and 3, and the block that is left.
    expect(
        &rt,
        "stream --codec AMR --fmtp interleaving=4 --blocks 2 --length 2",
        &file,
        Status::Done,
        &[
            (&[0, 26, 0x80, 0x60], 10),
            (&[0xF0, 0x10, 0xC4, 0x44], 10),
            (&[0, 26, 0x80, 0x60, 0, 1, 0, 0, 0, 160], 4),
            (&[0xF0, 0x11, 0xC4, 0x44], 10),
            (&[0, 20, 0x80, 0x60, 0, 2, 0, 0, 2, 0x80], 4),
            (&[0xF0, 0, 0x44], 5),
        ],
        "blocks=5 packets=3\n",
    )?;
    // A group of one packet is no interleaving, whatever the format.
    expect(
        &rt,
        "stream --codec AMR --length 1 --blocks 5",
        &file,
        Status::Done,
        &[
            (&[0, 41, 0x80, 0x60], 10),
            (&[0xFC, 0x71, 0xC7, 0x14, 0x40], 24),
        ],
        "blocks=5 packets=1\n",
    )
}

// Frames of AMR in a file: speech of mode 7, a descriptor of silence, and none.
const SPEECH: Parts<'_> = &[(&[0x3C], 31)];

const SILENCE: Parts<'_> = &[(&[0x44], 5)];

const NOTHING: Parts<'_> = &[(&[0x7C], 0)];

// A call: 50 frames of speech, a silence of a descriptor, seven frames that are none and another
// descriptor, and 20 frames of speech.
fn a_call(alloc: Global) -> Result<Vec<u8>, AllocError> {
    let mut file = join(alloc, &[(HEAD, 0)])?;
    let runs: [(usize, Parts<'_>); 5] = [
        (50, SPEECH),
        (1, SILENCE),
        (7, NOTHING),
        (1, SILENCE),
        (20, SPEECH),
    ];
    for (count, frame) in runs {
        for _ in 0..count {
            file.extend_from_slice(&join(alloc, frame)?)?;
        }
    }
    Ok(file)
}

// More records than the logs here have.
const MANY: usize = 999;

// A log without its records of these numbers.
fn without(alloc: Global, log: &[u8], gone: &[usize]) -> Result<Vec<u8>, AllocError> {
    let mut left = Vec::new(alloc);
    let mut rest = log;
    for number in 0..MANY {
        let [high, low, ..] = rest else {
            break;
        };
        let whole = 2 + usize::from(*high) * 256 + usize::from(*low);
        let (record, more) = rest.split_at(whole.min(rest.len()));
        if !gone.contains(&number) {
            left.extend_from_slice(record)?;
        }
        rest = more;
    }
    Ok(left)
}

// How many records a log has.
fn records(log: &[u8]) -> usize {
    let mut rest = log;
    for number in 0..MANY {
        let [high, low, ..] = rest else {
            return number;
        };
        let whole = 2 + usize::from(*high) * 256 + usize::from(*low);
        rest = rest.split_at(whole.min(rest.len())).1;
    }
    MANY
}

#[test]
fn what_is_lost_is_in_another_packet(rt: HostRuntime) -> Result<(), Fail> {
    let file = a_call(rt.alloc())?;
    assert_eq!(rt; file.len(), 2_265);
    // Where packets without a frame are left out, six are: the first of the silence repeats its
    // descriptor. The packets of blocks 10, 30 and 60 stand behind those.
    let rows = [
        ("stream --codec AMR --repeat 1", 79, [10, 30, 60]),
        ("stream --codec AMR --repeat 1 --skip 1", 73, [10, 30, 54]),
    ];
    for (line, count, gone) in rows {
        let log = put_out(&rt, &[line], &file)?;
        assert_eq!(rt; records(&log), count, "{line}");
        let left = without(rt.alloc(), &log, &gone)?;
        assert_eq!(rt; records(&left), count - 3, "{line}");
        let again = put_out(&rt, &["record --codec AMR"], &left)?;
        assert_eq!(rt; again.as_slice(), file.as_slice(), "{line}");
    }
    Ok(())
}

#[test]
fn frames_that_are_none_are_skipped(rt: HostRuntime) -> Result<(), Fail> {
    let none = "blocks=0 packets=0\n";
    let file = join(
        rt.alloc(),
        &[(HEAD, 0), (&[0x7C, 0x7C, 0x44], 5), (&[0x7C, 0x7C], 0)],
    )?;
    // Packets of two: the first has no frame, and the second ends with its one.
    expect(
        &rt,
        "stream --codec AMR --blocks 2 --skip 1",
        &file,
        Status::Done,
        &[
            (&[0, 19, 0x80, 0x60, 0, 0, 0, 0, 1, 0x40], 4),
            (&[0xF4, 0x40], 5),
        ],
        "blocks=5 packets=1\n",
    )?;
    // A frame of type 15 whose quality is bad is one that is sent.
    let bad = join(rt.alloc(), &[(HEAD, 0), (&[0x78], 0)])?;
    expect(
        &rt,
        "stream --codec AMR --skip 1",
        &bad,
        Status::Done,
        &[(&[0, 14, 0x80, 0x60], 10), (&[0xF7, 0x80], 0)],
        "blocks=1 packets=1\n",
    )?;
    let empty = join(rt.alloc(), &[(HEAD, 0)])?;
    expect(
        &rt,
        "stream --codec AMR --skip 1",
        &empty,
        Status::Done,
        &[],
        none,
    )
}

#[test]
fn the_end_of_a_file_has_its_status(rt: HostRuntime) -> Result<(), Fail> {
    let two = "stream --codec AMR --channels 2";
    let wide: Parts<'_> = &[(b"#!AMR_MC1.0\n", 3), (&[2, 0x44], 5), (&[0x7C], 0)];
    let short = "stream --codec AMR --limit 6";
    let none = "blocks=0 packets=0\n";
    // The words, the file, the status and the notes; nothing is put out.
    let rows: [(&str, Parts<'_>, Status, &str); 8] = [
        (
            STREAM,
            &[(b"#!AMR", 0)],
            Status::InputRefused,
            "blocks=0 packets=0\nrefused=T1\n",
        ),
        (
            STREAM,
            &[(b"#!AMR-WB\n", 0)],
            Status::InputRefused,
            "blocks=0 packets=0\nrefused=T1\n",
        ),
        (
            STREAM,
            wide,
            Status::InputRefused,
            "blocks=0 packets=0\nrefused=T2 chan=2\n",
        ),
        (
            STREAM,
            &[(HEAD, 0), (&[0x4C], 0)],
            Status::InputRefused,
            "blocks=0 packets=0\nrefused=T3 place=6 ft=9\n",
        ),
        (
            STREAM,
            &[(HEAD, 0), (&[0x3C, 0], 0)],
            Status::InputRefused,
            "blocks=0 packets=0\nrefused=T4 place=6\n",
        ),
        (
            two,
            &[(b"#!AMR_MC1.0\n", 3), (&[2, 0x7C], 0)],
            Status::InputRefused,
            "blocks=0 packets=0\nrefused=T5 place=16\n",
        ),
        (short, &[(HEAD, 0)], Status::Done, none),
        (
            short,
            &[(HEAD, 0), (&[0x3C], 31)],
            Status::LimitReached,
            "blocks=0 packets=0\nlimit reached\n",
        ),
    ];
    for (line, parts, status, notes) in rows {
        let file = join(rt.alloc(), parts)?;
        expect(&rt, line, &file, status, &[], notes)?;
    }
    // What stands before a refused frame is sent.
    let file = join(rt.alloc(), &[(HEAD, 0), (&[0x44], 5), (&[0x4C], 0)])?;
    expect(
        &rt,
        STREAM,
        &file,
        Status::InputRefused,
        &[(&[0, 19, 0x80, 0x60], 10), (&[0xF4, 0x40], 5)],
        "blocks=1 packets=1\nrefused=T3 place=12 ft=9\n",
    )
}

// Sends a file by each of these options, and compares what is recorded of its log.
fn expect_back(
    rt: &(impl Abort + Alloc<A = Global>),
    codec: &str,
    parts: Parts<'_>,
) -> Result<(), Fail> {
    let file = join(rt.alloc(), parts)?;
    let options = [
        "",
        " --blocks 3 --ts 4294967000 --seq 65530 --cmr 7",
        " --blocks 64",
    ];
    for more in options {
        let log = put_out(rt, &["stream --codec ", codec, more], &file)?;
        let again = put_out(rt, &["record --codec ", codec], &log)?;
        assert_eq!(rt; again.as_slice(), file.as_slice(), "{codec}{more}");
    }
    Ok(())
}

#[test]
fn a_file_comes_back_from_its_log(rt: HostRuntime) -> Result<(), Fail> {
    // Each type of frame that AMR has, good or bad, and silence in between and around.
    expect_back(
        &rt,
        "AMR",
        &[
            (HEAD, 0),
            (&[0x7C, 4], 12),
            (&[8, 0xFF], 12),
            (&[0x14], 15),
            (&[0x18, 0x80], 16),
            (&[0x24], 19),
            (&[0x28], 20),
            (&[0x34], 26),
            (&[0x3C, 0x55], 30),
            (&[0x44, 9], 4),
            (&[0x7C, 0x7C, 0x7C, 0x40], 5),
            (&[0x78], 0),
        ],
    )?;
    // Lost speech, and descriptors of AMR-WB.
    expect_back(
        &rt,
        "AMR-WB",
        &[
            (b"#!AMR-WB\n", 0),
            (&[0x74, 0x70, 0x7C, 0x4C], 5),
            (&[4], 17),
            (&[0x48], 5),
            (&[0x74], 0),
        ],
    )
}
