use crate::run::run_gateway;
use crate::status::Status;
use crate::test_logs::{HEAD, Parts, RECORD, SEVEN, at, join, log_of, three_packets, words_of};
use amr_io::{MemorySink, MemorySource};
use std::alloc::Global;
use std::process::Abort;
use std::test::Fail;

// Room for the longest file here.
const ROOM: usize = 46_000;

// Runs these words over the input in pieces of each size, and compares the status, what is put out
// and the notes.
pub fn expect(
    rt: &(impl Abort + Alloc<A = Global>),
    line: &str,
    log: &[u8],
    status: Status,
    file: Parts<'_>,
    notes: &str,
) -> Result<(), Fail> {
    let words = words_of(rt.alloc(), line)?;
    let wanted = join(rt.alloc(), file)?;
    for cut in [1usize, 2, 13, 45, 99_999] {
        let mut input = MemorySource::create(rt.alloc(), log, cut, &[])?;
        let mut output = MemorySink::create(rt.alloc(), ROOM, cut, &[])?;
        let mut told = MemorySink::create(rt.alloc(), 999, cut, &[])?;
        let ended = run_gateway(rt.alloc(), &words, &mut input, &mut output, &mut told);
        assert_eq!(rt; ended, status, "{line} at {cut}");
        assert_eq!(rt; output.octets(), wanted.as_slice(), "{line} at {cut}");
        assert_eq!(rt; told.octets(), notes.as_bytes(), "{line} at {cut}");
    }
    Ok(())
}

// The same of the plain command, at status 0.
fn recorded(
    rt: &(impl Abort + Alloc<A = Global>),
    log: &[u8],
    file: Parts<'_>,
    notes: &str,
) -> Result<(), Fail> {
    expect(rt, RECORD, log, Status::Done, file, notes)
}

#[test]
fn a_packet_gives_its_frame(rt: HostRuntime) -> Result<(), Fail> {
    // The payloads of one packet, the octets behind the header of the file, and the notes but for `packets` and `null`.
    let good = "packets=1 null=0 rtp=0 type=0 payload=0 place=0 late=0 copies=0 blocks=1\n";
    let bad = "packets=1 null=0 rtp=0 type=0 payload=1 place=0 late=0 copies=0 blocks=0\n";
    let rows: [(Parts<'_>, Parts<'_>, &str); 8] = [
        (&[(&[0xF3, 0xC0], 30)], &[(HEAD, 0), (&[0x3C], 31)], good),
        // The pad bits are passed over.
        (
            &[(&[0xF3, 0xC0], 29), (&[3], 0)],
            &[(HEAD, 0), (&[0x3C], 31)],
            good,
        ),
        // An octet too many, and one too few.
        (&[(&[0xF3, 0xC0], 31)], &[(HEAD, 0)], bad),
        (&[(&[0xF2, 0x40], 17)], &[(HEAD, 0)], bad),
        // A quality bit that is clear.
        (&[(&[0xF2, 0x40], 18)], &[(HEAD, 0), (&[0x24], 19)], good),
        // No octet, a reserved type, a table that isn't ended.
        (&[], &[(HEAD, 0)], bad),
        (&[(&[0xF4, 0xC0], 0)], &[(HEAD, 0)], bad),
        (&[(&[0xF3], 0)], &[(HEAD, 0)], bad),
    ];
    for (payload, file, notes) in rows {
        let log = log_of(rt.alloc(), &[at(0, 0, payload)])?;
        recorded(&rt, &log, file, notes)?;
    }
    expect(
        &rt,
        RECORD,
        &[],
        Status::Done,
        &[(HEAD, 0)],
        "packets=0 null=0 rtp=0 type=0 payload=0 place=0 late=0 copies=0 blocks=0\n",
    )?;

    // A SID of AMR-WB, and a type that AMR-WB reserves.
    let wide = "record --codec AMR-WB";
    let log = log_of(rt.alloc(), &[at(0, 0, &[(&[0xF4, 0xC0], 5)])])?;
    expect(
        &rt,
        wide,
        &log,
        Status::Done,
        &[(b"#!AMR-WB\n", 0), (&[0x4C], 5)],
        good,
    )?;
    let log = log_of(rt.alloc(), &[at(0, 0, &[(&[0xF5, 0x40], 0)])])?;
    expect(&rt, wide, &log, Status::Done, &[(b"#!AMR-WB\n", 0)], bad)?;

    // Two channels: a SID, and NO_DATA.
    let log = log_of(rt.alloc(), &[at(0, 0, &[(&[0xFC, 0x5F], 5)])])?;
    expect(
        &rt,
        "record --channels 2 --codec AMR",
        &log,
        Status::Done,
        &[(b"#!AMR_MC1.0\n", 3), (&[2, 0x44], 5), (&[0x7C], 0)],
        good,
    )
}

#[test]
fn packets_go_out_in_their_order(rt: HostRuntime) -> Result<(), Fail> {
    let log = three_packets(rt.alloc())?;
    expect(
        &rt,
        "record --codec AMR --window 3",
        &log,
        Status::Done,
        &[(HEAD, 0), (&[0x3C], 31), (&[0x24], 19), (&[0x14], 15)],
        "packets=3 null=0 rtp=0 type=0 payload=0 place=0 late=0 copies=0 blocks=3\n",
    )?;
    // With a window of one block the two that come behind are late.
    expect(
        &rt,
        "record --window 1 --codec AMR",
        &log,
        Status::Done,
        &[(HEAD, 0), (&[0x14], 15)],
        "packets=3 null=0 rtp=0 type=0 payload=0 place=0 late=2 copies=0 blocks=1\n",
    )?;
    // Frame times for which nothing came.
    let log = log_of(rt.alloc(), &[at(0, 0, SEVEN), at(1, 480, SEVEN)])?;
    let notes = "packets=2 null=0 rtp=0 type=0 payload=0 place=0 late=0 copies=0 blocks=4\n";
    recorded(
        &rt,
        &log,
        &[(HEAD, 0), (&[0x3C], 31), (&[0x7C, 0x7C, 0x3C], 31)],
        notes,
    )?;
    // Two blocks in a payload, and the same where a payload may have one.
    let log = log_of(rt.alloc(), &[at(0, 0, &[(&[0xFF, 0xDF], 0)])])?;
    let notes = "packets=1 null=0 rtp=0 type=0 payload=0 place=0 late=0 copies=0 blocks=2\n";
    recorded(&rt, &log, &[(HEAD, 0), (&[0x7C, 0x7C], 0)], notes)?;
    let line = "record --codec AMR --max-blocks 1";
    let notes = "packets=1 null=0 rtp=0 type=0 payload=1 place=0 late=0 copies=0 blocks=0\n";
    expect(&rt, line, &log, Status::Done, &[(HEAD, 0)], notes)
}

#[test]
fn the_best_copy_is_kept(rt: HostRuntime) -> Result<(), Fail> {
    // Speech without quality, a SID, and speech of a lower type: the last is the best, in whatever order they come.
    let poor: Parts<'_> = &[(&[0xF3, 0x80], 30)];
    let sid: Parts<'_> = &[(&[0xF4, 0x40], 5)];
    let good: Parts<'_> = &[(&[0xF1, 0x40], 14)];
    let orders: [[Parts<'_>; 3]; 6] = [
        [poor, sid, good],
        [poor, good, sid],
        [sid, poor, good],
        [sid, good, poor],
        [good, poor, sid],
        [good, sid, poor],
    ];
    for [a, b, c] in orders {
        let log = log_of(rt.alloc(), &[at(0, 0, a), at(0, 0, b), at(0, 0, c)])?;
        let notes = "packets=3 null=0 rtp=0 type=0 payload=0 place=0 late=0 copies=2 blocks=1\n";
        recorded(&rt, &log, &[(HEAD, 0), (&[0x14], 15)], notes)?;
    }
    // Of equal frames the one with the greater bits.
    let none: Parts<'_> = &[(&[0xF3, 0xC0], 30)];
    let some: Parts<'_> = &[(&[0xF3, 0xC0], 29), (&[4], 0)];
    for [a, b] in [[none, some], [some, none]] {
        let log = log_of(rt.alloc(), &[at(0, 0, a), at(0, 0, b)])?;
        let notes = "packets=2 null=0 rtp=0 type=0 payload=0 place=0 late=0 copies=1 blocks=1\n";
        recorded(&rt, &log, &[(HEAD, 0), (&[0x3C], 30), (&[0x10], 0)], notes)?;
    }
    Ok(())
}

#[test]
fn places_wrap_and_are_refused(rt: HostRuntime) -> Result<(), Fail> {
    let one: Parts<'_> = &[(HEAD, 0), (&[0x3C], 31)];
    let two: Parts<'_> = &[(HEAD, 0), (&[0x3C], 31), (&[0x3C], 31)];
    let whole = "packets=2 null=0 rtp=0 type=0 payload=0 place=0 late=0 copies=0 blocks=2\n";
    let refused = "packets=2 null=0 rtp=0 type=0 payload=0 place=1 late=0 copies=0 blocks=1\n";
    // The timestamps of two packets, the file and the notes.
    let rows: [(u32, u32, Parts<'_>, &str); 8] = [
        (0xFFFF_FFC0, 0x60, two, whole),
        (0xFFFF_FFC0, 0x61, one, refused),
        (0x60, 0xFFFF_FFC0, two, whole),
        (0x7FFF_FFFF, 0x8000_009F, two, whole),
        (0x8000_009F, 0x7FFF_FFFF, two, whole),
        (0, 7_200_160, one, refused),
        (0, 0x7FFF_FFE0, one, refused),
        (0xFFFF_FF60, 0, two, whole),
    ];
    for (a, b, file, notes) in rows {
        let log = log_of(rt.alloc(), &[at(0, a, SEVEN), at(1, b, SEVEN)])?;
        recorded(&rt, &log, file, notes)?;
    }
    // A packet of another source, and one behind a packet that was refused as too far ahead.
    let mut stranger = at(1, 160, SEVEN);
    stranger.ssrc = 1;
    let log = log_of(rt.alloc(), &[at(0, 0, SEVEN), stranger])?;
    recorded(&rt, &log, one, refused)?;
    let log = log_of(
        rt.alloc(),
        &[at(0, 0, SEVEN), at(1, 7_200_160, SEVEN), at(2, 160, SEVEN)],
    )?;
    let notes = "packets=3 null=0 rtp=0 type=0 payload=0 place=1 late=0 copies=0 blocks=2\n";
    recorded(&rt, &log, two, notes)
}

#[test]
fn a_source_that_starts_anew_is_heard_again(rt: HostRuntime) -> Result<(), Fail> {
    let one: Parts<'_> = &[(HEAD, 0), (&[0x3C], 31)];
    let two: Parts<'_> = &[(HEAD, 0), (&[0x3C], 31), (&[0x3C], 31)];
    let begun = "packets=3 null=0 rtp=0 type=0 payload=0 place=1 late=0 copies=0 blocks=2\n";
    let apart = "packets=3 null=0 rtp=0 type=0 payload=0 place=2 late=0 copies=0 blocks=1\n";
    // The sequence numbers and timestamps of the second and the third packet, the file and the notes.
    let rows: [(u16, u32, u16, u32, Parts<'_>, &str); 4] = [
        (1, 161, 2, 321, two, begun),
        (1, 161, 3, 321, one, apart),
        (1, 7_200_160, 2, 7_200_320, two, begun),
        (65_535, 161, 0, 321, two, begun),
    ];
    for (a, early, b, late, file, notes) in rows {
        let log = log_of(
            rt.alloc(),
            &[at(0, 0, SEVEN), at(a, early, SEVEN), at(b, late, SEVEN)],
        )?;
        recorded(&rt, &log, file, notes)?;
    }
    // The new segment goes on, and a packet of another source doesn't break the sequence.
    let log = log_of(
        rt.alloc(),
        &[
            at(0, 0, SEVEN),
            at(1, 161, SEVEN),
            at(2, 321, SEVEN),
            at(3, 481, SEVEN),
        ],
    )?;
    let notes = "packets=4 null=0 rtp=0 type=0 payload=0 place=1 late=0 copies=0 blocks=3\n";
    recorded(
        &rt,
        &log,
        &[(HEAD, 0), (&[0x3C], 31), (&[0x3C], 31), (&[0x3C], 31)],
        notes,
    )?;
    let mut stranger = at(9, 160, SEVEN);
    stranger.ssrc = 1;
    let log = log_of(
        rt.alloc(),
        &[
            at(0, 0, SEVEN),
            at(1, 161, SEVEN),
            stranger,
            at(2, 321, SEVEN),
        ],
    )?;
    let notes = "packets=4 null=0 rtp=0 type=0 payload=0 place=2 late=0 copies=0 blocks=2\n";
    recorded(&rt, &log, two, notes)
}

#[test]
fn a_long_gap_is_filled(rt: HostRuntime) -> Result<(), Fail> {
    let words = words_of(rt.alloc(), RECORD)?;
    let log = log_of(rt.alloc(), &[at(0, 0, SEVEN), at(1, 7_200_000, SEVEN)])?;
    let mut input = MemorySource::create(rt.alloc(), &log, 13, &[])?;
    let mut output = MemorySink::create(rt.alloc(), ROOM, 99_999, &[])?;
    let mut notes = MemorySink::create(rt.alloc(), 999, 999, &[])?;
    let ended = run_gateway(rt.alloc(), &words, &mut input, &mut output, &mut notes);
    assert_eq!(rt; ended, Status::Done);
    let octets = output.octets();
    assert_eq!(rt; octets.len(), 45_069usize);
    let mut empty = 0u32;
    for octet in octets {
        if *octet == 0x7C && empty < 99_999 {
            empty += 1;
        }
    }
    assert_eq!(rt; empty, 44_999u32);
    Ok(())
}

#[test]
fn headers_are_read_whole(rt: HostRuntime) -> Result<(), Fail> {
    let bad = "packets=1 null=0 rtp=1 type=0 payload=0 place=0 late=0 copies=0 blocks=0\n";
    // A contributing source, an extension of one word, and four octets of padding.
    let whole: [Parts<'_>; 1] = [&[
        (&[0, 60, 0xB1, 0x60], 14),
        (&[0xBE, 0xDE, 0, 1], 4),
        (&[0xF3, 0xC0], 33),
        (&[4], 0),
    ]];
    for record in whole {
        let log = join(rt.alloc(), record)?;
        let notes = "packets=1 null=0 rtp=0 type=0 payload=0 place=0 late=0 copies=0 blocks=1\n";
        recorded(&rt, &log, &[(HEAD, 0), (&[0x3C], 31)], notes)?;
    }
    // Too short, another version, sources, an extension and padding that don't fit.
    let refused: [Parts<'_>; 6] = [
        &[(&[0, 11, 0x80, 0x60], 9)],
        &[(&[0, 12, 0x40, 0x60], 10)],
        &[(&[0, 12, 0x81, 0x60], 10)],
        &[(&[0, 12, 0x90, 0x60], 10)],
        &[(&[0, 12, 0xA0, 0x60], 10)],
        &[(&[0, 13, 0xA0, 0x60], 11)],
    ];
    for record in refused {
        let log = join(rt.alloc(), record)?;
        recorded(&rt, &log, &[(HEAD, 0)], bad)?;
    }
    // Another payload type than the asked one.
    let log = log_of(rt.alloc(), &[at(0, 0, &[(&[0xF3, 0xC0], 30)])])?;
    let line = "record --codec AMR --pt 97";
    let notes = "packets=1 null=0 rtp=0 type=1 payload=0 place=0 late=0 copies=0 blocks=0\n";
    expect(&rt, line, &log, Status::Done, &[(HEAD, 0)], notes)
}

#[test]
fn the_end_of_a_log_has_its_status(rt: HostRuntime) -> Result<(), Fail> {
    let none = "packets=0 null=0 rtp=0 type=0 payload=0 place=0 late=0 copies=0 blocks=0\n";
    let cut =
        "packets=0 null=0 rtp=0 type=0 payload=0 place=0 late=0 copies=0 blocks=0\ntruncated have=1\n";
    let limited =
        "packets=0 null=0 rtp=0 type=0 payload=0 place=0 late=0 copies=0 blocks=0\nlimit reached\n";
    let nulls = "packets=7 null=7 rtp=0 type=0 payload=0 place=0 late=0 copies=0 blocks=0\n";
    let passed =
        "packets=7 null=7 rtp=0 type=0 payload=0 place=0 late=0 copies=0 blocks=0\nlimit reached\n";
    let cut_behind =
        "packets=7 null=7 rtp=0 type=0 payload=0 place=0 late=0 copies=0 blocks=0\ntruncated have=1\n";
    // The words, so many zeros, the status and the notes.
    let rows: [(&str, u16, Status, &str); 6] = [
        ("record --codec AMR --limit 1", 0, Status::Done, none),
        ("record --codec AMR --limit 1", 1, Status::InputRefused, cut),
        (
            "record --codec AMR --limit 1",
            2,
            Status::LimitReached,
            limited,
        ),
        ("record --codec AMR --limit 14", 14, Status::Done, nulls),
        (
            "record --codec AMR --limit 14",
            15,
            Status::LimitReached,
            passed,
        ),
        ("record --codec AMR", 15, Status::InputRefused, cut_behind),
    ];
    for (line, zeros, status, notes) in rows {
        let log = join(rt.alloc(), &[(&[], zeros)])?;
        expect(&rt, line, &log, status, &[(HEAD, 0)], notes)?;
    }
    Ok(())
}

#[test]
fn other_words_are_a_usage_fault(rt: HostRuntime) -> Result<(), Fail> {
    let log = log_of(rt.alloc(), &[at(0, 0, &[(&[0xF3, 0xC0], 30)])])?;
    let lines: [&str; 29] = [
        "",
        "record",
        "record --codec",
        "record --codec amr",
        "Record --codec AMR",
        "list --codec AMR --window 3",
        "record --codec=AMR",
        "record --codec AMR --codec AMR",
        "record --codec AMR --blocks 2",
        "record --codec AMR --window 1 --max-blocks 2",
        "record --codec AMR --channels 7",
        "record --codec AMR --limit 00000000000007",
        "stream",
        "stream --codec AMR --window 3",
        "stream --codec AMR --blocks 0",
        "stream --codec AMR --blocks 65",
        "stream --codec AMR --pt 128",
        "stream --codec AMR --cmr 8",
        "stream --codec AMR-WB --cmr 9",
        "stream --codec AMR --length 17",
        // Groups are of a format with interleaving, which has room for them, and repeat no block.
        "stream --codec AMR --length 2",
        "stream --codec AMR --fmtp octet-align=1 --length 2",
        "stream --codec AMR --fmtp interleaving=4 --blocks 3 --length 2",
        "stream --codec AMR --fmtp interleaving=4 --blocks 5",
        "stream --codec AMR --fmtp interleaving=4 --blocks 1 --length 2 --repeat 1",
        "stream --codec AMR --blocks 64 --repeat 1",
        "stream --codec AMR --repeat 64",
        "stream --codec AMR --skip 2",
        "record --codec AMR --fmtp interleaving=4 --length 2",
    ];
    for line in lines {
        expect(
            &rt,
            line,
            &log,
            Status::Usage,
            &[],
            "usage: record, stream, convert, list, answer or trial, then pairs of an option and its value\n",
        )?;
    }
    Ok(())
}
