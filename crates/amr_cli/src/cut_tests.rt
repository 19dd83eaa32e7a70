// Inputs that are cut anywhere: the status, what is put out, and the notes.
use crate::status::Status;
use crate::test_logs::{HEAD, Parts, RECORD, SEVEN, STREAM, at, join, log_of, three_packets};
use crate::tests::expect;
use std::alloc::Global;
use std::process::Abort;
use std::test::Fail;

// What a log is worked off to where it is cut in or behind so many octets, a number of whole records.
type Stop<'a> = (usize, Parts<'a>, &'a str);

// A log cut to each length: at the last of these stops with its output and its counts, and cut if it goes on behind it.
fn expect_cuts(
    rt: &(impl Abort + Alloc<A = Global>),
    line: &str,
    log: &[u8],
    stops: &[Stop<'_>],
) -> Result<(), Fail> {
    for length in 0..log.len().saturating_add(1) {
        let mut last: Stop<'_> = (0, &[], "");
        for stop in stops {
            if stop.0 <= length {
                last = *stop;
            }
        }
        let (from, wanted, counts) = last;
        let front = &log[..length.min(log.len())];
        let have = length.saturating_sub(from);
        if have == 0 {
            expect(rt, line, front, Status::Done, wanted, counts)?;
        } else {
            let notes = format!(in rt.alloc(); "{counts}truncated have={have}\n")?;
            expect(
                rt,
                line,
                front,
                Status::InputRefused,
                wanted,
                notes.as_str(),
            )?;
        }
    }
    Ok(())
}

#[test]
fn a_recording_of_a_cut_log_has_its_whole_records(rt: HostRuntime) -> Result<(), Fail> {
    let none = "packets=0 null=0 rtp=0 type=0 payload=0 place=0 late=0 copies=0 blocks=0\n";
    let one = "packets=1 null=0 rtp=0 type=0 payload=0 place=0 late=0 copies=0 blocks=1\n";
    let two = "packets=2 null=0 rtp=0 type=0 payload=0 place=0 late=0 copies=0 blocks=3\n";
    let three = "packets=3 null=0 rtp=0 type=0 payload=0 place=0 late=0 copies=0 blocks=3\n";
    let log = log_of(rt.alloc(), &[at(0, 0, SEVEN)])?;
    expect_cuts(
        &rt,
        RECORD,
        &log,
        &[
            (0, &[(HEAD, 0)], none),
            (46, &[(HEAD, 0), (&[0x3C], 31)], one),
        ],
    )?;
    let log = three_packets(rt.alloc())?;
    expect_cuts(
        &rt,
        "record --codec AMR --window 3",
        &log,
        &[
            (0, &[(HEAD, 0)], none),
            (30, &[(HEAD, 0), (&[0x14], 15)], one),
            (76, &[(HEAD, 0), (&[0x3C], 31), (&[0x7C, 0x14], 15)], two),
            (
                110,
                &[(HEAD, 0), (&[0x3C], 31), (&[0x24], 19), (&[0x14], 15)],
                three,
            ),
        ],
    )
}

#[test]
fn a_conversion_of_a_cut_log_has_its_whole_records(rt: HostRuntime) -> Result<(), Fail> {
    let none =
        "packets=0 null=0 rtp=0 type=0 payload=0 place=0 late=0 copies=0 blocks=0\nblocks=0 packets=0\n";
    let one =
        "packets=1 null=0 rtp=0 type=0 payload=0 place=0 late=0 copies=0 blocks=1\nblocks=1 packets=1\n";
    let log = log_of(rt.alloc(), &[at(0, 0, SEVEN)])?;
    let sent: Parts<'_> = &[(&[0, 45, 0x80, 0xE0], 10), (&[0xF0, 0x3C], 31)];
    let line = "convert --codec AMR --to-fmtp octet-align=1";
    expect_cuts(&rt, line, &log, &[(0, &[], none), (46, sent, one)])
}

#[test]
fn a_listing_of_a_cut_log_has_its_whole_records(rt: HostRuntime) -> Result<(), Fail> {
    let line =
        "0 44 pt=96 m=0 seq=0 ts=0 ssrc=00000000 cmr=15 mode=7 stride=1 index=0 blocks=1 frames=7/1\n";
    let whole: Parts<'_> = &[(line.as_bytes(), 0)];
    let log = log_of(rt.alloc(), &[at(0, 0, SEVEN)])?;
    expect_cuts(
        &rt,
        "list --codec AMR",
        &log,
        &[(0, &[], ""), (46, whole, "")],
    )
}

#[test]
fn a_stream_of_a_cut_file_has_its_whole_blocks(rt: HostRuntime) -> Result<(), Fail> {
    let file = join(rt.alloc(), &[(HEAD, 0), (&[0x3C], 31), (&[0x14], 15)])?;
    let one: Parts<'_> = &[(&[0, 44, 0x80, 0xE0], 10), (&[0xF3, 0xC0], 30)];
    let two: Parts<'_> = &[
        (&[0, 44, 0x80, 0xE0], 10),
        (&[0xF3, 0xC0], 30),
        (&[0, 28, 0x80, 0x60, 0, 1, 0, 0, 0, 160], 4),
        (&[0xF1, 0x40], 14),
    ];
    // From so many octets on: the status, what is put out, and the notes.
    let rows: [(usize, Status, Parts<'_>, &str); 6] = [
        (
            0,
            Status::InputRefused,
            &[],
            "blocks=0 packets=0\nrefused=T1\n",
        ),
        (6, Status::Done, &[], "blocks=0 packets=0\n"),
        (
            7,
            Status::InputRefused,
            &[],
            "blocks=0 packets=0\nrefused=T4 place=6\n",
        ),
        (38, Status::Done, one, "blocks=1 packets=1\n"),
        (
            39,
            Status::InputRefused,
            one,
            "blocks=1 packets=1\nrefused=T4 place=38\n",
        ),
        (54, Status::Done, two, "blocks=2 packets=2\n"),
    ];
    for length in 0..55usize {
        let mut last = rows[0];
        for row in rows {
            if row.0 <= length {
                last = row;
            }
        }
        let (_, status, sent, notes) = last;
        let front = &file[..length.min(file.len())];
        expect(&rt, STREAM, front, status, sent, notes)?;
    }
    Ok(())
}
