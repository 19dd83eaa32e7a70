use crate::job::read_words;
use crate::status::Status;
use crate::test_logs::{HEAD, Parts, SEVEN, at, log_of, words_of};
use crate::tests::expect;
use std::test::Fail;

// The notes of one packet whose blocks were taken, and of one whose payload was refused.
const ONE: &str = "packets=1 null=0 rtp=0 type=0 payload=0 place=0 late=0 copies=0 blocks=1\n";

const THREE: &str = "packets=1 null=0 rtp=0 type=0 payload=0 place=0 late=0 copies=0 blocks=3\n";

const BAD: &str = "packets=1 null=0 rtp=0 type=0 payload=1 place=0 late=0 copies=0 blocks=0\n";

#[test]
fn formats_are_read_by_their_parameters(rt: HostRuntime) -> Result<(), Fail> {
    let two: Parts<'_> = &[(b"#!AMR_MC1.0\n", 3), (&[2], 0)];
    let bit_80: Parts<'_> = &[(HEAD, 0), (&[0x3C], 10), (&[0x80], 20)];
    let damaged: Parts<'_> = &[(HEAD, 0), (&[0x38], 10), (&[0x80], 20)];
    let bit_81: Parts<'_> = &[(HEAD, 0), (&[0x3C], 10), (&[0x40], 20)];
    let apart: Parts<'_> = &[(HEAD, 0), (&[0x44], 5), (&[0x7C, 0x44], 5)];
    let aligned: Parts<'_> = &[(HEAD, 0), (&[0x3C], 31)];
    let sorted: Parts<'_> = &[
        (HEAD, 0),
        (&[0x44, 0x11, 0x22, 0x33, 0x44, 0x54], 0),
        (&[0x3C, 0x80, 0x81], 29),
    ];
    // The words behind `record --codec AMR`, the payload of one packet, the file and the notes.
    let rows: [(&str, Parts<'_>, Parts<'_>, &str); 13] = [
        ("--fmtp octet-align=1", &[(&[0xF0, 0x3C], 31)], aligned, ONE),
        ("--fmtp octet-align=1", SEVEN, &[(HEAD, 0)], BAD),
        // The entries are no multiple of the channels, and a table isn't ended.
        (
            "--channels 2 --fmtp octet-align=1",
            &[(&[0xF0, 0xFC, 0xFC, 0x7C], 0)],
            two,
            BAD,
        ),
        (
            "--fmtp octet-align=1",
            &[(&[0xF0, 0xFC], 0)],
            &[(HEAD, 0)],
            BAD,
        ),
        // Interleaved frames, and an index past the groups.
        (
            "--fmtp interleaving=4",
            &[(&[0xF0, 0x10, 0xC4, 0x44], 10)],
            apart,
            THREE,
        ),
        (
            "--fmtp interleaving=4",
            &[(&[0xF0, 0x12, 0xC4, 0x44], 10)],
            &[(HEAD, 0)],
            BAD,
        ),
        (
            "--fmtp interleaving=3",
            &[(&[0xF0, 0x10, 0xC4, 0x44], 10)],
            &[(HEAD, 0)],
            BAD,
        ),
        ("--fmtp interleaving=4", &[(&[0xF0], 0)], &[(HEAD, 0)], BAD),
        // The CRC of a frame whose bit 80 is set, of one whose bit 81 is, and a wrong one.
        (
            "--fmtp crc=1",
            &[(&[0xF0, 0x3C, 0x1D], 10), (&[0x80], 20)],
            bit_80,
            ONE,
        ),
        (
            "--fmtp crc=1",
            &[(&[0xF0, 0x3C, 0], 10), (&[0x40], 20)],
            bit_81,
            ONE,
        ),
        (
            "--fmtp crc=1",
            &[(&[0xF0, 0x3C, 0x1C], 10), (&[0x80], 20)],
            damaged,
            ONE,
        ),
        // The octets of a SID and of a frame by turns.
        (
            "--fmtp robust-sorting=1",
            &[
                (&[0xF0, 0xC4, 0x3C, 0x11, 0x80, 0x22, 0x81, 0x33, 0], 0),
                (&[0x44, 0, 0x54, 0], 26),
            ],
            sorted,
            "packets=1 null=0 rtp=0 type=0 payload=0 place=0 late=0 copies=0 blocks=2\n",
        ),
        ("--fmtp --pt", SEVEN, aligned, ONE),
    ];
    for (options, payload, file, notes) in rows {
        let log = log_of(rt.alloc(), &[at(0, 0, payload)])?;
        let line = format!(in rt.alloc(); "record --codec AMR {options}")?;
        expect(&rt, line.as_str(), &log, Status::Done, file, notes)?;
        let other = format!(in rt.alloc(); "record {options} --codec AMR")?;
        expect(&rt, other.as_str(), &log, Status::Done, file, notes)?;
    }
    // The other packet of a group fills it.
    let log = log_of(
        rt.alloc(),
        &[
            at(0, 0, &[(&[0xF0, 0x10, 0xC4, 0x44], 10)]),
            at(1, 160, &[(&[0xF0, 0x11, 0xC4, 0x44], 10)]),
        ],
    )?;
    let four: Parts<'_> = &[
        (HEAD, 0),
        (&[0x44], 5),
        (&[0x44], 5),
        (&[0x44], 5),
        (&[0x44], 5),
    ];
    let notes = "packets=2 null=0 rtp=0 type=0 payload=0 place=0 late=0 copies=0 blocks=4\n";
    expect(
        &rt,
        "record --codec AMR --fmtp interleaving=4",
        &log,
        Status::Done,
        four,
        notes,
    )
}

#[test]
fn strict_formats_refuse_more(rt: HostRuntime) -> Result<(), Fail> {
    let frame: Parts<'_> = &[(HEAD, 0), (&[0x3C], 31)];
    let none: Parts<'_> = &[(HEAD, 0)];
    let padded: Parts<'_> = &[(&[0xF3, 0xC0], 29), (&[3], 0)];
    let asking: Parts<'_> = &[(&[0x93, 0xC0], 30)];
    let wrong: Parts<'_> = &[(&[0xF0, 0x3C, 0x1C], 10), (&[0x80], 20)];
    let sid: Parts<'_> = &[(&[0xF4, 0x40], 5)];
    // The words behind `record --codec AMR`, the payload of one packet, the file and the notes.
    let rows: [(&str, Parts<'_>, Parts<'_>, &str); 8] = [
        ("--strict 1", SEVEN, frame, ONE),
        ("--strict 1", padded, none, BAD),
        ("--strict 0", padded, frame, ONE),
        ("--strict 01", asking, none, BAD),
        ("--strict 1 --fmtp crc=1", wrong, none, BAD),
        ("--strict 1 --fmtp mode-set=0,2", SEVEN, none, BAD),
        ("--fmtp mode-set=0,2", SEVEN, frame, ONE),
        (
            "--strict 1 --fmtp mode-set=0,2",
            sid,
            &[(HEAD, 0), (&[0x44], 5)],
            ONE,
        ),
    ];
    for (options, payload, file, notes) in rows {
        let log = log_of(rt.alloc(), &[at(0, 0, payload)])?;
        let line = format!(in rt.alloc(); "record --codec AMR {options}")?;
        expect(&rt, line.as_str(), &log, Status::Done, file, notes)?;
    }
    Ok(())
}

#[test]
fn a_window_holds_a_group(rt: HostRuntime) -> Result<(), Fail> {
    let lines: [&str; 7] = [
        "record --codec AMR --window 8 --fmtp interleaving=30",
        "record --fmtp interleaving=30 --window 8 --codec AMR",
        "record --codec AMR --fmtp interleaving=300 --window 299",
        "record --codec AMR --fmtp octet-align=0;crc=1",
        "record --codec AMR --fmtp mode-set=8",
        "stream --codec AMR --fmtp crc=2",
        "stream --codec AMR --strict 0",
    ];
    for line in lines {
        let words = words_of(rt.alloc(), line)?;
        assert_eq!(rt; read_words(&words), None, "of {line}");
    }
    // The group's blocks are the window where none is given.
    let given = words_of(
        rt.alloc(),
        "record --codec AMR --window 300 --fmtp interleaving=300",
    )?;
    let greater = words_of(rt.alloc(), "record --fmtp interleaving=300 --codec AMR")?;
    assert!(rt; read_words(&given).is_some());
    assert_eq!(rt; read_words(&greater), read_words(&given));
    Ok(())
}
