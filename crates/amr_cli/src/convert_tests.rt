use crate::status::Status;
use crate::test_logs::{Parts, SEVEN, at, join, log_of};
use crate::tests::expect;
use std::alloc::Global;
use std::process::Abort;
use std::test::Fail;

// Converts two packets of speech between which two frame times are missing.
fn gap_converted(
    rt: &(impl Abort + Alloc<A = Global>),
    line: &str,
    log: Parts<'_>,
    sent: &str,
) -> Result<(), Fail> {
    let two = log_of(rt.alloc(), &[at(0, 0, SEVEN), at(3, 480, SEVEN)])?;
    let notes = format!(in rt.alloc();
        "packets=2 null=0 rtp=0 type=0 payload=0 place=0 late=0 copies=0 blocks=4\n{sent}\n"
    )?;
    expect(rt, line, &two, Status::Done, log, notes.as_str())
}

#[test]
fn a_log_goes_into_another_format(rt: HostRuntime) -> Result<(), Fail> {
    let log = log_of(rt.alloc(), &[at(0, 0, SEVEN)])?;
    expect(
        &rt,
        "convert --codec AMR --to-fmtp octet-align=1",
        &log,
        Status::Done,
        &[(&[0, 45, 0x80, 0xE0], 10), (&[0xF0, 0x3C], 31)],
        "packets=1 null=0 rtp=0 type=0 payload=0 place=0 late=0 copies=0 blocks=1\nblocks=1 packets=1\n",
    )?;
    // The packets are those of the options, whatever those that came were.
    let other = log_of(rt.alloc(), &[at(7, 99, &[(&[0xF0, 0x3C], 31)])])?;
    expect(
        &rt,
        "convert --fmtp octet-align=1 --codec AMR --to-pt 5 --seq 258 --ts 3 --ssrc 4 --cmr 2",
        &other,
        Status::Done,
        &[(
            &[0, 44, 0x80, 0x85, 1, 2, 0, 0, 0, 3, 0, 0, 0, 4, 0x23, 0xC0],
            30,
        )],
        "packets=1 null=0 rtp=0 type=0 payload=0 place=0 late=0 copies=0 blocks=1\nblocks=1 packets=1\n",
    )
}

#[test]
fn what_is_missing_is_sent_as_no_data_or_left_out(rt: HostRuntime) -> Result<(), Fail> {
    gap_converted(
        &rt,
        "convert --codec AMR",
        &[
            (&[0, 44, 0x80, 0xE0], 10),
            (&[0xF3, 0xC0], 30),
            (&[0, 14, 0x80, 0x60, 0, 1, 0, 0, 0, 160], 4),
            (&[0xF7, 0xC0, 0, 14, 0x80, 0x60, 0, 2, 0, 0, 1, 0x40], 4),
            (&[0xF7, 0xC0, 0, 44, 0x80, 0xE0, 0, 3, 0, 0, 1, 0xE0], 4),
            (&[0xF3, 0xC0], 30),
        ],
        "blocks=4 packets=4",
    )?;
    gap_converted(
        &rt,
        "convert --codec AMR --skip 1",
        &[
            (&[0, 44, 0x80, 0xE0], 10),
            (&[0xF3, 0xC0], 30),
            (&[0, 44, 0x80, 0xE0, 0, 1, 0, 0, 1, 0xE0], 4),
            (&[0xF3, 0xC0], 30),
        ],
        "blocks=4 packets=2",
    )
}

#[test]
fn a_conversion_ends_as_its_log_does(rt: HostRuntime) -> Result<(), Fail> {
    let line = "convert --codec AMR";
    let none =
        "packets=0 null=0 rtp=0 type=0 payload=0 place=0 late=0 copies=0 blocks=0\nblocks=0 packets=0\n";
    expect(&rt, line, &[], Status::Done, &[], none)?;
    let one: Parts<'_> = &[(&[0, 44, 0x80, 0xE0], 10), (&[0xF3, 0xC0], 30)];
    let mut cut = log_of(rt.alloc(), &[at(0, 0, SEVEN)])?;
    cut.push(0)?;
    expect(
        &rt,
        line,
        &cut,
        Status::InputRefused,
        one,
        "packets=1 null=0 rtp=0 type=0 payload=0 place=0 late=0 copies=0 blocks=1\nblocks=1 packets=1\ntruncated have=1\n",
    )?;
    expect(
        &rt,
        "convert --codec AMR --limit 46",
        &cut,
        Status::LimitReached,
        one,
        "packets=1 null=0 rtp=0 type=0 payload=0 place=0 late=0 copies=0 blocks=1\nblocks=1 packets=1\nlimit reached\n",
    )?;
    // Plans that aren't valid, of what is received and of what is sent, give no job.
    let log = join(rt.alloc(), &[(&[0, 0], 0)])?;
    let lines = [
        "convert --codec AMR --window 8 --fmtp interleaving=30",
        "convert --codec AMR --fmtp interleaving=4 --length 2",
        "convert --codec AMR --blocks 64 --repeat 1",
        "convert --codec AMR --cmr 8",
    ];
    for line in lines {
        expect(
            &rt,
            line,
            &log,
            Status::Usage,
            &[],
            "usage: record, stream, convert, list, answer or trial, then pairs of an option and its value\n",
        )?;
    }
    Ok(())
}
