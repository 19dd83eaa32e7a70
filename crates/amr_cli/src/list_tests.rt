use crate::job::read_words;
use crate::status::Status;
use crate::test_logs::{Parts, SEVEN, at, log_of, words_of};
use crate::tests::expect;
use std::alloc::Global;
use std::process::Abort;
use std::test::Fail;

// What stands in each line behind the number and the length of a record of type 96.
const ZEROS: &str = "pt=96 m=0 seq=0 ts=0 ssrc=00000000";

// Lists a log of one payload behind a header of type 96, and compares what stands behind the head.
fn listed(
    rt: &(impl Abort + Alloc<A = Global>),
    options: &str,
    payload: Parts<'_>,
    told: &str,
) -> Result<(), Fail> {
    let log = log_of(rt.alloc(), &[at(0, 0, payload)])?;
    let length = log.len().max(2) - 2;
    let line = format!(in rt.alloc(); "list --codec AMR {options}")?;
    let text = format!(in rt.alloc(); "0 {length} {ZEROS} {told}\n")?;
    expect(
        rt,
        line.as_str(),
        &log,
        Status::Done,
        &[(text.as_bytes(), 0)],
        "",
    )
}

#[test]
fn payloads_are_listed_by_words(rt: HostRuntime) -> Result<(), Fail> {
    let seven = "cmr=15 mode=7 stride=1 index=0 blocks=1 frames=7/1";
    let lower = "cmr=15 mode=2 stride=1 index=0 blocks=1 frames=7/1";
    let noise: Parts<'_> = &[(&[0xF0, 0x44, 0xAB, 0x00, 0x0C, 0xFF, 0x11], 0)];
    // The words behind `list --codec AMR`, the payload of one packet, and what is listed of it.
    let rows: [(&str, Parts<'_>, &str); 13] = [
        ("--show frames", SEVEN, seven),
        ("--pt 96", SEVEN, seven),
        ("--pt 97", SEVEN, "refused=type"),
        (
            "--strict 0",
            &[(&[0xF3, 0xC0], 31)],
            "refused=P10 need=32 have=33",
        ),
        ("--channels 2", SEVEN, "refused=P7 entries=1"),
        (
            "--max-blocks 1 --fmtp octet-align=1",
            &[(&[0xF0, 0xC4, 0x44], 10)],
            "refused=P6",
        ),
        (
            "--show bits --fmtp octet-align=1",
            noise,
            "cmr=15 mode=7 stride=1 index=0 blocks=1 frames=8/1\nbits 0 ab000cff10",
        ),
        (
            "--strict 1 --fmtp octet-align=1",
            noise,
            "refused=P11 octet=6",
        ),
        ("--strict 1", &[(&[0x93, 0xC0], 30)], "refused=P12 cmr=9"),
        (
            "--strict 1 --fmtp mode-set=0,2",
            SEVEN,
            "refused=P13 entry=0 ft=7",
        ),
        ("--start 2", SEVEN, lower),
        ("--fmtp mode-set=2,0", SEVEN, lower),
        ("--start 2 --fmtp mode-set=0,2,5", SEVEN, lower),
    ];
    for (options, payload, told) in rows {
        listed(&rt, options, payload, told)?;
    }
    Ok(())
}

#[test]
fn modes_are_listed_by_words(rt: HostRuntime) -> Result<(), Fail> {
    let asking: Parts<'_> = &[(&[0x03, 0xC0], 30)];
    let log = log_of(
        rt.alloc(),
        &[at(0, 0, asking), at(0, 0, SEVEN), at(0, 0, SEVEN)],
    )?;
    let near = "list --codec AMR --fmtp mode-set=0,2,5,7;mode-change-neighbor=1";
    let slow =
        "list --fmtp mode-set=0,2,5,7;mode-change-neighbor=1;mode-change-period=2 --codec AMR";
    for (line, modes) in [(near, [5, 2, 0]), (slow, [5, 5, 2])] {
        let [first, second, third] = modes;
        let text = format!(in rt.alloc();
            "0 44 {ZEROS} cmr=0 mode={first} stride=1 index=0 blocks=1 frames=7/1\n\
             1 44 {ZEROS} cmr=15 mode={second} stride=1 index=0 blocks=1 frames=7/1\n\
             2 44 {ZEROS} cmr=15 mode={third} stride=1 index=0 blocks=1 frames=7/1\n"
        )?;
        expect(&rt, line, &log, Status::Done, &[(text.as_bytes(), 0)], "")?;
    }
    Ok(())
}

#[test]
fn listings_end_as_their_logs_do(rt: HostRuntime) -> Result<(), Fail> {
    let one: Parts<'_> = &[(b"0 0 null\n", 0)];
    let cut = "truncated have=1\n";
    let line = "list --codec AMR";
    expect(&rt, line, &[], Status::Done, &[], "")?;
    expect(&rt, line, &[0; 3], Status::InputRefused, one, cut)?;
    let short = "list --codec AMR --limit 2";
    expect(&rt, short, &[0; 2], Status::Done, one, "")?;
    expect(
        &rt,
        short,
        &[0; 3],
        Status::LimitReached,
        one,
        "limit reached\n",
    )?;
    // The desk starts at a mode that the parameters leave, whatever the order of the words.
    let lines: [&str; 4] = [
        "list --codec AMR --start 8",
        "list --codec AMR --fmtp mode-set=0,2 --start 1",
        "list --start 7 --fmtp mode-set=0,2 --codec AMR",
        "list --codec AMR --show all",
    ];
    for line in lines {
        let words = words_of(rt.alloc(), line)?;
        assert_eq!(rt; read_words(&words), None, "of {line}");
    }
    Ok(())
}
