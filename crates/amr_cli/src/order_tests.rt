// Records in any order, and records that are refused between others.
use crate::run::run_gateway;
use crate::status::Status;
use crate::test_logs::{HEAD, Parts, SEVEN, at, join, log_of, words_of};
use crate::tests::expect;
use amr_io::{MemorySink, MemorySource};
use std::alloc::Global;
use std::process::Abort;
use std::test::Fail;

const LINE: &str = "record --codec AMR --window 3";

const FOUR: Parts<'_> = &[(&[0xF2, 0x40], 18)];

const TWO: Parts<'_> = &[(&[0xF1, 0x40], 14)];

// The file of three frame times of frames of types 7, 4 and 2.
const FILE: Parts<'_> = &[(HEAD, 0), (&[0x3C], 31), (&[0x24], 19), (&[0x14], 15)];

#[test]
fn three_packets_in_any_order_are_one_file(rt: HostRuntime) -> Result<(), Fail> {
    let (first, second, third) = (at(0, 0, SEVEN), at(1, 160, FOUR), at(2, 320, TWO));
    let orders = [
        [first, second, third],
        [first, third, second],
        [second, first, third],
        [second, third, first],
        [third, first, second],
        [third, second, first],
    ];
    let notes = "packets=3 null=0 rtp=0 type=0 payload=0 place=0 late=0 copies=0 blocks=3\n";
    for packets in orders {
        let log = log_of(rt.alloc(), &packets)?;
        expect(&rt, LINE, &log, Status::Done, FILE, notes)?;
    }
    Ok(())
}

// What a log is recorded as, with octets in pieces of a size.
fn expect_file(
    rt: &(impl Abort + Alloc<A = Global>),
    log: &[u8],
    count: &str,
    cut: usize,
) -> Result<(), Fail> {
    let words = words_of(rt.alloc(), LINE)?;
    let wanted = join(rt.alloc(), FILE)?;
    let mut input = MemorySource::create(rt.alloc(), log, cut.max(1), &[])?;
    let mut output = MemorySink::create(rt.alloc(), 999, 999, &[])?;
    let mut told = MemorySink::create(rt.alloc(), 999, 999, &[])?;
    let ended = run_gateway(rt.alloc(), &words, &mut input, &mut output, &mut told);
    assert_eq!(rt; ended, Status::Done);
    assert_eq!(rt; output.octets(), wanted.as_slice(), "{count}");
    assert!(rt; told.octets().starts_with(b"packets=4 null=0 "), "{count}");
    let noted = std::str::from_utf8(told.octets()).unwrap_or("");
    assert!(rt; noted.contains(count), "{count}");
    Ok(())
}

#[test]
fn refused_records_change_no_octet(rt: HostRuntime) -> Result<(), Fail> {
    let three: [Parts<'_>; 3] = [
        &[
            (&[0, 28, 0x80, 0x60, 0, 2, 0, 0, 1, 0x40], 4),
            (&[0xF1, 0x40], 14),
        ],
        &[(&[0, 44, 0x80, 0x60], 10), (&[0xF3, 0xC0], 30)],
        &[
            (&[0, 32, 0x80, 0x60, 0, 1, 0, 0, 0, 160], 4),
            (&[0xF2, 0x40], 18),
        ],
    ];
    // A record, and what the notes count of it: an octet too many, a timestamp off the grid, another source, a packet that is
    // too short, of another version, with a source, an extension and padding that aren't there, and with more padding than octets.
    let rows: [(Parts<'_>, &str); 9] = [
        (
            &[(&[0, 45, 0x80, 0x60], 10), (&[0xF3, 0xC0], 31)],
            " payload=1 ",
        ),
        (
            &[
                (&[0, 44, 0x80, 0x60, 0, 0, 0, 0, 0, 0x61], 4),
                (&[0xF3, 0xC0], 30),
            ],
            " place=1 ",
        ),
        (
            &[(
                &[
                    0, 44, 0x80, 0x60, 0, 0, 0, 0, 0, 160, 0, 0, 0, 1, 0xF3, 0xC0,
                ],
                30,
            )],
            " place=1 ",
        ),
        (&[(&[0, 11, 0x80, 0x60], 9)], " rtp=1 "),
        (&[(&[0, 12, 0x40, 0x60], 10)], " rtp=1 "),
        (&[(&[0, 12, 0x81, 0x60], 10)], " rtp=1 "),
        (&[(&[0, 12, 0x90, 0x60], 10)], " rtp=1 "),
        (&[(&[0, 12, 0xA0, 0x60], 10)], " rtp=1 "),
        (&[(&[0, 13, 0xA0, 0x60], 11)], " rtp=1 "),
    ];
    for (refused, count) in rows {
        let between = join(rt.alloc(), refused)?;
        for place in 0..3usize {
            let mut log = Vec::new(rt.alloc());
            for (number, parts) in three.into_iter().enumerate() {
                log.extend_from_slice(&join(rt.alloc(), parts)?)?;
                if number == place {
                    log.extend_from_slice(&between)?;
                }
            }
            for cut in [1usize, 45, 999] {
                expect_file(&rt, &log, count, cut)?;
            }
        }
    }
    Ok(())
}
