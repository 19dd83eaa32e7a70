// Logs of many records.
use crate::run::run_gateway;
use crate::status::Status;
use crate::test_logs::{HEAD, Parts, RECORD, SEVEN, at, join, log_of, record, words_of};
use crate::tests::expect;
use amr_io::{DropSink, MemorySink, MemorySource, Source};
use std::test::Fail;

#[test]
fn packets_too_far_ahead_move_nothing(rt: HostRuntime) -> Result<(), Fail> {
    let mut log = log_of(rt.alloc(), &[at(0, 0, SEVEN)])?;
    let payload = join(rt.alloc(), SEVEN)?;
    for _ in 0..1000u32 {
        record(&mut log, &at(1, 7_200_160, SEVEN), &payload)?;
    }
    let file: Parts<'_> = &[(HEAD, 0), (&[0x3C], 31)];
    let notes = "packets=1001 null=0 rtp=0 type=0 payload=0 place=1000 late=0 copies=0 blocks=1\n";
    expect(&rt, RECORD, &log, Status::Done, file, notes)
}

#[test]
fn long_gaps_take_no_memory(rt: HostRuntime) -> Result<(), Fail> {
    let mut log = Vec::new(rt.alloc());
    let payload = join(rt.alloc(), SEVEN)?;
    let mut timestamp = 0u32;
    for _ in 0..600u32 {
        record(&mut log, &at(0, timestamp, SEVEN), &payload)?;
        timestamp = timestamp.wrapping_add(7_200_000);
    }
    let words = words_of(rt.alloc(), RECORD)?;
    let mut input = MemorySource::create(rt.alloc(), &log, 99_999, &[])?;
    let mut output = DropSink::new();
    let mut told = MemorySink::create(rt.alloc(), 999, 999, &[])?;
    let ended = run_gateway(rt.alloc(), &words, &mut input, &mut output, &mut told);
    assert_eq!(rt; ended, Status::Done);
    let notes =
        "packets=600 null=0 rtp=0 type=0 payload=0 place=0 late=0 copies=0 blocks=26955001\n";
    assert_eq!(rt; told.octets(), notes.as_bytes());
    Ok(())
}

#[test]
fn a_full_sink_ends_the_reading(rt: HostRuntime) -> Result<(), Fail> {
    let mut log = Vec::new(rt.alloc());
    let payload = join(rt.alloc(), SEVEN)?;
    for number in 0..3000u16 {
        record(
            &mut log,
            &at(number, 160 * u32::from(number), SEVEN),
            &payload,
        )?;
    }
    assert_eq!(rt; log.len(), 138_000usize);
    let words = words_of(rt.alloc(), "record --codec AMR --window 1")?;
    let mut input = MemorySource::create(rt.alloc(), &log, 65_537, &[])?;
    let mut output = MemorySink::create(rt.alloc(), 6, 99_999, &[])?;
    let mut told = MemorySink::create(rt.alloc(), 999, 999, &[])?;
    let ended = run_gateway(rt.alloc(), &words, &mut input, &mut output, &mut told);
    assert_eq!(rt; ended, Status::WriteFault);
    assert_eq!(rt; output.octets(), HEAD);
    assert_eq!(rt; told.octets(), b"write fault\n".as_slice());
    // A piece of 65,537 octets was read, and at most a second one.
    let mut rest = [0u8; 100];
    let mut left = 0usize;
    for _ in 0..1400u32 {
        left = left.saturating_add(input.read(&mut rest).unwrap_or(0));
    }
    assert!(rt; left >= 72_372, "{left}");
    Ok(())
}
