ghost use Rattle.std.specs.Prelude.{◌≡◌, ◌≤◌, ◌^◌};

use crate::{RunEnd, SendPlan, StreamJob, stream_file};
use amr_frame::{Codec, Profile};
use amr_io::{MemorySink, MemorySource};
use amr_store::StoreRefusal;
use std::alloc::Global;
use std::process::Abort;
use std::test::Fail;

// A plan of AMR, with so many blocks a packet.
fn plan(channels: u8, blocks: u8) -> SendPlan {
    SendPlan {
        cmr: 15,
        pt: 96,
        seq: 0,
        ts: 0,
        ssrc: 0,
        blocks,
        profile: Profile::plain(Codec::Amr, channels),
        length: 1,
        repeat: 0,
        skip_empty: false,
    }
}

// The outside of a run: how many octets a read gives at most, and the reads and writes that fail.
#[derive(Clone, Copy, Debug)]
struct Outside<'a> {
    cut: usize,
    reads: &'a [u64],
    writes: &'a [u64],
}

// An outside without faults.
fn calm(cut: usize) -> Outside<'static> {
    Outside {
        cut,
        reads: &[],
        writes: &[],
    }
}

// Streams a file, and compares the end, the log, and the counts of blocks and packets.
fn expect(
    rt: &(impl Abort + Alloc<A = Global>),
    plan: SendPlan,
    limit: u64,
    file: &[u8],
    outside: &Outside<'_>,
    wanted: (RunEnd, &[u8], Option<(u64, u64)>),
) -> Result<(), Fail> {
    if let Err(_) = plan.check() {
        panic!(rt; "the plan is valid");
    }
    let job = StreamJob {
        plan,
        limit: limit.clamp(1, 1 << 40),
    };
    let mut input = MemorySource::create(rt.alloc(), file, outside.cut.max(1), outside.reads)?;
    let mut output = MemorySink::create(rt.alloc(), 999, 9, outside.writes)?;
    let report = stream_file(rt.alloc(), &job, &mut input, &mut output);
    let (end, log, counts) = wanted;
    let cut = outside.cut;
    assert_eq!(rt; report.end, end, "at limit {limit}, cut {cut}");
    assert_eq!(rt; output.octets(), log, "at limit {limit}, cut {cut}");
    if let Some(counts) = counts {
        assert_eq!(rt; (report.counts.blocks, report.counts.sent), counts);
    }
    Ok(())
}

// Two packets of two blocks of NO_DATA, and one of a block.
const LOG: [u8; 48] = [
    0, 14, 0x80, 0x60, 0, 0, 0, 0, 0, 0, 0, 0, 0, 0, 0xFF, 0xDF, // blocks 0 and 1
    0, 14, 0x80, 0x60, 0, 1, 0, 0, 1, 0x40, 0, 0, 0, 0, 0xFF, 0xDF, // blocks 2 and 3
    0, 14, 0x80, 0x60, 0, 2, 0, 0, 2, 0x80, 0, 0, 0, 0, 0xF7, 0xC0, // block 4
];

#[test]
fn a_frame_of_speech_is_one_packet(rt: HostRuntime) -> Result<(), Fail> {
    let mut file = [0u8; 38];
    file[..7].copy_from_slice(b"#!AMR\n\x3C");
    let mut log = [0u8; 46];
    log[..4].copy_from_slice(&[0, 44, 0x80, 0xE0]);
    log[14..16].copy_from_slice(&[0xF3, 0xC0]);
    for cut in [1usize, 7, 99] {
        let outside = calm(cut);
        let wanted = (RunEnd::Done, log.as_slice(), Some((1, 1)));
        expect(&rt, plan(1, 1), 1 << 40, &file, &outside, wanted)?;
    }
    Ok(())
}

#[test]
fn blocks_before_the_end_of_a_file_are_sent(rt: HostRuntime) -> Result<(), Fail> {
    use StoreRefusal::*;
    let done = RunEnd::Done;
    let full = RunEnd::LimitReached;
    let magic = RunEnd::File(Magic);
    let two = RunEnd::File(Channels { chan: 2 });
    let reserved = |place| RunEnd::File(Reserved { place, ft: 9 });
    let cut = |place| RunEnd::File(Truncated { place });
    let rest = RunEnd::File(BlockRest { place: 16 });
    // The file, the channels, the limit, the end, the octets put out of the log, and the counts.
    let rows: [(&[u8], u8, u64, RunEnd, usize, (u64, u64)); 16] = [
        (b"#!AMR\n|||||", 1, 99, done, 48, (5, 3)),
        (b"#!AMR\n||||", 1, 99, done, 32, (4, 2)),
        (b"#!AMR\n", 1, 6, done, 0, (0, 0)),
        (b"#!AMR\n|", 1, 6, full, 0, (0, 0)),
        (b"#!AMR\n|||||", 1, 10, full, 32, (4, 2)),
        (b"#!AMR\n|||||L", 1, 11, full, 48, (5, 3)),
        (b"#!AMR", 1, 99, magic, 0, (0, 0)),
        (b"#!AMR-WB\n", 1, 99, magic, 0, (0, 0)),
        (
            b"#!AMR_MC1.0\n\0\0\0\x02D\0\0\0\0\0|",
            1,
            99,
            two,
            0,
            (0, 0),
        ),
        (b"#!AMR\nL", 1, 99, reserved(6), 0, (0, 0)),
        (b"#!AMR\n<\0", 1, 99, cut(6), 0, (0, 0)),
        (b"#!AMR_MC1.0\n\0\0\0\x02|", 2, 99, rest, 0, (0, 0)),
        (b"#!AMR\n|||||L|", 1, 99, reserved(11), 48, (5, 3)),
        (b"#!AMR\n||||L|", 1, 11, reserved(10), 32, (4, 2)),
        (b"#!AMR\n|||||<\0", 1, 99, cut(11), 48, (5, 3)),
        (b"#!AMR\n||||<", 1, 99, cut(10), 32, (4, 2)),
    ];
    for (file, channels, limit, end, len, counts) in rows {
        for cut in [1usize, 2, 3, 7, 99] {
            let outside = calm(cut);
            let wanted = (end, &LOG[..len.min(48)], Some(counts));
            expect(&rt, plan(channels, 2), limit, file, &outside, wanted)?;
        }
    }
    Ok(())
}

#[test]
fn what_the_octets_read_begin_is_out_where_a_read_fails(rt: HostRuntime) -> Result<(), Fail> {
    for cut in [1usize, 2, 3, 7] {
        for number in 0..20u64 {
            let read = (number as usize * cut).min(11);
            let outside = Outside {
                reads: &[number],
                ..calm(cut)
            };
            // The end of the file is one read more.
            let failed = number as usize * cut < 11 + cut;
            let begun = (read.max(6) - 6) / 2 * 16;
            let wanted = match failed {
                true => (RunEnd::ReadFault, &LOG[..begun.min(48)], None),
                false => (RunEnd::Done, LOG.as_slice(), Some((5, 3))),
            };
            expect(&rt, plan(1, 2), 99, b"#!AMR\n|||||", &outside, wanted)?;
        }
    }
    Ok(())
}

#[test]
fn a_front_of_the_log_is_out_where_a_write_fails(rt: HostRuntime) -> Result<(), Fail> {
    // Nine octets are written at a time. What waits is written before each read and at the end, so
    // that one packet is where each octet is read by itself, and else both that are whole.
    let rows: [(usize, [usize; 6]); 2] = [
        (1, [0, 9, 16, 25, 32, 41]),
        (99, [0, 9, 18, 27, 32, 41]),
    ];
    for (cut, fronts) in rows {
        for number in 0..7u64 {
            let outside = Outside {
                writes: &[number],
                ..calm(cut)
            };
            let wanted = match fronts.get(number as usize) {
                Some(front) => (RunEnd::WriteFault, &LOG[..(*front).min(48)], None),
                None => (RunEnd::Done, LOG.as_slice(), Some((5, 3))),
            };
            expect(&rt, plan(1, 2), 99, b"#!AMR\n|||||", &outside, wanted)?;
        }
    }
    Ok(())
}

#[test]
fn a_block_has_a_frame_of_each_channel(rt: HostRuntime) -> Result<(), Fail> {
    let outside = calm(5);
    let end = RunEnd::File(StoreRefusal::BlockRest { place: 18 });
    let log: &[u8] = &[0, 14, 0x80, 0x60, 0, 0, 0, 0, 0, 0, 0, 0, 0, 0, 0xFF, 0xDF];
    let wanted = (end, log, Some((1, 1)));
    expect(
        &rt,
        plan(2, 1),
        99,
        b"#!AMR_MC1.0\n\0\0\0\x02|||",
        &outside,
        wanted,
    )
}
