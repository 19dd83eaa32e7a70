use crate::{ConvertJob, RunEnd, SendPlan, convert_log};
use amr_frame::{Codec, Profile};
use amr_io::{MemorySink, MemorySource};
use amr_playout::Plan;
use std::alloc::{AllocError, Global};
use std::process::Abort;
use std::test::Fail;

// Octets by parts: some octets, and so many zeros behind them.
type Parts<'a> = &'a [(&'a [u8], u16)];

// A frame of 12.2 kbit/s and a SID, each alone in a bandwidth-efficient payload.
const SEVEN: Parts<'static> = &[(&[0xF3, 0xC0], 30)];

const SID: Parts<'static> = &[(&[0xF4, 0x40], 5)];

// The record of the octet-aligned packet with the first frame of 12.2 kbit/s, which begins a
// talkspurt.
const FIRST: (&[u8], u16) = (
    &[0, 45, 0x80, 0xE0, 0, 0, 0, 0, 0, 0, 0, 0, 0, 0, 0xF0, 0x3C],
    31,
);

// The same of the next one.
const SECOND: (&[u8], u16) = (
    &[
        0, 45, 0x80, 0x60, 0, 1, 0, 0, 0, 0xA0, 0, 0, 0, 0, 0xF0, 0x3C,
    ],
    31,
);

fn join(alloc: Global, parts: Parts<'_>) -> Result<Vec<u8>, AllocError> {
    let mut all = Vec::new(alloc);
    for (octets, zeros) in parts {
        all.extend_from_slice(octets)?;
        for _ in 0..*zeros {
            all.push(0)?;
        }
    }
    Ok(all)
}

// A log of packets of source 0 with these sequence numbers, timestamps and payloads.
fn log_of(alloc: Global, packets: &[(u8, u32, Parts<'_>)]) -> Result<Vec<u8>, AllocError> {
    let mut log = Vec::new(alloc);
    for (sequence, timestamp, parts) in packets {
        let payload = join(alloc, parts)?;
        let length = payload.len().min(999) as u16 + 12;
        log.extend_from_slice(&length.to_be_bytes())?;
        log.extend_from_slice(&[0x80, 0x60, 0, *sequence])?;
        log.extend_from_slice(&timestamp.to_be_bytes())?;
        log.extend_from_slice(&[0, 0, 0, 0])?;
        log.extend_from_slice(&payload)?;
    }
    Ok(log)
}

// Octet-aligned payloads of one channel.
fn aligned(interleaving: Option<u16>) -> Profile {
    let mut profile = Profile::plain(Codec::Amr, 1);
    profile.octet_aligned = true;
    profile.interleaving = interleaving;
    profile
}

// From bandwidth-efficient payloads to these, with so many blocks a packet.
fn job_of(window: u16, profile: Profile, blocks: u8) -> ConvertJob {
    let mut received = Profile::plain(Codec::Amr, 1);
    received.max_blocks = window.min(64) as u8;
    ConvertJob {
        plan: Plan {
            profile: received,
            window,
            reach: 45_000,
        },
        pt: None,
        to: SendPlan {
            profile,
            blocks,
            length: 1,
            repeat: 0,
            skip_empty: false,
            pt: 96,
            cmr: 15,
            ssrc: 0,
            seq: 0,
            ts: 0,
        },
        limit: 1 << 40,
    }
}

// How the outside behaves: at most so many octets a call, and the calls that fail.
#[derive(Clone, Copy)]
struct Outside<'a> {
    read_cut: usize,
    write_cut: usize,
    reads: &'a [u64],
    writes: &'a [u64],
}

// An outside without faults.
fn calm(read_cut: usize) -> Outside<'static> {
    Outside {
        read_cut,
        write_cut: 999,
        reads: &[],
        writes: &[],
    }
}

// What is wanted of a run: its end, the log that is put out, and how many records were refused a
// place, blocks were released and packets sent.
#[derive(Clone, Copy)]
struct Wanted<'a> {
    end: RunEnd,
    log: &'a [u8],
    counts: Option<(u64, u64, u64)>,
}

// Converts a log, and compares what came of it.
fn expect(
    rt: &(impl Abort + Alloc<A = Global>),
    asked: &ConvertJob,
    log: &[u8],
    outside: &Outside<'_>,
    wanted: &Wanted<'_>,
) -> Result<(), Fail> {
    let mut job = *asked;
    job.limit = job.limit.clamp(1, 1 << 40);
    job.to.profile.codec = job.plan.profile.codec;
    job.to.profile.channels = job.plan.profile.channels;
    if let Err(_) = job.plan.check() {
        panic!(rt; "the plan is valid");
    }
    if let Err(_) = job.to.check() {
        panic!(rt; "the plan of sending is valid");
    }
    let cut = outside.read_cut.max(1);
    let mut input = MemorySource::create(rt.alloc(), log, cut, outside.reads)?;
    let most = outside.write_cut.max(1);
    let mut output = MemorySink::create(rt.alloc(), 9_999, most, outside.writes)?;
    let report = convert_log(rt.alloc(), &job, &mut input, &mut output);
    assert_eq!(rt; report.end, wanted.end, "at {cut}");
    assert_eq!(rt; output.octets(), wanted.log, "at {cut}");
    if let Some(counts) = wanted.counts {
        let got = (
            report.counts.place,
            report.counts.blocks,
            report.counts.sent,
        );
        assert_eq!(rt; got, counts, "at {cut}");
    }
    Ok(())
}

// Converts a log to its end, however its reads are cut.
fn expect_all(
    rt: &(impl Abort + Alloc<A = Global>),
    job: &ConvertJob,
    packets: &[(u8, u32, Parts<'_>)],
    sent: Parts<'_>,
    counts: (u64, u64, u64),
) -> Result<(), Fail> {
    let log = log_of(rt.alloc(), packets)?;
    let all = join(rt.alloc(), sent)?;
    let wanted = Wanted {
        end: RunEnd::Done,
        log: &all,
        counts: Some(counts),
    };
    for cut in [1usize, 7, 9_999] {
        expect(rt, job, &log, &calm(cut), &wanted)?;
    }
    Ok(())
}

#[test]
fn packed_payloads_become_aligned(rt: HostRuntime) -> Result<(), Fail> {
    let job = job_of(256, aligned(None), 1);
    expect_all(&rt, &job, &[(0, 0, SEVEN)], &[FIRST], (0, 1, 1))?;
    expect_all(&rt, &job, &[], &[], (0, 0, 0))
}

// Records of octet-aligned packets with blocks 0 to 3, with 0 to 2 and with 3; blocks 1 and 2 are
// NO_DATA, so that the last one begins a talkspurt.
const FOUR: (&[u8], u16) = (
    &[
        0, 79, 0x80, 0xE0, 0, 0, 0, 0, 0, 0, 0, 0, 0, 0, 0xF0, 0xBC, 0xFC, 0xFC, 0x3C,
    ],
    62,
);

const THREE: (&[u8], u16) = (
    &[
        0, 47, 0x80, 0xE0, 0, 0, 0, 0, 0, 0, 0, 0, 0, 0, 0xF0, 0xBC, 0xFC, 0x7C,
    ],
    31,
);

const LAST: (&[u8], u16) = (
    &[
        0, 45, 0x80, 0xE0, 0, 1, 0, 0, 1, 0xE0, 0, 0, 0, 0, 0xF0, 0x3C,
    ],
    31,
);

#[test]
fn gaps_are_filled(rt: HostRuntime) -> Result<(), Fail> {
    for packets in [
        [(0u8, 0u32, SEVEN), (1, 480, SEVEN)],
        [(0, 480, SEVEN), (1, 0, SEVEN)],
    ] {
        let one_packet = job_of(256, aligned(None), 4);
        expect_all(&rt, &one_packet, &packets, &[FOUR], (0, 4, 1))?;
        let two_packets = job_of(256, aligned(None), 3);
        expect_all(&rt, &two_packets, &packets, &[THREE, LAST], (0, 4, 2))?;
    }
    Ok(())
}

#[test]
fn blocks_go_into_groups(rt: HostRuntime) -> Result<(), Fail> {
    let mut job = job_of(256, aligned(Some(4)), 2);
    job.to.length = 2;
    expect_all(
        &rt,
        &job,
        &[
            (0, 0, SID),
            (1, 160, SID),
            (2, 320, SID),
            (3, 480, SID),
            (4, 640, SID),
        ],
        &[
            (&[0x00, 0x1A, 0x80, 0x60, 0, 0], 8),
            (&[0xF0, 0x10, 0xC4, 0x44], 10),
            (&[0x00, 0x1A, 0x80, 0x60, 0, 1, 0, 0, 0, 0xA0], 4),
            (&[0xF0, 0x11, 0xC4, 0x44], 10),
            (&[0x00, 0x14, 0x80, 0x60, 0, 2, 0, 0, 0x02, 0x80], 4),
            (&[0xF0, 0x00, 0x44], 5),
        ],
        (0, 5, 3),
    )
}

// The record of the packet that carries block 0 again and block 1.
const BOTH: (&[u8], u16) = (
    &[
        0, 77, 0x80, 0xE0, 0, 1, 0, 0, 0, 0, 0, 0, 0, 0, 0xF0, 0xBC, 0x3C,
    ],
    62,
);

#[test]
fn blocks_are_sent_again_and_gaps_left_out(rt: HostRuntime) -> Result<(), Fail> {
    let mut again = job_of(256, aligned(None), 1);
    again.to.repeat = 1;
    let next = [(0u8, 0u32, SEVEN), (1, 160, SEVEN)];
    expect_all(&rt, &again, &next, &[FIRST, BOTH], (0, 2, 2))?;
    // Blocks 1 and 2 are NO_DATA, and packets of these alone aren't sent.
    let mut skipping = job_of(256, aligned(None), 1);
    skipping.to.skip_empty = true;
    let apart = [(0u8, 0u32, SEVEN), (1, 480, SEVEN)];
    expect_all(&rt, &skipping, &apart, &[FIRST, LAST], (0, 4, 2))
}

#[test]
fn segments_are_sent_behind_one_another(rt: HostRuntime) -> Result<(), Fail> {
    // The second packet stands off the grid; with the third, which is next in sequence, a segment
    // begins.
    expect_all(
        &rt,
        &job_of(256, aligned(None), 1),
        &[(0, 0, SEVEN), (1, 161, SEVEN), (2, 321, SEVEN)],
        &[FIRST, SECOND],
        (1, 2, 2),
    )
}

#[test]
fn whole_records_are_converted_at_each_end(rt: HostRuntime) -> Result<(), Fail> {
    let both = log_of(rt.alloc(), &[(0, 0, SEVEN), (1, 160, SEVEN)])?;
    let first = join(rt.alloc(), &[FIRST])?;
    let mut job = job_of(256, aligned(None), 1);
    let cut = Wanted {
        end: RunEnd::LogCut { have: 1 },
        log: &first,
        counts: Some((0, 1, 1)),
    };
    let Some(longer) = both.get(..47) else {
        panic!(&rt; "the log has two records of 46 octets");
    };
    expect(&rt, &job, longer, &calm(9), &cut)?;
    job.limit = 46;
    let full = Wanted {
        end: RunEnd::LimitReached,
        log: &first,
        counts: Some((0, 1, 1)),
    };
    expect(&rt, &job, &both, &calm(9), &full)?;
    // Seven records without octets.
    job.limit = 14;
    let none = Wanted {
        end: RunEnd::Done,
        log: &[],
        counts: Some((0, 0, 0)),
    };
    expect(&rt, &job, &[0; 14], &calm(9), &none)
}

#[test]
fn what_left_the_window_is_out_at_a_read_fault(rt: HostRuntime) -> Result<(), Fail> {
    let packets = [(0u8, 0u32, SEVEN), (1, 160, SEVEN), (2, 320, SEVEN)];
    let log = log_of(rt.alloc(), &packets)?;
    let job = job_of(1, aligned(None), 1);
    let nothing: Parts<'_> = &[];
    let one: Parts<'_> = &[FIRST];
    let two: Parts<'_> = &[FIRST, SECOND];
    // A read gives one record; this is the number of the one that fails.
    for (failing, sent) in [(0u64, nothing), (1, nothing), (2, one), (3, two)] {
        let out = join(rt.alloc(), sent)?;
        let outside = Outside {
            read_cut: 46,
            write_cut: 9,
            reads: &[failing],
            writes: &[],
        };
        let wanted = Wanted {
            end: RunEnd::ReadFault,
            log: &out,
            counts: None,
        };
        expect(&rt, &job, &log, &outside, &wanted)?;
    }
    Ok(())
}

#[test]
fn a_front_is_out_at_a_write_fault(rt: HostRuntime) -> Result<(), Fail> {
    let log = log_of(rt.alloc(), &[(0, 0, SEVEN)])?;
    let all = join(rt.alloc(), &[FIRST])?;
    let job = job_of(256, aligned(None), 1);
    // A write takes 20 octets; this is the number of the one that fails.
    for (failing, out) in [(0u64, 0usize), (1, 20), (2, 40)] {
        let outside = Outside {
            read_cut: 99,
            write_cut: 20,
            reads: &[],
            writes: &[failing],
        };
        let Some(front) = all.get(..out) else {
            panic!(&rt; "a record has 47 octets");
        };
        let wanted = Wanted {
            end: RunEnd::WriteFault,
            log: front,
            counts: None,
        };
        expect(&rt, &job, &log, &outside, &wanted)?;
    }
    Ok(())
}
