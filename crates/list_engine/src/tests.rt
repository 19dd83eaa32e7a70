use crate::{ListJob, ModeSet, RunEnd, list_log};
use amr_frame::{Codec, Profile};
use amr_io::{MemorySink, MemorySource};
use std::alloc::{AllocError, Global};
use std::process::Abort;
use std::test::Fail;

// Octets by parts: some octets, and so many zeros behind them.
type Parts<'a> = &'a [(&'a [u8], u16)];

// An RTP header of payload type 96 with all else 0, and a payload of one frame of 12.2 kbit/s.
const HEADER: (&[u8], u16) = (&[0x80, 0x60], 10);

const SEVEN: (&[u8], u16) = (&[0xF3, 0xC0], 30);

// A log of these records.
fn log_of(alloc: Global, records: &[Parts<'_>]) -> Result<Vec<u8>, AllocError> {
    let mut log = Vec::new(alloc);
    for parts in records {
        let record = join(alloc, parts)?;
        let length = record.len().min(999) as u16;
        log.extend_from_slice(&length.to_be_bytes())?;
        log.extend_from_slice(&record)?;
    }
    Ok(log)
}

fn join(alloc: Global, parts: Parts<'_>) -> Result<Vec<u8>, AllocError> {
    let mut all = Vec::new(alloc);
    for (octets, zeros) in parts {
        all.extend_from_slice(octets)?;
        for _ in 0..*zeros {
            all.push(0)?;
        }
    }
    Ok(all)
}

// Any payload type of a format, by a desk of all modes that starts at the greatest.
fn job_of(profile: Profile) -> ListJob {
    let modes = ModeSet::all(profile.codec);
    ListJob {
        profile,
        modes,
        neighbor: false,
        period: 1,
        start: modes.greatest(),
        pt: None,
        show_bits: false,
        limit: 1 << 40,
    }
}

// Octet-aligned payloads of one channel.
fn aligned(codec: Codec, crc: bool, interleaving: Option<u16>) -> Profile {
    let mut profile = Profile::plain(codec, 1);
    profile.octet_aligned = true;
    profile.crc = crc;
    profile.interleaving = interleaving;
    profile
}

// How the outside behaves: at most so many octets a read, and the calls that fail.
#[derive(Clone, Copy)]
struct Outside<'a> {
    cut: usize,
    reads: &'a [u64],
    writes: &'a [u64],
}

// Lists a log, and compares the listing and the end.
fn expect(
    rt: &(impl Abort + Alloc<A = Global>),
    job: &ListJob,
    log: &[u8],
    outside: &Outside<'_>,
    wanted: (RunEnd, &[u8]),
) -> Result<(), Fail> {
    if let Err(_) = job.profile.check() {
        panic!(rt; "the format is valid");
    }
    if !job.modes.has(job.start) {
        panic!(rt; "the desk starts at one of its modes");
    }
    if job.period < 1 || job.period > 2 || job.limit < 1 || job.limit > 1 << 40 {
        panic!(rt; "the period and the limit are served");
    }
    let cut = outside.cut.max(1);
    let mut input = MemorySource::create(rt.alloc(), log, cut, outside.reads)?;
    let mut output = MemorySink::create(rt.alloc(), 99_999, 9_999, outside.writes)?;
    let report = list_log(rt.alloc(), job, &mut input, &mut output);
    assert_eq!(rt; report.end, wanted.0, "at {cut}");
    assert_eq!(rt; output.octets(), wanted.1, "at {cut}");
    Ok(())
}

// Lists these records whole, however many octets a read gives.
fn expect_listing(
    rt: &(impl Abort + Alloc<A = Global>),
    job: &ListJob,
    records: &[Parts<'_>],
    wanted: &[u8],
) -> Result<(), Fail> {
    let log = log_of(rt.alloc(), records)?;
    for cut in [1usize, 7, 9_999] {
        let outside = Outside {
            cut,
            reads: &[],
            writes: &[],
        };
        expect(rt, job, &log, &outside, (RunEnd::Done, wanted))?;
    }
    Ok(())
}

#[test]
fn packets_are_listed(rt: HostRuntime) -> Result<(), Fail> {
    let plain = job_of(Profile::plain(Codec::Amr, 1));
    let fields: &[u8] = &[
        0x80, 0xE1, 0x01, 0x02, 0x00, 0x01, 0x00, 0x00, 0xDE, 0xAD, 0xBE, 0x0F,
    ];
    expect_listing(
        &rt,
        &plain,
        &[
            &[HEADER, SEVEN],
            &[HEADER, SEVEN, (&[], 1)],
            &[],
            &[(&[], 11)],
            &[(&[0x40, 0x60], 10)],
            &[(fields, 0)],
        ],
        b"0 44 pt=96 m=0 seq=0 ts=0 ssrc=00000000 \
          cmr=15 mode=7 stride=1 index=0 blocks=1 frames=7/1\n\
          1 45 pt=96 m=0 seq=0 ts=0 ssrc=00000000 refused=P10 need=32 have=33\n\
          2 0 null\n\
          3 11 refused=H1 have=11\n\
          4 12 refused=H2 got=1\n\
          5 12 pt=97 m=1 seq=258 ts=65536 ssrc=deadbe0f refused=P1\n",
    )?;
    let other = ListJob {
        pt: Some(97),
        ..plain
    };
    expect_listing(
        &rt,
        &other,
        &[&[HEADER, SEVEN]],
        b"0 44 pt=96 m=0 seq=0 ts=0 ssrc=00000000 refused=type\n",
    )
}

#[test]
fn modes_are_listed(rt: HostRuntime) -> Result<(), Fail> {
    let Some(modes) = ModeSet::of(Codec::Amr, 0xA5) else {
        panic!(rt; "0, 2, 5 and 7 are a set of modes");
    };
    let plain = ListJob {
        modes,
        neighbor: true,
        ..job_of(Profile::plain(Codec::Amr, 1))
    };
    let records: [Parts<'_>; 3] = [
        &[HEADER, (&[0x03, 0xC0], 30)],
        &[HEADER, SEVEN],
        &[HEADER, SEVEN],
    ];
    expect_listing(
        &rt,
        &plain,
        &records,
        b"0 44 pt=96 m=0 seq=0 ts=0 ssrc=00000000 \
          cmr=0 mode=5 stride=1 index=0 blocks=1 frames=7/1\n\
          1 44 pt=96 m=0 seq=0 ts=0 ssrc=00000000 \
          cmr=15 mode=2 stride=1 index=0 blocks=1 frames=7/1\n\
          2 44 pt=96 m=0 seq=0 ts=0 ssrc=00000000 \
          cmr=15 mode=0 stride=1 index=0 blocks=1 frames=7/1\n",
    )?;
    expect_listing(
        &rt,
        &ListJob { period: 2, ..plain },
        &records,
        b"0 44 pt=96 m=0 seq=0 ts=0 ssrc=00000000 \
          cmr=0 mode=5 stride=1 index=0 blocks=1 frames=7/1\n\
          1 44 pt=96 m=0 seq=0 ts=0 ssrc=00000000 \
          cmr=15 mode=5 stride=1 index=0 blocks=1 frames=7/1\n\
          2 44 pt=96 m=0 seq=0 ts=0 ssrc=00000000 \
          cmr=15 mode=2 stride=1 index=0 blocks=1 frames=7/1\n",
    )
}

#[test]
fn frames_are_listed(rt: HostRuntime) -> Result<(), Fail> {
    // NO_DATA and a comfort noise frame of 40 bits, with their bits.
    let bits = ListJob {
        show_bits: true,
        ..job_of(aligned(Codec::AmrWb, false, None))
    };
    let noise: &[u8] = &[0x20, 0xFC, 0x4C, 0xAB, 0x00, 0x0C, 0xFF, 0x10];
    expect_listing(
        &rt,
        &bits,
        &[&[HEADER, (noise, 0)], &[]],
        b"0 20 pt=96 m=0 seq=0 ts=0 ssrc=00000000 \
          cmr=2 mode=2 stride=1 index=0 blocks=2 frames=15/1,9/1\n\
          bits 1 ab000cff10\n\
          1 0 null\n",
    )?;
    // The last octet of 39 bits has a fill bit, which isn't shown.
    let narrow = ListJob {
        show_bits: true,
        ..job_of(aligned(Codec::Amr, false, None))
    };
    let filled: &[u8] = &[0xF0, 0x44, 0xAB, 0x00, 0x0C, 0xFF, 0x11];
    expect_listing(
        &rt,
        &narrow,
        &[&[HEADER, (filled, 0)]],
        b"0 19 pt=96 m=0 seq=0 ts=0 ssrc=00000000 \
          cmr=15 mode=7 stride=1 index=0 blocks=1 frames=8/1\n\
          bits 0 ab000cff10\n",
    )?;
    // A frame whose CRC isn't its own.
    let checked = job_of(aligned(Codec::Amr, true, None));
    expect_listing(
        &rt,
        &checked,
        &[&[HEADER, (&[0xF0, 0x3C, 0x1C], 10), (&[0x80], 20)]],
        b"0 46 pt=96 m=0 seq=0 ts=0 ssrc=00000000 \
          cmr=15 mode=7 stride=1 index=0 blocks=1 frames=7/1!\n",
    )?;
    // The second packet of a group.
    let group = job_of(aligned(Codec::Amr, false, Some(4)));
    expect_listing(
        &rt,
        &group,
        &[&[HEADER, (&[0xF0, 0x11, 0xC4, 0x40], 10)]],
        b"0 26 pt=96 m=0 seq=0 ts=0 ssrc=00000000 \
          cmr=15 mode=7 stride=2 index=1 blocks=2 frames=8/1,8/0\n",
    )
}

#[test]
fn listings_end(rt: HostRuntime) -> Result<(), Fail> {
    let plain = job_of(Profile::plain(Codec::Amr, 1));
    let calm = Outside {
        cut: 2,
        reads: &[],
        writes: &[],
    };
    let one: &[u8] = b"0 0 null\n";
    let two: &[u8] = b"0 0 null\n1 0 null\n";
    let cut = RunEnd::LogCut { have: 1 };
    expect(&rt, &plain, &[], &calm, (RunEnd::Done, b""))?;
    expect(&rt, &plain, &[0; 4], &calm, (RunEnd::Done, two))?;
    expect(&rt, &plain, &[0; 3], &calm, (cut, one))?;
    let short = ListJob { limit: 2, ..plain };
    expect(&rt, &short, &[0; 2], &calm, (RunEnd::Done, one))?;
    expect(&rt, &short, &[0; 3], &calm, (RunEnd::LimitReached, one))?;
    // A record is read at a time, and its line is out before the next is read.
    let reads = Outside {
        reads: &[1],
        ..calm
    };
    expect(&rt, &plain, &[0; 4], &reads, (RunEnd::ReadFault, one))?;
    let writes = Outside {
        writes: &[1],
        ..calm
    };
    expect(&rt, &plain, &[0; 4], &writes, (RunEnd::WriteFault, one))
}
