use crate::{RecordJob, RunEnd, record_log};
use amr_frame::{Codec, Profile};
use amr_io::{MemorySink, MemorySource};
use amr_playout::Plan;
use std::alloc::{AllocError, Global};
use std::process::Abort;
use std::test::Fail;

// Octets by parts: some octets, and so many zeros behind them.
type Parts<'a> = &'a [(&'a [u8], u16)];

fn join(alloc: Global, parts: Parts<'_>) -> Result<Vec<u8>, AllocError> {
    let mut all = Vec::new(alloc);
    for (octets, zeros) in parts {
        all.extend_from_slice(octets)?;
        for _ in 0..*zeros {
            all.push(0)?;
        }
    }
    Ok(all)
}

// A log of packets of one source with these timestamps and payloads.
fn log_of(alloc: Global, packets: &[(u32, Parts<'_>)]) -> Result<Vec<u8>, AllocError> {
    let mut log = Vec::new(alloc);
    for (timestamp, parts) in packets {
        let payload = join(alloc, parts)?;
        let length = payload.len().min(999) as u16 + 12;
        log.extend_from_slice(&length.to_be_bytes())?;
        log.extend_from_slice(&[0x80, 0x60, 0, 0])?;
        log.extend_from_slice(&timestamp.to_be_bytes())?;
        log.extend_from_slice(&[0, 0, 0, 0])?;
        log.extend_from_slice(&payload)?;
    }
    Ok(log)
}

// Octet-aligned payloads of one channel.
fn aligned(crc: bool, sorting: bool, interleaving: Option<u16>) -> Profile {
    let mut profile = Profile::plain(Codec::Amr, 1);
    profile.octet_aligned = true;
    profile.crc = crc;
    profile.sorting = sorting;
    profile.interleaving = interleaving;
    profile
}

// Records a log of a format, and compares the file and how many payloads were refused.
fn expect(
    rt: &(impl Abort + Alloc<A = Global>),
    profile: Profile,
    packets: &[(u32, Parts<'_>)],
    file: Parts<'_>,
    refused: u64,
) -> Result<(), Fail> {
    let log = log_of(rt.alloc(), packets)?;
    let wanted = join(rt.alloc(), file)?;
    expect_file(rt, profile, &log, &wanted, refused)
}

// Records a log, and compares the file and how many payloads were refused.
fn expect_file(
    rt: &(impl Abort + Alloc<A = Global>),
    profile: Profile,
    log: &[u8],
    wanted: &[u8],
    refused: u64,
) -> Result<(), Fail> {
    let plan = Plan {
        profile,
        window: 256,
        reach: 45_000,
    };
    if let Err(_) = plan.check() {
        panic!(rt; "the plan is valid");
    }
    let job = RecordJob {
        plan,
        pt: None,
        limit: 1 << 40,
    };
    for cut in [1usize, 7, 9_999] {
        let mut input = MemorySource::create(rt.alloc(), log, cut, &[])?;
        let mut output = MemorySink::create(rt.alloc(), 99_999, cut, &[])?;
        let report = record_log(rt.alloc(), &job, &mut input, &mut output);
        assert_eq!(rt; report.end, RunEnd::Done, "at {cut}");
        assert_eq!(rt; report.counts.payload, refused, "at {cut}");
        assert_eq!(rt; output.octets(), wanted, "at {cut}");
    }
    Ok(())
}

const HEAD: &[u8] = b"#!AMR\n";

#[test]
fn octet_aligned_payloads_are_recorded(rt: HostRuntime) -> Result<(), Fail> {
    // Two blocks two frame times apart, and with the other packet of their group four in a row.
    let first: Parts<'_> = &[(&[0xF0, 0x10, 0xC4, 0x44], 10)];
    let second: Parts<'_> = &[(&[0xF0, 0x11, 0xC4, 0x44], 10)];
    let sid: (&[u8], u16) = (&[0x44], 5);
    expect(
        &rt,
        aligned(false, false, Some(4)),
        &[(0, first)],
        &[(HEAD, 0), sid, (&[0x7C], 0), sid],
        0,
    )?;
    for packets in [[(0, first), (160, second)], [(160, second), (0, first)]] {
        expect(
            &rt,
            aligned(false, false, Some(4)),
            &packets,
            &[(HEAD, 0), sid, sid, sid, sid],
            0,
        )?;
    }
    // An index above the length.
    expect(
        &rt,
        aligned(false, false, Some(4)),
        &[(0, &[(&[0xF0, 0x12, 0xC4, 0x44], 10)])],
        &[(HEAD, 0)],
        1,
    )?;
    // A frame whose CRC is right, and one whose CRC isn't: it is kept without quality.
    let checked = aligned(true, false, None);
    expect(
        &rt,
        checked,
        &[(0, &[(&[0xF0, 0x3C, 0x1D], 10), (&[0x80], 20)])],
        &[(HEAD, 0), (&[0x3C], 10), (&[0x80], 20)],
        0,
    )?;
    expect(
        &rt,
        checked,
        &[(0, &[(&[0xF0, 0x3C, 0x1C], 10), (&[0x80], 20)])],
        &[(HEAD, 0), (&[0x38], 10), (&[0x80], 20)],
        0,
    )?;
    // Frames of 5 and 31 octets in the robust order, which takes an octet of each in turn.
    expect(
        &rt,
        aligned(false, true, None),
        &[(
            0,
            &[
                (
                    &[0xF0, 0xC4, 0x3C, 1, 11, 2, 12, 3, 13, 4, 14, 6, 15, 16],
                    24,
                ),
                (&[0x10], 0),
            ],
        )],
        &[
            (HEAD, 0),
            (&[0x44, 1, 2, 3, 4, 6, 0x3C, 11, 12, 13, 14, 15, 16], 24),
            (&[0x10], 0),
        ],
        0,
    )?;
    // Three entries aren't whole blocks of two channels.
    let mut stereo = aligned(false, false, None);
    stereo.channels = 2;
    expect(
        &rt,
        stereo,
        &[(0, &[(&[0xF0, 0xFC, 0xFC, 0x7C], 0)])],
        &[(b"#!AMR_MC1.0\n", 3), (&[2], 0)],
        1,
    )
}

// A packet at this block, its payload one frame that begins with the block's number.
fn add_packet(log: &mut Vec<u8>, block: u16) -> Result<(), AllocError> {
    log.extend_from_slice(&[0, 45, 0x80, 0x60, 0, 0])?;
    log.extend_from_slice(&(160 * u32::from(block)).to_be_bytes())?;
    log.extend_from_slice(&[0, 0, 0, 0, 0xF0, 0x3C])?;
    log.extend_from_slice(&block.to_be_bytes())?;
    log.extend_from_slice(&[0; 29])
}

#[test]
fn a_thousand_packets_in_threes_are_recorded_in_their_order(rt: HostRuntime) -> Result<(), Fail> {
    let mut log = Vec::new(rt.alloc());
    let mut wanted = Vec::new(rt.alloc());
    wanted.extend_from_slice(HEAD)?;
    for at in 0..999u16 {
        // 2, 0, 1, 5, 3, 4, .. 998, 996, 997
        add_packet(&mut log, at / 3 * 3 + (at + 2) % 3)?;
        wanted.push(0x3C)?;
        wanted.extend_from_slice(&at.to_be_bytes())?;
        wanted.extend_from_slice(&[0; 29])?;
    }
    expect_file(&rt, aligned(false, false, None), &log, &wanted, 0)
}

// A strict format of one channel with these modes.
fn strict(mut profile: Profile, modes: u16) -> Profile {
    profile.strict = true;
    profile.modes = modes;
    profile
}

#[test]
fn strict_formats_take_canonical_payloads_of_their_modes(rt: HostRuntime) -> Result<(), Fail> {
    let plain = Profile::plain(Codec::Amr, 1);
    let seven: Parts<'_> = &[(&[0xF3, 0xC0], 30)];
    let sid: Parts<'_> = &[(&[0xF4, 0x40], 5)];
    let padded: Parts<'_> = &[(&[0xF3, 0xC0], 29), (&[0x03], 0)];
    let asked: Parts<'_> = &[(&[0x93, 0xC0], 30)];
    let frame: (&[u8], u16) = (&[0x3C], 31);
    let all = strict(plain, 0xFF);
    let few = strict(plain, 5);
    expect(&rt, all, &[(0, seven)], &[(HEAD, 0), frame], 0)?;
    // A pad bit is set; mode 9 is asked for.
    expect(&rt, all, &[(0, padded)], &[(HEAD, 0)], 1)?;
    expect(&rt, all, &[(0, asked)], &[(HEAD, 0)], 1)?;
    expect(
        &rt,
        plain,
        &[(0, padded), (160, asked)],
        &[(HEAD, 0), frame, frame],
        0,
    )?;
    // Speech of mode 7 where the format has modes 0 and 2; a SID is no mode.
    expect(&rt, few, &[(0, seven)], &[(HEAD, 0)], 1)?;
    expect(&rt, few, &[(0, sid)], &[(HEAD, 0), (&[0x44], 5)], 0)?;
    // A CRC that isn't the frame's.
    let wrong: Parts<'_> = &[(&[0xF0, 0x3C, 0x1C], 10), (&[0x80], 20)];
    let right: Parts<'_> = &[(&[0xF0, 0x3C, 0x1D], 10), (&[0x80], 20)];
    let checked = strict(aligned(true, false, None), 0xFF);
    expect(&rt, checked, &[(0, wrong)], &[(HEAD, 0)], 1)?;
    expect(
        &rt,
        checked,
        &[(0, right)],
        &[(HEAD, 0), (&[0x3C], 10), (&[0x80], 20)],
        0,
    )?;
    // Fill bits of a sorted payload: the last octet of the SID comes first.
    let sorted = strict(aligned(false, true, None), 0xFF);
    let filled: Parts<'_> = &[(&[0xF0, 0xC4, 0x44], 8), (&[0x01, 0x01], 0)];
    expect(&rt, sorted, &[(0, filled)], &[(HEAD, 0)], 1)
}
