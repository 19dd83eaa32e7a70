// Files whose frames are sent where they stand, against packets that are written bit by bit.
ghost use Rattle.std.specs.Prelude.{◌≡◌, ◌<◌, ◌≤◌, ◌^◌, length};

use crate::{RunEnd, SendPlan, StreamJob, stream_file};
use amr_frame::{Codec, Profile};
use amr_io::{MemorySink, MemorySource};
use amr_store::StoreRefusal;
use std::alloc::{AllocError, Global};
use std::process::Abort;
use std::test::Fail;

// Each type that there is of AMR and of AMR-WB, in an order in which speech begins anew.
const AMR: [u8; 12] = [7, 8, 15, 0, 1, 2, 3, 15, 4, 5, 6, 7];

const AMR_WB: [u8; 14] = [8, 9, 14, 0, 1, 2, 3, 15, 4, 5, 6, 7, 8, 8];

// A file, the log of those of its frames that end within a number of octets, and how many these are.
#[derive(Drop)]
struct Told {
    file: Vec<u8>,
    log: Vec<u8>,
    count: u64,
}

// How many bits a frame has (3GPP TS 26.101, table 1; TS 26.201, table 2).
fn bits_of(codec: Codec, ft: u8) -> usize
    ensures { result ≤ 477 }
{
    let bits: &[usize] = match codec {
        Codec::Amr => &[95, 103, 118, 134, 148, 159, 204, 244, 39],
        Codec::AmrWb => &[132, 177, 253, 285, 317, 365, 397, 461, 477, 40],
    };
    match bits.get(usize::from(ft)) {
        Some(bits) => (*bits).min(477),
        None => 0,
    }
}

// Whether frames of a type are speech, and how many ticks a frame has.
fn speaks(codec: Codec, ft: u8) -> (bool, u32)
    ensures { result.1 ≤ 320 }
{
    match codec {
        Codec::Amr => (ft <= 7, 160),
        Codec::AmrWb => (ft <= 8, 320),
    }
}

// A bit of octets, counted from the most significant of the first.
fn bit_of(octets: &[u8], at: usize) -> bool {
    at / 8 < octets.len() && octets[at / 8] >> (7 - (at % 8) as u32) & 1 == 1
}

// Sets a bit of octets where it is to be one.
fn put_bit(octets: &mut [u8], at: usize, bit: bool) {
    if bit && at / 8 < octets.len() {
        octets[at / 8] |= 128 >> (at % 8) as u32;
    }
}

// A frame in a file: some octets behind its head, with all padding bits set or at random.
fn unit_of(ft: u8, number: u16) -> [u8; 61]
    requires { ft ≤ 15 }
{
    let mut unit = [0u8; 61];
    unit[0] = if number % 5 == 0 {
        131 + ft * 8
    } else {
        135 + ft * 8
    };
    for at in 1..61usize {
        unit[at] = ((usize::from(number) * 31 + at * 7) % 256) as u8;
    }
    unit
}

// The packet of a frame of so many bits: no request, one entry, the bits (RFC 4867, 4.3), and zeros.
fn packet_of(unit: &[u8; 61], bits: usize, number: u16, time: u32, marked: bool) -> [u8; 80]
    requires { bits ≤ 477 }
{
    let mut packet = [0u8; 80];
    packet[0] = 0x80;
    packet[1] = if marked { 0xE0 } else { 0x60 };
    packet[2] = (number / 256) as u8;
    packet[3] = (number % 256) as u8;
    packet[5] = (time / 65536 % 256) as u8;
    packet[6] = (time / 256 % 256) as u8;
    packet[7] = (time % 256) as u8;
    for at in 0..4usize {
        put_bit(&mut packet, 96 + at, true);
    }
    for at in 0..5usize {
        put_bit(&mut packet, 101 + at, bit_of(unit, 1 + at));
    }
    for at in 0..bits {
        put_bit(&mut packet, 106 + at, bit_of(unit, 8 + at));
    }
    packet
}

// A file of so many frames of these types in turn, and the log of those within `limit` octets.
fn tell(
    alloc: Global,
    codec: Codec,
    types: &[u8],
    frames: u16,
    limit: usize,
) -> Result<Told, AllocError>
    requires { 0 < length types.now }
{
    let mut file = Vec::new(alloc);
    let mut log = Vec::new(alloc);
    let mut count = 0;
    let mut spoken = false;
    match codec {
        Codec::Amr => file.extend_from_slice(b"#!AMR\n")?,
        Codec::AmrWb => file.extend_from_slice(b"#!AMR-WB\n")?,
    }
    for number in 0..frames {
        let ft = types[usize::from(number) % types.len()] % 16;
        let bits = bits_of(codec, ft);
        let unit = unit_of(ft, number);
        file.extend_from_slice(&unit[..1 + (bits + 7) / 8])?;
        let (speech, ticks) = speaks(codec, ft);
        if file.len() <= limit {
            let size = 12 + (10 + bits + 7) / 8;
            let time = ticks * u32::from(number);
            let packet = packet_of(&unit, bits, number, time, speech && !spoken);
            log.push(0)?;
            log.push(size as u8)?;
            log.extend_from_slice(&packet[..size])?;
            count = u64::from(number) + 1;
        }
        spoken = speech;
    }
    Ok(Told { file, log, count })
}

// A plan of one frame a packet.
fn plan(codec: Codec) -> SendPlan {
    SendPlan {
        cmr: 15,
        pt: 96,
        seq: 0,
        ts: 0,
        ssrc: 0,
        blocks: 1,
        profile: Profile::plain(codec, 1),
        length: 1,
        repeat: 0,
        skip_empty: false,
    }
}

// How much of a file is taken, how much a read gives, and the numbers of the calls that fail.
#[derive(Clone, Copy, Debug)]
struct Calls<'a> {
    limit: u64,
    cut: usize,
    reads: &'a [u64],
    writes: &'a [u64],
}

// Calls that don't fail.
fn calm(limit: u64, cut: usize) -> Calls<'static> {
    Calls {
        limit,
        cut,
        reads: &[],
        writes: &[],
    }
}

// Streams a file, and compares the end and the log, and where no call failed the counts.
fn expect(
    rt: &(impl Abort + Alloc<A = Global>),
    codec: Codec,
    told: &Told,
    calls: &Calls<'_>,
    end: RunEnd,
    len: usize,
) -> Result<(), Fail> {
    let plan = plan(codec);
    if let Err(_) = plan.check() {
        panic!(rt; "the plan is valid");
    }
    let job = StreamJob {
        plan,
        limit: calls.limit.clamp(1, 1 << 40),
    };
    let mut input = MemorySource::create(rt.alloc(), &told.file, calls.cut.max(1), calls.reads)?;
    let mut output = MemorySink::create(rt.alloc(), 100_000, 9, calls.writes)?;
    let report = stream_file(rt.alloc(), &job, &mut input, &mut output);
    assert_eq!(rt; report.end, end, "{calls:?}");
    assert_eq!(rt;
        output.octets(),
        &told.log[..len.min(told.log.len())],
        "{calls:?}"
    );
    if calls.reads.is_empty() && calls.writes.is_empty() {
        assert_eq!(rt;
            (report.counts.blocks, report.counts.sent),
            (told.count, told.count)
        );
    }
    Ok(())
}

#[test]
fn frames_of_each_type_are_sent_where_they_stand(rt: HostRuntime) -> Result<(), Fail> {
    let rows: [(Codec, &[u8]); 2] = [(Codec::Amr, &AMR), (Codec::AmrWb, &AMR_WB)];
    for (codec, types) in rows {
        if types.is_empty() {
            continue;
        }
        let whole = tell(rt.alloc(), codec, types, 40, 99_999)?;
        for cut in [1usize, 2, 61, 62, 99_999] {
            expect(
                &rt,
                codec,
                &whole,
                &calm(1 << 40, cut),
                RunEnd::Done,
                99_999,
            )?;
        }
        for limit in [61u16, 200, 501] {
            let front = tell(rt.alloc(), codec, types, 40, usize::from(limit))?;
            let calls = calm(u64::from(limit), 62);
            expect(&rt, codec, &front, &calls, RunEnd::LimitReached, 99_999)?;
        }
    }
    Ok(())
}

#[test]
fn a_reserved_type_ends_the_frames_that_are_sent(rt: HostRuntime) -> Result<(), Fail> {
    // Behind the header of 6 octets stand frames of 32, 6, 1, 13 and four times 32 octets.
    let types = [7u8, 8, 15, 0, 7, 7, 7, 7, 9, 7, 7, 7];
    let front = tell(rt.alloc(), Codec::Amr, &types, 12, 186)?;
    let end = RunEnd::File(StoreRefusal::Reserved { place: 186, ft: 9 });
    for cut in [1usize, 62, 99_999] {
        expect(&rt, Codec::Amr, &front, &calm(1 << 40, cut), end, 99_999)?;
    }
    Ok(())
}

#[test]
fn a_front_is_out_where_a_call_fails(rt: HostRuntime) -> Result<(), Fail> {
    let whole = tell(rt.alloc(), Codec::Amr, &AMR, 40, 99_999)?;
    for number in [0u16, 1, 7, 30] {
        // Nine octets are written at a time.
        let writes = [u64::from(number)];
        let calls = Calls {
            writes: &writes,
            ..calm(1 << 40, 99_999)
        };
        let len = 9 * usize::from(number);
        expect(&rt, Codec::Amr, &whole, &calls, RunEnd::WriteFault, len)?;
    }
    for (number, read) in [(1u64, 250usize), (2, 500)] {
        let front = tell(rt.alloc(), Codec::Amr, &AMR, 40, read)?;
        let reads = [number];
        let calls = Calls {
            reads: &reads,
            ..calm(1 << 40, 250)
        };
        expect(&rt, Codec::Amr, &front, &calls, RunEnd::ReadFault, 99_999)?;
    }
    Ok(())
}

#[test]
fn what_waits_is_written_where_its_room_is_full(rt: HostRuntime) -> Result<(), Fail> {
    // 5,000 frames of an octet are read at once, and 80,000 octets sent.
    let whole = tell(rt.alloc(), Codec::Amr, &[15], 5000, 99_999)?;
    expect(
        &rt,
        Codec::Amr,
        &whole,
        &calm(1 << 40, 65_536),
        RunEnd::Done,
        99_999,
    )
}
