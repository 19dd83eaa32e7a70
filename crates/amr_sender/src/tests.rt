ghost use Rattle.std.specs.Prelude.{◌≡◌, ◌≤◌, ◌<◌, IsTrue, false, length};
ghost use Rattle.amr_frame.specs.Cells.{frame_of};
ghost use Rattle.amr_frame.specs.Frames.{IsFrame};
ghost use Rattle.amr_frame.specs.Tables.{is_reserved};
ghost use Rattle.amr_frame.specs.declared.codec.Codec.TheVariants.{Amr};

use crate::{SendPlan, Sender};
use amr_bits::BitSlice;
use amr_frame::{Cell, Codec, Profile, bits_of};
use amr_io::MemorySink;
use rtp_packet::{LogWriter, PacketSink};
use std::alloc::{AllocError, Global};
use std::test::Fail;

// A plan of AMR with one channel: so many blocks a packet, and where numbers and timestamps begin.
fn plan(blocks: u8, seq: u16, ts: u32) -> SendPlan
    ensures codec { result.profile.codec ≡ Amr }
    ensures channels { result.profile.channels ≡ 1 }
{
    SendPlan {
        profile: Profile::plain(Codec::Amr, 1),
        blocks,
        length: 1,
        repeat: 0,
        skip_empty: false,
        cmr: 15,
        pt: 96,
        ssrc: 0x0102_0304,
        seq,
        ts,
    }
}

// A plan of groups of at most so many blocks.
fn grouped(blocks: u8, length: u8, most: u16) -> SendPlan
    ensures codec { result.profile.codec ≡ Amr }
    ensures channels { result.profile.channels ≡ 1 }
{
    let consecutive = plan(blocks, 0, 0);
    SendPlan {
        length,
        profile: Profile {
            octet_aligned: true,
            interleaving: Some(most),
            ..consecutive.profile
        },
        ..consecutive
    }
}

// A plan of packets that carry blocks before the new ones again, or that leaves out what is empty.
fn sending(blocks: u8, repeat: u8, skip_empty: bool) -> SendPlan
    ensures codec { result.profile.codec ≡ Amr }
    ensures channels { result.profile.channels ≡ 1 }
{
    SendPlan {
        repeat,
        skip_empty,
        ..plan(blocks, 0, 0)
    }
}

// A frame whose bits are 0.
fn zeros(ft: u8, q: bool) -> Cell
    requires type_exists { ft ≤ 15 }
    requires not_reserved { is_reserved Amr ft ≡ false }
    ensures present { IsTrue result.present }
    ensures frame { IsFrame Amr (frame_of result) }
{
    let Some(bits) = BitSlice::of(&[0; 60], 0, bits_of(Codec::Amr, ft)) else {
        unreachable!()
    };
    Cell::from_bits(Codec::Amr, ft, q, bits)
}

// Stands for a frame of type 15 with Q = 0.
const LOST: u8 = 0xFF;

// Speech of type 7, a silence descriptor of type 8, type 15 with Q = 0, or else NO_DATA.
fn frame(ft: u8) -> Cell
    ensures present { IsTrue result.present }
    ensures frame { IsFrame Amr (frame_of result) }
{
    match ft {
        7 => zeros(7, true),
        8 => zeros(8, true),
        LOST => zeros(15, false),
        _ => zeros(15, true),
    }
}

// Sends frames of these types, a block each, and tells how many packets were put, where no call
// failed.
fn send<P: PacketSink>(
    alloc: Global,
    plan: SendPlan,
    types: &[u8],
    out: &mut P,
) -> Result<Option<u64>, AllocError>
    requires ready { IsTrue (P.ready out.old) }
    requires codec { plan.profile.codec ≡ Amr }
    requires channels { plan.profile.channels ≡ 1 }
    requires few { length types.now ≤ 99 }
{
    if let Err(_) = plan.check() {
        return Ok(None);
    }
    let mut sender = Sender::create(alloc, plan)?;
    for ft in types {
        if let Err(_) = sender.put_block(&[frame(*ft)], out) {
            return Ok(None);
        }
    }
    if let Err(_) = sender.finish(out) {
        return Ok(None);
    }
    Ok(Some(sender.packets()))
}

#[test]
fn a_frame_of_speech_is_one_packet(rt: HostRuntime) -> Result<(), Fail> {
    let mut sink = MemorySink::create(rt.alloc(), 100, 100, &[])?;
    let mut log = LogWriter::new(&mut sink);
    assert_eq!(rt; send(rt.alloc(), plan(1, 0, 0), &[7], &mut log)?, Some(1));
    let mut expected = [0u8; 46];
    expected[..16].copy_from_slice(&[0, 44, 0x80, 0xE0, 0, 0, 0, 0, 0, 0, 1, 2, 3, 4, 0xF3, 0xC0]);
    assert_eq!(rt; sink.octets(), expected.as_slice());
    Ok(())
}

#[test]
fn the_rest_goes_at_the_end_and_numbers_begin_anew(rt: HostRuntime) -> Result<(), Fail> {
    let mut sink = MemorySink::create(rt.alloc(), 100, 100, &[])?;
    let mut log = LogWriter::new(&mut sink);
    let plan = plan(2, 0xFFFF, 0xFFFF_FF60);
    assert_eq!(rt;
        send(rt.alloc(), plan, &[15, 15, 15, 15, 15], &mut log)?,
        Some(3)
    );
    assert_eq!(rt;
        sink.octets(),
        &[
            0, 14, 0x80, 0x60, 0xFF, 0xFF, 0xFF, 0xFF, 0xFF, 0x60, 1, 2, 3, 4, 0xFF, 0xDF, // two
            0, 14, 0x80, 0x60, 0, 0, 0, 0, 0, 0xA0, 1, 2, 3, 4, 0xFF, 0xDF, // two more
            0, 14, 0x80, 0x60, 0, 1, 0, 0, 1, 0xE0, 1, 2, 3, 4, 0xF7, 0xC0
        ][..]
    );
    Ok(())
}

#[test]
fn the_marker_stands_where_speech_begins(rt: HostRuntime) -> Result<(), Fail> {
    let mut sink = MemorySink::create(rt.alloc(), 200, 200, &[])?;
    let mut log = LogWriter::new(&mut sink);
    assert_eq!(rt;
        send(rt.alloc(), plan(1, 0, 0), &[8, 7, 7, 15, 7], &mut log)?,
        Some(5)
    );
    let octets = sink.octets();
    assert_eq!(rt; octets.len(), 175);
    // The second octet of each packet: its marker and its payload type.
    for (at, second) in [(3, 0x60), (24, 0xE0), (70, 0x60), (116, 0x60), (132, 0xE0)] {
        assert_eq!(rt; octets.get(at), Some(&second), "octet {at}");
    }
    Ok(())
}

#[test]
fn a_group_goes_as_its_packets_and_the_rest_behind_it(rt: HostRuntime) -> Result<(), Fail> {
    let mut sink = MemorySink::create(rt.alloc(), 100, 100, &[])?;
    let mut log = LogWriter::new(&mut sink);
    assert_eq!(rt;
        send(rt.alloc(), grouped(2, 2, 4), &[8, 8, 8, 8, 8], &mut log)?,
        Some(3)
    );
    let mut expected = [0u8; 78];
    expected[..18].copy_from_slice(&[
        0, 26, 0x80, 0x60, 0, 0, 0, 0, 0, 0, 1, 2, 3, 4, 0xF0, 0x10, 0xC4, 0x44,
    ]);
    expected[28..46].copy_from_slice(&[
        0, 26, 0x80, 0x60, 0, 1, 0, 0, 0, 0xA0, 1, 2, 3, 4, 0xF0, 0x11, 0xC4, 0x44,
    ]);
    expected[56..73].copy_from_slice(&[
        0, 20, 0x80, 0x60, 0, 2, 0, 0, 2, 0x80, 1, 2, 3, 4, 0xF0, 0, 0x44,
    ]);
    assert_eq!(rt; sink.octets(), expected.as_slice());
    Ok(())
}

#[test]
fn a_front_of_the_packets_is_put_where_there_is_no_room(rt: HostRuntime) -> Result<(), Fail> {
    for room in 0..32 {
        let mut sink = MemorySink::create(rt.alloc(), room, 5, &[])?;
        let mut log = LogWriter::new(&mut sink);
        assert_eq!(rt;
            send(rt.alloc(), plan(1, 0, 0), &[15, 15], &mut log)?,
            None,
            "room {room}"
        );
        assert_eq!(rt; sink.octets().len(), room, "room for {room}");
    }
    Ok(())
}

// A packet by its sequence number, its timestamp in blocks, the first octets of its payload, and
// how many octets that has; the others are 0.
type Wanted = (u8, u8, &'static [u8], u8);

// Appends the record of a packet without marker to a log.
fn append(log: &mut Vec<u8>, wanted: Wanted) -> Result<(), AllocError> {
    let (seq, blocks, front, size) = wanted;
    let ts = u16::from(blocks) * 160;
    log.extend_from_slice(&[0, size.saturating_add(12), 0x80, 0x60, 0, seq, 0, 0])?;
    log.extend_from_slice(&ts.to_be_bytes())?;
    log.extend_from_slice(&[1, 2, 3, 4])?;
    log.extend_from_slice(front)?;
    for _ in front.len()..usize::from(size).max(front.len()) {
        log.extend_from_slice(&[0])?;
    }
    Ok(())
}

// Each row: the new blocks of a packet, how many before them it carries again, whether it skips,
// the types of the blocks, and the packets.
#[test]
fn packets_carry_blocks_again_and_leave_out_empty_ones(rt: HostRuntime) -> Result<(), Fail> {
    let rows: [(u8, u8, bool, &[u8], &[Wanted]); 11] = [
        (
            1,
            0,
            false,
            &[8, 15],
            &[(0, 0, &[0xF4, 0x40], 7), (1, 1, &[0xF7, 0xC0], 2)],
        ),
        (
            1,
            1,
            false,
            &[8, 15, 8],
            &[
                (0, 0, &[0xF4, 0x40], 7),
                (1, 0, &[0xFC, 0x5F], 7),
                (2, 1, &[0xFF, 0xD1], 7),
            ],
        ),
        (
            1,
            2,
            false,
            &[15, 15, 15, 8],
            &[
                (0, 0, &[0xF7, 0xC0], 2),
                (1, 0, &[0xFF, 0xDF], 2),
                (2, 0, &[0xFF, 0xFF, 0x7C], 3),
                (3, 1, &[0xFF, 0xFF, 0x44], 8),
            ],
        ),
        (
            1,
            3,
            false,
            &[15, 15, 15, 15, 15],
            &[
                (0, 0, &[0xF7, 0xC0], 2),
                (1, 0, &[0xFF, 0xDF], 2),
                (2, 0, &[0xFF, 0xFF, 0x7C], 3),
                (3, 0, &[0xFF, 0xFF, 0xFD, 0xF0], 4),
                (4, 1, &[0xFF, 0xFF, 0xFD, 0xF0], 4),
            ],
        ),
        (
            2,
            1,
            false,
            &[8, 15, 15],
            &[(0, 0, &[0xFC, 0x5F], 7), (1, 1, &[0xFF, 0xDF], 2)],
        ),
        (
            2,
            3,
            false,
            &[15, 15, 15, 15],
            &[
                (0, 0, &[0xFF, 0xDF], 2),
                (1, 0, &[0xFF, 0xFF, 0xFD, 0xF0], 4),
            ],
        ),
        (
            1,
            0,
            true,
            &[15, 8, 15, 8],
            &[(0, 1, &[0xF4, 0x40], 7), (1, 3, &[0xF4, 0x40], 7)],
        ),
        (
            1,
            1,
            true,
            &[15, 8, 15, 15],
            &[(0, 0, &[0xFF, 0xD1], 7), (1, 1, &[0xF4, 0x40], 7)],
        ),
        (2, 0, true, &[8, 15, 15], &[(0, 0, &[0xF4, 0x40], 7)]),
        (1, 3, true, &[15, 15, 15], &[]),
        (1, 0, true, &[15, LOST, 15], &[(0, 1, &[0xF7, 0x80], 2)]),
    ];
    for (blocks, repeat, skip, types, packets) in rows {
        assert!(rt; types.len() < 9);
        let mut sink = MemorySink::create(rt.alloc(), 300, 300, &[])?;
        let mut log = LogWriter::new(&mut sink);
        assert_eq!(rt;
            send(rt.alloc(), sending(blocks, repeat, skip), types, &mut log)?,
            Some(packets.len() as u64)
        );
        let mut expected = Vec::new(rt.alloc());
        for packet in packets {
            append(&mut expected, *packet)?;
        }
        assert_eq!(rt;
            sink.octets(),
            expected.as_slice(),
            "{blocks}, {repeat}, {skip}"
        );
    }
    Ok(())
}

#[test]
fn the_marker_goes_by_the_block_before_the_first_one(rt: HostRuntime) -> Result<(), Fail> {
    let rows: [(u8, bool, &[u8], &[(usize, u8)]); 3] = [
        // Packets of 2, 33 and 63 octets.
        (1, false, &[15, 7, 7], &[(3, 0x60), (19, 0x60), (66, 0xE0)]),
        // The second packet of speech begins behind a block that was left out.
        (
            0,
            true,
            &[7, 15, 7, 7],
            &[(3, 0xE0), (49, 0xE0), (95, 0x60)],
        ),
        // The block before the second packet was trimmed.
        (
            1,
            true,
            &[7, 15, 15, 7, 15],
            &[(3, 0xE0), (49, 0xE0), (95, 0x60), (142, 0xE0)],
        ),
    ];
    for (repeat, skip, types, seconds) in rows {
        assert!(rt; types.len() < 9);
        let mut sink = MemorySink::create(rt.alloc(), 300, 300, &[])?;
        let mut log = LogWriter::new(&mut sink);
        assert_eq!(rt;
            send(rt.alloc(), sending(1, repeat, skip), types, &mut log)?,
            Some(seconds.len() as u64)
        );
        // The second octet of each packet: its marker and its payload type.
        for (at, second) in seconds {
            assert_eq!(rt; sink.octets().get(*at), Some(second), "octet {at}");
        }
    }
    Ok(())
}

// 50 frames of speech, a silence descriptor, 7 NO_DATA, a silence descriptor, and 20 of speech.
#[test]
fn a_call_has_a_packet_a_block_or_fewer(rt: HostRuntime) -> Result<(), Fail> {
    let mut types = [7u8; 79];
    types[50..59].copy_from_slice(&[8, 15, 15, 15, 15, 15, 15, 15, 8]);
    for (skip, packets) in [(false, 79), (true, 73)] {
        let mut sink = MemorySink::create(rt.alloc(), 9999, 99, &[])?;
        let mut log = LogWriter::new(&mut sink);
        assert_eq!(rt;
            send(rt.alloc(), sending(1, 1, skip), &types, &mut log)?,
            Some(packets)
        );
    }
    Ok(())
}

// The first packet of a sender of one frame a packet, and how many octets it has.
fn first_packet(
    alloc: Global,
    codec: Codec,
    unit: &[u8; 61],
    out: &mut [u8; 76],
) -> Result<usize, AllocError> {
    let consecutive = plan(1, 0, 0);
    let plan = SendPlan {
        profile: Profile::plain(codec, 1),
        ..consecutive
    };
    if let Err(_) = plan.check() {
        return Ok(0);
    }
    let mut sender = Sender::create(alloc, plan)?;
    if !sender.sends_singly() {
        return Ok(0);
    }
    Ok(sender.make_packet(unit, out))
}

// A frame with this first octet, in a storage file that goes on behind it.
fn unit_of(head: u8) -> [u8; 61] {
    let mut unit = [head; 61];
    for k in 1..61 {
        unit[k] = (k * 37 % 256) as u8;
    }
    unit
}

// Whether bit `k` of octets is 1.
fn bit(octets: &[u8; 61], k: usize) -> bool
    requires { k < 488 }
{
    octets[k / 8] >> (7 - k % 8) as u32 & 1 == 1
}

// The payload of a frame of so many bits, bit by bit: no request, F = 0, the type, Q, the bits of
// the frame, and zeros.
fn payload_of(unit: &[u8; 61], bits: usize) -> [u8; 61]
    requires { bits ≤ 477 }
{
    let mut octets = [0u8; 61];
    for k in 0..10 + bits {
        let one = match k {
            0..=3 => true,
            4 => false,
            5..=9 => bit(unit, k - 4),
            _ => bit(unit, k - 2),
        };
        if one {
            octets[k / 8] |= 128 >> (k % 8) as u32;
        }
    }
    octets
}

#[test]
fn a_frame_of_each_type_makes_its_packet(rt: HostRuntime) -> Result<(), Fail> {
    let types = [
        (Codec::Amr, 0, 95),
        (Codec::Amr, 1, 103),
        (Codec::Amr, 2, 118),
        (Codec::Amr, 3, 134),
        (Codec::Amr, 4, 148),
        (Codec::Amr, 5, 159),
        (Codec::Amr, 6, 204),
        (Codec::Amr, 7, 244),
        (Codec::Amr, 8, 39),
        (Codec::Amr, 15, 0),
        (Codec::AmrWb, 0, 132),
        (Codec::AmrWb, 1, 177),
        (Codec::AmrWb, 2, 253),
        (Codec::AmrWb, 3, 285),
        (Codec::AmrWb, 4, 317),
        (Codec::AmrWb, 5, 365),
        (Codec::AmrWb, 6, 397),
        (Codec::AmrWb, 7, 461),
        (Codec::AmrWb, 8, 477),
        (Codec::AmrWb, 9, 40),
        (Codec::AmrWb, 14, 0),
        (Codec::AmrWb, 15, 0),
    ];
    for (codec, ft, bits) in types {
        assert!(rt; ft < 16 && bits < 478);
        // Q is 1 in every other type, and the three padding bits of the octet are 1.
        let unit = unit_of(ft * 8 + ft % 2 * 4 + 0x83);
        let mut out = [0xAA; 76];
        let size = first_packet(rt.alloc(), codec, &unit, &mut out)?;
        let octets = (bits + 17) / 8;
        assert_eq!(rt; size, 12 + octets, "type {ft}");
        assert_eq!(rt;
            &out[12..12 + octets],
            &payload_of(&unit, bits)[..octets],
            "type {ft}"
        );
    }
    Ok(())
}

// The headers of the packets of frames with these first octets, where a sender could be made.
fn headers_of(
    alloc: Global,
    plan: SendPlan,
    heads: &[u8],
) -> Result<Option<Vec<[u8; 12]>>, AllocError>
    requires few { length heads.now ≤ 8 }
{
    let mut headers = Vec::new(alloc);
    if let Err(_) = plan.check() {
        return Ok(None);
    }
    let mut sender = Sender::create(alloc, plan)?;
    if !sender.sends_singly() {
        return Ok(None);
    }
    let mut out = [0; 76];
    for head in heads {
        sender.make_packet(&unit_of(*head), &mut out);
        let mut header = [0; 12];
        header.copy_from_slice(&out[..12]);
        headers.push(header)?;
    }
    Ok(Some(headers))
}

#[test]
fn packets_of_single_frames_have_their_headers(rt: HostRuntime) -> Result<(), Fail> {
    // Speech of type 7, NO_DATA, speech of type 0 twice, a silence descriptor, speech again.
    let heads = [0x3C, 0x7C, 0x04, 0x00, 0x44, 0x3C];
    let headers = headers_of(rt.alloc(), plan(1, 0xFFFE, 0xFFFF_FF60), &heads)?;
    let expected = [
        [0x80, 0xE0, 0xFF, 0xFE, 0xFF, 0xFF, 0xFF, 0x60, 1, 2, 3, 4],
        [0x80, 0x60, 0xFF, 0xFF, 0, 0, 0, 0, 1, 2, 3, 4],
        [0x80, 0xE0, 0, 0, 0, 0, 0, 0xA0, 1, 2, 3, 4],
        [0x80, 0x60, 0, 1, 0, 0, 1, 0x40, 1, 2, 3, 4],
        [0x80, 0x60, 0, 2, 0, 0, 1, 0xE0, 1, 2, 3, 4],
        [0x80, 0xE0, 0, 3, 0, 0, 2, 0x80, 1, 2, 3, 4],
    ];
    assert_eq!(rt; headers.as_deref(), Some(&expected[..]));
    Ok(())
}
