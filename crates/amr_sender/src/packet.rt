// One packet: what stands in its header, written in front of its payload, and put to a sink.
ghost use Rattle.std.specs.List.{AllByRecursion};
ghost use Rattle.std.specs.Prelude.{◌≡◌, ◌≤◌, ◌<◌, ◌+◌, ◌&&◌, ℕ, IsTrue, List, OnErr, OnOk, length, nat_eq, take};
ghost use Rattle.amr_frame.specs.Blocks.{frames_of};
ghost use Rattle.amr_frame.specs.Frames.{Frame, IsFrame};
ghost use Rattle.amr_sender.specs.Packets.{BeginsWith, CanCarry, IsPlainHeader, PutsPacket, block_limit, packet_with, said};
ghost use Rattle.amr_toc.specs.Payloads.{Carries, meant};
ghost use Rattle.rtp_packet.specs.PacketSteps.{PacketStep};
ghost use Rattle.rtp_packet.specs.Written.{packet_of, written};
ghost use Rattle.spec_payload.specs.Grammar.{text};
ghost use Rattle.spec_sending.specs.Plans.{IsPlan};
ghost use Rattle.spec_sending.specs.Sending.{has_speech, is_empty};

use amr_frame::{Cell, Codec, Kind, Profile, kind_of, step};
use amr_io::Failed;
use amr_payload::{size_payload, write_payload};
use amr_toc::Payload;
use rtp_packet::{PacketSink, RtpFields, write_rtp};
use spec_sending::SendPlan;

/// The octets of a header without sources, extension and padding (RFC 3550, 5.1).
const HEADER: usize = 12;

/// The most octets of a packet: a header, and the greatest payload of 64 blocks of 6 channels.
pub const MOST_OCTETS: usize = 23_822;

/// What the header of a packet tells beside what the plan fixes.
#[derive(Clone, Copy, Debug)]
pub struct Head {
    /// The packet begins with speech behind a pause, or at the start.
    pub marked: bool,
    /// How many packets were sent before.
    pub number: u64,
    /// The number of its first block, of all blocks.
    pub first: u64,
    /// How far apart its blocks stand, and its number in its group (RFC 4867, 4.4.1).
    pub stride: u8,
    pub index: u8,
}

/// What stands before the blocks of a buffer among all that are sent.
#[derive(Clone, Copy, Debug)]
pub struct Behind {
    /// The block before the first one has a frame of speech.
    pub spoken: bool,
    /// How many packets were sent before.
    pub packets: u64,
    /// The number of the first block, of all blocks.
    pub blocks: u64,
}

/// Whether a block has a frame of speech.
pub fn speaks(codec: Codec, block: &[Cell]) -> bool
    requires { AllByRecursion (IsFrame codec) (frames_of block.now) }
    ensures { result ≡ has_speech codec (frames_of block.now) }
{
    for cell in block {
        if kind_of(codec, cell.ft) == Kind::Speech {
            return true;
        }
    }
    false
}

/// Whether a frame is NO_DATA; one of type 15 with Q = 0 isn't.
fn is_no_data(cell: &Cell) -> bool
    ensures { result ≡ (nat_eq cell.now.ft 15 && cell.now.q) }
{
    cell.ft == 15 && cell.q
}

/// Whether blocks are NO_DATA in all channels.
pub fn is_silent(cells: &[Cell]) -> bool
    ensures { result ≡ is_empty (frames_of cells.now) }
{
    for cell in cells {
        if !is_no_data(cell) {
            return false;
        }
    }
    true
}

/// The fields of a header.
#[inline(always)]
pub fn fields_of(plan: &SendPlan, head: Head) -> RtpFields<'static>
    requires number { plan.now.pt ≤ 127 }
    requires first { head.first < block_limit + 2048 }

    ensures packet { (frames : List Frame)
        → packet_of result (text plan.now.profile (said plan.now head frames))
        ≡ packet_with plan.now head frames }
    ensures plain { IsPlainHeader result }
{
    let ticks = u64::from(step(plan.profile.codec));
    RtpFields {
        marker: head.marked,
        payload_type: plan.pt,
        sequence: plan.seq.wrapping_add((head.number % 65_536) as u16),
        timestamp: plan
            .ts
            .wrapping_add((ticks * head.first % 4_294_967_296) as u32),
        ssrc: plan.ssrc,
        sources: &[],
        extension: None,
        padding: 0,
    }
}

/// Writes a packet to the front of the room, the payload first and then the header before it, and
/// tells how many octets it has.
fn write_packet(
    profile: &Profile,
    fields: &RtpFields<'_>,
    payload: &Payload<'_>,
    room: &mut [u8],
) -> usize
    requires header { IsPlainHeader fields.now }
    requires carries { Carries profile.now payload.now }
    requires room { length room.old ≡ 23822 }

    ensures octets { BeginsWith room.new result
        (packet_of fields.now (text profile.now (meant payload.now))) }
    ensures some { 1 ≤ result }
    ensures most { result ≤ 23822 }
{
    let size = HEADER + size_payload(profile, payload);
    write_payload(profile, payload, &mut room[HEADER..size]);
    write_rtp(fields, &[], &mut room[..HEADER]);
    size
}

/// Sends the packet of these blocks.
///
/// `Failed` comes only where the sink's faults rose. A part of the packet may then have been put.
pub fn send<P: PacketSink>(
    plan: &SendPlan,
    head: Head,
    cells: &[Cell],
    room: &mut [u8],
    out: &mut P,
) -> Result<(), Failed>
    requires plan { IsPlan plan.now }
    requires first { head.first < block_limit + 2048 }
    requires cells { CanCarry plan.now head cells.now }
    requires room { length room.old ≡ 23822 }
    requires sink { IsTrue (P.ready out.old) }

    ensures { PutsPacket P.PacketSink out.old out.new
        (packet_with plan.now head (frames_of cells.now)) result }
{
    let payload = Payload {
        cmr: plan.cmr,
        stride: head.stride,
        index: head.index,
        cells,
    };
    let size = write_packet(&plan.profile, &fields_of(plan, head), &payload, room);
    out.put_packet(&room[..size])
}
