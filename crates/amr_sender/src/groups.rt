// The packets of the blocks that are held: of a whole group, of a rest, and of consecutive blocks
// with those that are sent again.
ghost use Rattle.std.specs.Prelude.{◌≡◌, ◌≤◌, ◌<◌, ◌+◌, ◌*◌, ◌&&◌, IfOk, IsTrue, false, length, nat_eq, not, take};
ghost use Rattle.std.specs.List.{list_all};
ghost use Rattle.amr_frame.specs.Blocks.{frames_of};
ghost use Rattle.amr_sender.specs.Held.{IsBehind, IsFull, IsGroupOf, PutsCounted, Trims, full_in, held_of, held_packets, kept, left_in, marks_in, rests_in, spoken_in};
ghost use Rattle.amr_sender.specs.Packets.{CanCarry, block_limit, packet_with};
ghost use Rattle.spec_sending.specs.Plans.{IsPlan, carried_blocks};
ghost use Rattle.spec_sending.specs.Portions.{pieces};
ghost use Rattle.spec_sending.specs.Sending.{is_empty, trimmed};

use crate::packet::{Behind, Head, is_silent, send, speaks};
use amr_frame::{Cell, Codec};
use amr_group::GroupBuffer;
use amr_io::Failed;
use rtp_packet::PacketSink;
use spec_sending::SendPlan;

/// Whether the block before one of the buffer has speech, where the block before the first one has
/// or not.
pub fn spoken_before(codec: Codec, group: &GroupBuffer, spoken: bool, at: usize) -> bool
    requires codec { group.now.codec ≡ codec }
    requires within { at ≤ length group.now.blocks }

    ensures { result ≡ spoken_in codec spoken (held_of group.now) at }
{
    if at == 0 {
        return spoken;
    }
    speaks(codec, group.block(at - 1))
}

/// The marker of a packet that begins with a block of the buffer, where the block before the first
/// one has speech or not.
fn marker_at(codec: Codec, group: &GroupBuffer, spoken: bool, at: usize) -> bool
    requires codec { group.now.codec ≡ codec }
    requires within { at < length group.now.blocks }

    ensures { result ≡ marks_in codec spoken (held_of group.now) at }
{
    if !speaks(codec, group.block(at)) {
        return false;
    }
    !spoken_before(codec, group, spoken, at)
}

/// How many blocks stand in front of those at the end that are NO_DATA in all channels.
fn trimmed_len(group: &GroupBuffer) -> usize
    ensures trimmed { trimmed (held_of group.now) ≡ take result (held_of group.now) }
    ensures none { list_all is_empty (held_of group.now) ≡ nat_eq result 0 }
    ensures most { result ≤ length group.now.blocks }
{
    let mut count = group.len();
    while count > 0 && is_silent(group.block(count - 1)) {
        count -= 1;
    }
    count
}

/// How many of the blocks held a packet of all carries: where the plan skips, those in front of the
/// NO_DATA at the end.
fn carried_len(plan: &SendPlan, group: &GroupBuffer) -> usize
    requires single { plan.now.length ≡ 1 }
    requires group { IsGroupOf plan.now group.now }

    ensures trims { Trims plan.now (held_of group.now) result }
    ensures most { result ≤ carried_blocks plan.now }
{
    let len = group.len();
    if plan.skip_empty {
        return trimmed_len(group);
    }
    len
}

/// Whether the packet of these blocks is sent: not where the plan skips and there is nothing in it.
fn keeps(plan: &SendPlan, cells: &[Cell]) -> bool
    ensures { result ≡ not (plan.now.skip_empty && is_empty (frames_of cells.now)) }
{
    !(plan.skip_empty && is_silent(cells))
}

/// Sends the packet of these blocks, unless the plan leaves it out, and tells how many packets
/// those are.
///
/// `Failed` comes only where the sink's faults rose. A part of the packet may then have been put.
fn send_kept<P: PacketSink>(
    plan: &SendPlan,
    head: Head,
    cells: &[Cell],
    room: &mut [u8],
    out: &mut P,
) -> Result<u64, Failed>
    requires plan { IsPlan plan.now }
    requires first { head.first < block_limit + 2048 }
    requires cells { CanCarry plan.now head cells.now }
    requires room { length room.old ≡ 23822 }
    requires sink { IsTrue (P.ready out.old) }

    ensures put { PutsCounted P.PacketSink out.old out.new
        (kept plan.now (frames_of cells.now) (packet_with plan.now head (frames_of cells.now)))
        result }
    ensures most { IfOk result (λ n. n ≤ 1) }
{
    if keeps(plan, cells) {
        if let Err(failed) = send(plan, head, cells, room, out) {
            return Err(failed);
        }
        return Ok(1);
    }
    Ok(0)
}

/// Puts the packet of all blocks held, consecutive ones, unless the plan leaves it out, and tells
/// how many packets those are.
///
/// `Failed` comes only where the sink's faults rose. A part of the packet may then have been put.
fn put_piece<P: PacketSink>(
    plan: &SendPlan,
    behind: Behind,
    group: &GroupBuffer,
    room: &mut [u8],
    out: &mut P,
) -> Result<u64, Failed>
    requires plan { IsPlan plan.now }
    requires single { plan.now.length ≡ 1 }
    requires behind { IsBehind behind }
    requires group { IsGroupOf plan.now group.now }
    requires some { 1 ≤ length group.now.blocks }
    requires room { length room.old ≡ 23822 }
    requires sink { IsTrue (P.ready out.old) }

    ensures { PutsCounted P.PacketSink out.old out.new (held_packets plan.now behind
        (held_of group.now) (full_in plan.now (length group.now.blocks))) result }
{
    let count = carried_len(plan, group);
    if count == 0 {
        return Ok(0);
    }
    let head = Head {
        marked: marker_at(plan.profile.codec, group, behind.spoken, 0),
        number: behind.packets,
        first: behind.blocks,
        stride: 1,
        index: 0,
    };
    if let Err(failed) = send(plan, head, group.blocks(0, count), room, out) {
        return Err(failed);
    }
    Ok(1)
}

/// Puts the packets of a whole group, the first packet first, and tells how many those are.
///
/// `Failed` comes only where the sink's faults rose. A prefix of the packets was then put.
fn put_group<P: PacketSink>(
    plan: &SendPlan,
    behind: Behind,
    group: &GroupBuffer,
    cells: &mut [Cell],
    room: &mut [u8],
    out: &mut P,
) -> Result<u64, Failed>
    requires plan { IsPlan plan.now }
    requires several { nat_eq plan.now.length 1 ≡ false }
    requires behind { IsBehind behind }
    requires group { IsGroupOf plan.now group.now }
    requires full { length group.now.blocks ≡ plan.now.blocks * plan.now.length }
    requires cells { length cells.old ≡ plan.now.blocks * plan.now.profile.channels }
    requires room { length room.old ≡ 23822 }
    requires sink { IsTrue (P.ready out.old) }

    ensures { PutsCounted P.PacketSink out.old out.new (held_packets plan.now behind
        (held_of group.now) (full_in plan.now (length group.now.blocks))) result }
{
    let mut sent = 0;
    for index in 0..plan.length {
        let at = usize::from(index);
        let head = Head {
            marked: marker_at(plan.profile.codec, group, behind.spoken, at),
            number: behind.packets + sent,
            first: behind.blocks + u64::from(index),
            stride: plan.length,
            index,
        };
        group.packet(index, cells);
        match send_kept(plan, head, cells, room, out) {
            Ok(count) => sent += count,
            Err(failed) => return Err(failed),
        }
    }
    Ok(sent)
}

/// How many packets carry a rest, where none is left out.
fn rest_size(plan: &SendPlan, group: &GroupBuffer) -> u64
    requires { IsPlan plan.now }
    ensures exact { result ≡ pieces plan.now.blocks (length group.now.blocks) }
    ensures most { result ≤ length group.now.blocks }
{
    let blocks = u64::from(plan.blocks);
    (group.len() as u64 + blocks - 1) / blocks
}

/// Puts the packets of a rest: of consecutive blocks, the last packet of what there is.
///
/// `Failed` comes only where the sink's faults rose. A prefix of the packets was then put.
fn put_rest<P: PacketSink>(
    plan: &SendPlan,
    behind: Behind,
    group: &GroupBuffer,
    room: &mut [u8],
    out: &mut P,
) -> Result<u64, Failed>
    requires plan { IsPlan plan.now }
    requires several { nat_eq plan.now.length 1 ≡ false }
    requires behind { IsBehind behind }
    requires group { IsGroupOf plan.now group.now }
    requires room { length room.old ≡ 23822 }
    requires sink { IsTrue (P.ready out.old) }

    ensures { PutsCounted P.PacketSink out.old out.new (held_packets plan.now behind
        (held_of group.now) (rests_in plan.now (length group.now.blocks)
        (pieces plan.now.blocks (length group.now.blocks)))) result }
{
    let len = group.len();
    let mut sent = 0;
    for number in 0..rest_size(plan, group) {
        let at = number as usize * usize::from(plan.blocks);
        let count = usize::from(plan.blocks).min(len - at);
        let head = Head {
            marked: marker_at(plan.profile.codec, group, behind.spoken, at),
            number: behind.packets + sent,
            first: behind.blocks + at as u64,
            stride: 1,
            index: 0,
        };
        match send_kept(plan, head, group.blocks(at, count), room, out) {
            Ok(count) => sent += count,
            Err(failed) => return Err(failed),
        }
    }
    Ok(sent)
}

/// Puts the packets that the last block held completes: of its group, or its packet; and tells how
/// many those are.
///
/// `Failed` comes only where the sink's faults rose. A prefix of the packets was then put.
pub fn put_full<P: PacketSink>(
    plan: &SendPlan,
    behind: Behind,
    group: &GroupBuffer,
    cells: &mut [Cell],
    room: &mut [u8],
    out: &mut P,
) -> Result<u64, Failed>
    requires plan { IsPlan plan.now }
    requires behind { IsBehind behind }
    requires group { IsFull plan.now group.now }
    requires cells { length cells.old ≡ plan.now.blocks * plan.now.profile.channels }
    requires room { length room.old ≡ 23822 }
    requires sink { IsTrue (P.ready out.old) }

    ensures { PutsCounted P.PacketSink out.old out.new (held_packets plan.now behind
        (held_of group.now) (full_in plan.now (length group.now.blocks))) result }
{
    if plan.length == 1 {
        put_piece(plan, behind, group, room, out)
    } else {
        put_group(plan, behind, group, cells, room, out)
    }
}

/// Puts the packets of the blocks held of which `fresh` were in no packet yet, and tells how many
/// those are.
///
/// `Failed` comes only where the sink's faults rose. A prefix of the packets was then put.
pub fn put_left<P: PacketSink>(
    plan: &SendPlan,
    behind: Behind,
    group: &GroupBuffer,
    fresh: u16,
    room: &mut [u8],
    out: &mut P,
) -> Result<u64, Failed>
    requires plan { IsPlan plan.now }
    requires behind { IsBehind behind }
    requires group { IsGroupOf plan.now group.now }
    requires fresh { fresh ≤ length group.now.blocks }
    requires room { length room.old ≡ 23822 }
    requires sink { IsTrue (P.ready out.old) }

    ensures { PutsCounted P.PacketSink out.old out.new (held_packets plan.now behind
        (held_of group.now) (left_in plan.now fresh (length group.now.blocks))) result }
{
    if plan.length != 1 {
        return put_rest(plan, behind, group, room, out);
    }
    if fresh == 0 {
        return Ok(0);
    }
    put_piece(plan, behind, group, room, out)
}
