// The sender of a stream.
ghost use Rattle.std.specs.Prelude.{◌≡◌, ◌↔◌, ◌≤◌, ◌*◌, ◌++◌, ◌∷◌, ℕ, IfOk, IsTrue, List, OnErr, OnOk, [], false, length, true};
ghost use Rattle.amr_frame.specs.Blocks.{IsPresentBlock, frames_of};
ghost use Rattle.rtp_packet.specs.PacketSteps.{PacketStep};
ghost use Rattle.spec_sending.specs.Plans.{IsPlan};
ghost use Rattle.spec_store.specs.StorageReading.{frame_in, is_unit};

use crate::groups::{put_full, put_left, spoken_before};
use crate::packet::{Behind, Head, MOST_OCTETS};
use crate::single::{
    MOST_UNIT, SINGLE_ROOM, begins_talkspurt, is_single, unit_speaks, write_single,
};
use amr_frame::Cell;
use amr_group::{GroupBuffer, GroupPlan};
use amr_io::Failed;
use rtp_packet::PacketSink;
use spec_sending::SendPlan;
use std::alloc::{AllocError, Global};
use std::marker::Model;

/// The most blocks that a sender takes.
const MOST_BLOCKS: u64 = 3 << 54;

/// The sender of one stream: blocks in their order go in, and the packets that carry them come out,
/// each as soon as its last block came. All its memory is taken when it is made.
#[derive(Drop)]
pub struct Sender {
    plan: SendPlan,
    /// The blocks held for the next packets: those that came since the last packets, and before
    /// them those that are sent again.
    group: GroupBuffer,
    /// How many blocks came since the last packets.
    fresh: u16,
    /// The cells of one packet of a group.
    cells: Vec<Cell>,
    /// The octets of one packet.
    room: Vec<u8>,
    blocks: u64,
    packets: u64,
    /// The block before those held has a frame of speech.
    spoken: bool,
    spent: bool,
}

impl Model for Sender {
    ghost use Rattle.amr_sender.specs.Sender.{IsSender, View, view_of};

    ghost Value = { View };

    ghost view = { view_of };

    ghost invariant = { IsSender };
}

/// How many blocks complete the packets of a group, or a packet of consecutive blocks.
fn group_size(plan: &SendPlan) -> u16
    ensures { result ≡ plan.now.blocks * plan.now.length }
{
    u16::from(plan.blocks) * u16::from(plan.length)
}

impl Sender {
    ghost use Rattle.amr_frame.specs.Frames.{Frame};
    ghost use Rattle.amr_sender.specs.Sender.{StandsFor, TakesBlock};
    ghost use Rattle.amr_sender.specs.Sends.{Finishes, FinishesPart, Takes, TakesPart};
    ghost use Rattle.amr_sender.specs.Single.{Makes, SendsSingly};
    ghost use Rattle.spec_sending.specs.Sending.{begun};

    /// A sender that has got nothing, with room for one packet, one group of blocks and those that
    /// are sent again.
    pub fn create(alloc: Global, plan: SendPlan) -> Result<Sender, AllocError>
        requires { IsPlan plan }

        ensures stands { IfOk result (λ s. StandsFor s []) }
        ensures plan { IfOk result (λ s. s.plan ≡ plan) }
        ensures none { IfOk result (λ s. (s.blocks ≡ 0) × (s.packets ≡ 0)) }
        ensures unspent { IfOk result (λ s. s.spent ≡ false) }
    {
        let groups = GroupPlan {
            blocks: plan.blocks,
            length: plan.length,
        };
        let group = GroupBuffer::create(
            alloc,
            groups,
            plan.repeat,
            plan.profile.codec,
            plan.profile.channels,
        )?;
        let most = usize::from(plan.blocks) * usize::from(plan.profile.channels);
        let cells = vec![in alloc; Cell::absent(); most]?;
        let room = vec![in alloc; 0u8; MOST_OCTETS]?;
        Ok(Sender {
            plan,
            group,
            fresh: 0,
            cells,
            room,
            blocks: 0,
            packets: 0,
            spoken: false,
            spent: false,
        })
    }

    /// How many packets were put so far, unless a call failed.
    pub fn packets(&self) -> u64
        ensures view { result ≡ self.now.packets }
        ensures begun { (b : List (List Frame)) → StandsFor self.now b
            → result ≡ length (begun self.now.plan b) }
    {
        self.packets
    }

    /// Whether it takes a block more: no call failed, it wasn't ended, and fewer than 3 * 2^54
    /// blocks came.
    pub fn takes_block(&self) -> bool
        ensures { IsTrue result ↔ TakesBlock self.now }
    {
        !self.spent && self.blocks < MOST_BLOCKS
    }

    /// Takes a block, and puts the packet, or the packets of the group, of which it is the last;
    /// packets that the plan leaves out aren't put.
    ///
    /// `Failed` comes only where the sink's faults rose: the sender is then spent.
    pub fn put_block<P: PacketSink>(&mut self, cells: &[Cell], out: &mut P) -> Result<(), Failed>
        requires takes { TakesBlock self.old }
        requires block { IsPresentBlock self.old.plan.profile.codec self.old.plan.profile.channels
            cells.now }
        requires sink { IsTrue (P.ready out.old) }

        ensures taken { OnOk result (Takes P.PacketSink self.old self.new (frames_of cells.now)
            out.old out.new) }
        ensures part { OnErr result (TakesPart P.PacketSink self.old self.new
            (frames_of cells.now) out.old out.new) }
        ensures plan { self.new.plan ≡ self.old.plan }
        ensures step { PacketStep P.PacketSink out.old out.new result }
    {
        self.group.add(cells);
        self.fresh += 1;
        self.blocks += 1;
        if self.fresh < group_size(&self.plan) {
            return Ok(());
        }
        self.spent = true;
        let behind = Behind {
            spoken: self.spoken,
            packets: self.packets,
            blocks: self.blocks - self.group.len() as u64,
        };
        let sent = put_full(
            &self.plan,
            behind,
            &self.group,
            &mut self.cells,
            &mut self.room,
            out,
        )?;
        let gone = self
            .group
            .len()
            .saturating_sub(usize::from(self.plan.repeat));
        self.spoken = spoken_before(self.plan.profile.codec, &self.group, self.spoken, gone);
        self.group.pass(gone);
        self.fresh = 0;
        self.packets += sent;
        self.spent = false;
        Ok(())
    }

    /// Whether each packet carries one frame, in a bandwidth-efficient payload (RFC 4867, 4.3), and
    /// none is left out: `make_packet` makes such packets.
    pub fn sends_singly(&self) -> bool
        ensures { IsTrue result ↔ SendsSingly self.now.plan }
    {
        is_single(&self.plan)
    }

    /// Takes the frame that stands first in octets of a storage file (RFC 4867, 5.3) as the next
    /// block, writes its packet to the front of `out`, and tells how many octets the packet has.
    ///
    /// What stands behind the frame, and its padding bits, may be anything.
    pub fn make_packet(&mut self, unit: &[u8; MOST_UNIT], out: &mut [u8; SINGLE_ROOM]) -> usize
        requires single { SendsSingly self.old.plan }
        requires takes { TakesBlock self.old }

        ensures made { Makes self.old self.new
            (frame_in self.old.plan.profile.codec unit.now ∷ []) out.new result }
        ensures own { (own more : List ℕ) → unit.now ≡ own ++ more
            → is_unit self.old.plan.profile.codec own ≡ true
            → frame_in self.old.plan.profile.codec own
            ≡ frame_in self.old.plan.profile.codec unit.now }
        ensures some { 1 ≤ result }
        ensures most { result ≤ 76 }
        ensures plan { self.new.plan ≡ self.old.plan }
    {
        let speech = unit_speaks(self.plan.profile.codec, unit);
        let head = Head {
            marked: begins_talkspurt(speech, self.spoken),
            number: self.packets,
            first: self.blocks,
            stride: 1,
            index: 0,
        };
        let size = write_single(&self.plan, head, unit, out);
        self.spoken = speech;
        self.blocks += 1;
        self.packets += 1;
        size
    }

    /// Puts the packets of the blocks that are left, fewer than a group or than a packet has, and
    /// ends the sender.
    ///
    /// `Failed` comes only where the sink's faults rose.
    pub fn finish<P: PacketSink>(&mut self, out: &mut P) -> Result<(), Failed>
        requires unspent { self.old.spent ≡ false }
        requires sink { IsTrue (P.ready out.old) }

        ensures finished { OnOk result
            (Finishes P.PacketSink self.old self.new out.old out.new) }
        ensures part { OnErr result (FinishesPart P.PacketSink self.old out.old out.new) }
        ensures spent { self.new.spent ≡ true }
        ensures blocks { self.new.blocks ≡ self.old.blocks }
        ensures plan { self.new.plan ≡ self.old.plan }
        ensures step { PacketStep P.PacketSink out.old out.new result }
    {
        self.spent = true;
        let behind = Behind {
            spoken: self.spoken,
            packets: self.packets,
            blocks: self.blocks - self.group.len() as u64,
        };
        let sent = put_left(
            &self.plan,
            behind,
            &self.group,
            self.fresh,
            &mut self.room,
            out,
        )?;
        self.packets += sent;
        self.fresh = 0;
        Ok(())
    }
}
