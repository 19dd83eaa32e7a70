// The receiver of a session.
ghost use Rattle.std.specs.Prelude.{◌≡◌, ◌*◌, ◌<◌, IfOk, List, None, OnErr, [], false, length, true};
ghost use Rattle.amr_frame.specs.Steps.{BlockStep};
ghost use Rattle.amr_playout.specs.Heard.{heard};
ghost use Rattle.amr_playout.specs.Plans.{IsPlan, rules_in};
ghost use Rattle.amr_playout.specs.Steps.{TakesPlan};
ghost use Rattle.amr_toc.specs.Viewed.{format_of};
ghost use Rattle.spec_segments.specs.Segments.{horizon};
ghost use Rattle.spec_session.specs.Packets.{Packet};

use crate::answers::{Kept, Offered, Taken};
use crate::plan::Plan;
use crate::ring::absent_ring;
use crate::session::Begun;
use crate::step::{take, taken_into};
use crate::verdict::{segment_of, shown, spot_of, stray_behind};
use crate::window::restart;
use amr_frame::{BlockSink, Cell};
use amr_io::Failed;
use amr_toc::PayloadView;
use circular_buffer::HeapCircularBuffer;
use rtp_packet::RtpView;
use std::alloc::{AllocError, Global};
use std::marker::Model;

/// The bounded receiver of one session: packets in any order go in, and blocks in their order come out, segment after
/// segment. All its memory is taken when it is made.
#[derive(Drop)]
pub struct Receiver {
    plan: Plan,
    ring: HeapCircularBuffer<Cell>,
    session: Option<Begun>,
    segment: u64,
    stray: Option<u16>,
    counts: Kept,
    spent: bool,
}

impl Model for Receiver {
    ghost use Rattle.amr_playout.specs.Receiver.{IsReceiver, View, view_of};

    ghost Value = { View };

    ghost view = { view_of };

    ghost invariant = { IsReceiver };
}

impl Receiver {
    ghost use Rattle.amr_playout.specs.Offers.{Answers, Finishes, FinishesPart};
    ghost use Rattle.amr_playout.specs.Receiver.{KeepsPlan, StandsFor, TakesPackets, horizon_in};

    /// A receiver that has heard nothing, with room for each channel of each place of the window.
    pub fn create(alloc: Global, plan: Plan) -> Result<Receiver, AllocError>
        requires { IsPlan plan }
        ensures stands { IfOk result (λ r. StandsFor r []) }
        ensures plan { IfOk result (λ r. r.plan ≡ plan) }
        ensures session { IfOk result (λ r. r.session ≡ None) }
        ensures unspent { IfOk result (λ r. r.spent ≡ false) }
        ensures counts { IfOk result (λ r. r.counts ≡ record { late = 0; copies = 0; blocks = 0 }) }
        ensures room { IfOk result (λ r. length r.cells ≡ plan.window * plan.profile.channels) }
    {
        let cells = usize::from(plan.window) * usize::from(plan.profile.channels);
        let ring = absent_ring(alloc, plan.profile.codec, cells)?;
        Ok(Receiver {
            plan,
            ring,
            session: None,
            segment: 0,
            stray: None,
            counts: Kept {
                late: 0,
                copies: 0,
                blocks: 0,
            },
            spent: false,
        })
    }

    /// How many cells the receiver has, from when it is made on: the window times the channels.
    pub fn room(&self) -> usize
        ensures room { result ≡ length self.now.cells }
        ensures product { result ≡ self.now.plan.window * self.now.plan.profile.channels }
    {
        self.ring.len()
    }

    /// The last place of all packets of the segment so far, its first packet's being 0; `None` before the first.
    pub fn horizon(&self) -> Option<i64>
        ensures view { result ≡ horizon_in self.now.session }
        ensures heard { (h : List Packet) → StandsFor self.now h
            → result ≡ horizon (rules_in self.now.plan) h }
    {
        match &self.session {
            None => None,
            Some(session) => Some(shown(session.horizon)),
        }
    }

    /// What became of all packets so far.
    pub fn counts(&self) -> Kept
        ensures { result ≡ self.now.counts }
    {
        self.counts
    }

    /// Offers a packet.
    ///
    /// It is taken, or refused with S1 to S3, or the sink failed (S4) and the receiver is spent. Once it is taken, all blocks
    /// of the segments before its own have gone out, and those of its own up to the horizon less the window.
    pub fn offer<B: BlockSink>(
        &mut self,
        rtp: &RtpView<'_>,
        payload: &PayloadView<'_>,
        out: &mut B,
    ) -> Result<Taken, Offered>
        requires ready { TakesPackets self.old }
        requires read { format_of payload.now ≡ self.old.plan.profile }
        requires sink { TakesPlan B.BlockSink self.old.plan out.old }

        ensures answer { Answers B.BlockSink self.old self.new (heard rtp.now payload.now)
            out.old out.new result }
        ensures keeps { KeepsPlan self.old self.new }
        ensures same { B.same out.old out.new }
    {
        let spot = match spot_of(&self.plan, &self.session, self.stray, rtp, payload) {
            Ok(spot) => spot,
            Err(why) => {
                self.stray = stray_behind(self.stray, &why, rtp.sequence());
                return Err(Offered::Refused(why));
            }
        };
        let (plan, before) = (&self.plan, &self.session);
        match take(&mut self.ring, plan, before, spot, rtp, payload, out) {
            Ok(step) => {
                let taken = taken_into(segment_of(self.segment, spot), &step);
                self.session = Some(step.session);
                self.segment = taken.segment;
                self.stray = None;
                self.counts = self.counts.with(taken);
                Ok(taken)
            }
            Err(_) => {
                self.spent = true;
                Err(Offered::BlockFault)
            }
        }
    }

    /// Puts out the rest, tells how many blocks it had, and ends the receiver.
    pub fn finish<B: BlockSink>(&mut self, out: &mut B) -> Result<u64, Failed>
        requires unspent { self.old.spent ≡ false }
        requires sink { TakesPlan B.BlockSink self.old.plan out.old }

        ensures finished { IfOk result
            (Finishes B.BlockSink self.old self.new out.old out.new) }
        ensures part { OnErr result
            (FinishesPart B.BlockSink self.old self.new out.old out.new) }
        ensures spent { self.new.spent ≡ true }
        ensures session { self.new.session ≡ self.old.session }
        ensures keeps { KeepsPlan self.old self.new }
        ensures step { BlockStep B.BlockSink out.old out.new result }
    {
        self.spent = true;
        let count = restart(&mut self.ring, &self.plan, &self.session, out)?;
        self.counts.blocks += count;
        Ok(count)
    }
}
