// Accepting a packet whose place is known.
ghost use Rattle.std.specs.Prelude.{◌≡◌, ℤ, ◌+◌, ◌-◌, ◌*◌, ◌%◌, ◌^◌, ◌<◌, ◌≤◌, cond, int_lt, not, ◌≤ℤ◌, ◌<ℤ◌, ◌+ℤ◌, ◌-ℤ◌, IfOk, None, OnErr, Some, length};
ghost use Rattle.amr_playout.specs.Copied.{IsPast};
ghost use Rattle.amr_playout.specs.Heard.{IsReadBy, heard};
ghost use Rattle.amr_playout.specs.Plans.{IsPlan, rules_in};
ghost use Rattle.amr_playout.specs.Standing.{IsInside, IsSeat, edge_with};
ghost use Rattle.amr_playout.specs.Steps.{Accepts, AcceptsPart, CanTake, HasSeat, Renews, RenewsPart, StaysReady, TakesAt, TakesAtPart, taken_as};
ghost use Rattle.amr_playout.specs.Window.{at};
ghost use Rattle.amr_playout.specs.declared.session.Begun.{Begun as Start};
ghost use Rattle.amr_toc.specs.Viewed.{viewed};
ghost use Rattle.rtp_packet.specs.View.{packet};
ghost use Rattle.spec_session.specs.Counts.{late_in};
ghost use Rattle.spec_session.specs.Session.{Accepted};

use crate::answers::Taken;
use crate::merge::merge_all;
use crate::plan::Plan;
use crate::session::Begun;
use crate::shares::share_of;
use crate::verdict::{FIRST, Spot, last_of};
use crate::window::{reach_to, restart};
use amr_frame::{BlockSink, Cell};
use amr_io::Failed;
use amr_toc::PayloadView;
use circular_buffer::HeapCircularBuffer;
use rtp_packet::RtpView;

/// The segment once a packet is accepted, the packet's blocks that weren't in time, its frames whose place and channel had
/// a copy, and the blocks that were put out.
#[derive(Clone, Copy)]
pub struct Step {
    pub session: Begun,
    pub late: u32,
    pub copies: u32,
    pub released: u64,
}

/// What a packet gave that was taken into a segment with this number.
pub fn taken_into(segment: u64, step: &Step) -> Taken
    ensures { result ≡ taken_as segment step.now }
{
    Taken {
        late: step.late,
        copies: step.copies,
        released: step.released,
        segment,
    }
}

/// Takes a packet where it is found to belong: at its place, or as the first of a new segment.
#[inline(always)]
pub fn take<B: BlockSink>(
    ring: &mut HeapCircularBuffer<Cell>,
    plan: &Plan,
    before: &Option<Begun>,
    spot: Spot,
    rtp: &RtpView<'_>,
    payload: &PayloadView<'_>,
    out: &mut B,
) -> Result<Step, Failed>
    requires ready { CanTake B.BlockSink plan.now before.now payload.now ring.old out.old }
    requires spot { HasSeat before.now spot }

    ensures taken { IfOk result (TakesAt B.BlockSink plan.now before.now
        (heard rtp.now payload.now) spot ring.old ring.new out.old out.new) }
    ensures part { OnErr result (TakesAtPart B.BlockSink plan.now before.now
        (heard rtp.now payload.now) spot ring.old out.old out.new) }
    ensures stays { StaysReady B.BlockSink plan.now ring.new out.old out.new result }
{
    match spot {
        Spot::Here { place } => accept(ring, plan, before, rtp, place, payload, out),
        Spot::Anew => begin(ring, plan, before, rtp, payload, out),
    }
}

/// Begins a segment with a packet: puts out the rest of the one before it, and then accepts the packet as the first.
#[cold]
#[inline(never)]
fn begin<B: BlockSink>(
    ring: &mut HeapCircularBuffer<Cell>,
    plan: &Plan,
    before: &Option<Begun>,
    rtp: &RtpView<'_>,
    payload: &PayloadView<'_>,
    out: &mut B,
) -> Result<Step, Failed>
    requires ready { CanTake B.BlockSink plan.now before.now payload.now ring.old out.old }

    ensures renewed { IfOk result (Renews B.BlockSink plan.now before.now
        (heard rtp.now payload.now) ring.old ring.new out.old out.new) }
    ensures part { OnErr result (RenewsPart B.BlockSink plan.now before.now
        (heard rtp.now payload.now) ring.old out.old out.new) }
    ensures stays { StaysReady B.BlockSink plan.now ring.new out.old out.new result }
{
    let rest = restart(ring, plan, before, out)?;
    let step = accept(ring, plan, &None, rtp, FIRST, payload, out)?;
    Ok(Step {
        session: step.session,
        late: step.late,
        copies: step.copies,
        released: rest + step.released,
    })
}

/// Accepts a packet at its place: brings the window up to its last block, and merges its frames in time.
fn accept<B: BlockSink>(
    ring: &mut HeapCircularBuffer<Cell>,
    plan: &Plan,
    before: &Option<Begun>,
    rtp: &RtpView<'_>,
    place: u64,
    payload: &PayloadView<'_>,
    out: &mut B,
) -> Result<Step, Failed>
    requires ready { CanTake B.BlockSink plan.now before.now payload.now ring.old out.old }
    requires seat { IsSeat before.now place }

    ensures accepted { IfOk result (Accepts B.BlockSink plan.now before.now
        (heard rtp.now payload.now) place ring.old ring.new out.old out.new) }
    ensures part { OnErr result (AcceptsPart B.BlockSink plan.now before.now
        (heard rtp.now payload.now) place ring.old out.old out.new) }
    ensures stays { StaysReady B.BlockSink plan.now ring.new out.old out.new result }
{
    let last = last_of(plan, place, payload);
    let edge = edge_of(plan, before, place);
    let reached = reach_to(ring, plan, before, last, out)?;
    let base = reached.horizon + 1 - u64::from(plan.window);
    let late = late_blocks(plan, edge, place, payload);
    let merged = merge_all(ring, plan, base, edge, place, payload, reached.next);
    let (source, origin) = start_of(before, rtp);
    Ok(Step {
        session: Begun {
            source,
            origin,
            horizon: reached.horizon,
            next: merged.next,
        },
        late,
        copies: merged.copies,
        released: reached.released,
    })
}

/// The last place that isn't in time, as far as a packet at a place goes.
fn edge_of(plan: &Plan, before: &Option<Begun>, place: u64) -> u64
    requires plan { IsPlan plan.now }
    requires place { 0 < place }
    requires inside { IsInside (rules_in plan.now) before.now }
    ensures { result ≡ edge_with (rules_in plan.now) before.now place }
{
    match before {
        None => place - 1,
        Some(session) => session.horizon - u64::from(plan.window),
    }
}

/// The source and the timestamp that a segment goes by.
fn start_of(before: &Option<Begun>, rtp: &RtpView<'_>) -> (u32, u32)
    ensures fresh { before.now ≡ None
        → (result.0 ≡ (packet rtp.now).ssrc) × (result.1 ≡ (packet rtp.now).timestamp) }
    ensures going { (s : Start) → before.now ≡ Some s
        → (result.0 ≡ s.source) × (result.1 ≡ s.origin) }
{
    match before {
        None => (rtp.ssrc(), rtp.timestamp()),
        Some(session) => (session.source, session.origin),
    }
}

/// How many blocks of a packet aren't in time.
fn late_blocks(plan: &Plan, edge: u64, place: u64, payload: &PayloadView<'_>) -> u32
    requires read { IsReadBy plan.now payload.now }
    requires place { place < 2 ^ 62 + 2 ^ 30 }
    ensures late { (a : Accepted) → IsPast (rules_in plan.now) (viewed payload.now) place edge a
        → result ≡ late_in (rules_in plan.now) a }
    ensures few { result ≤ length (viewed payload.now).frames }
{
    let blocks = share_of(payload.frames(), usize::from(plan.profile.channels));
    let stride = u64::from(payload.stride());
    let mut late = 0;
    for block in 0..blocks {
        late += late_one(edge, place + block as u64 * stride);
    }
    late
}

/// 1 for a place that isn't past the edge, and 0 for any other.
fn late_one(edge: u64, place: u64) -> u32
    ensures late { result ≡ cond (not (int_lt (at edge) (at place))) 1 0 }
    ensures few { result ≤ 1 }
{
    if place <= edge { 1 } else { 0 }
}
