// The window of a session: brought up to a later horizon, with the blocks put out that leave it.
ghost use Rattle.std.specs.Prelude.{◌≡◌, ◌*◌, ◌-◌, ◌+◌, ◌^◌, ◌<◌, ◌≤◌, IfOk, None, OnErr, OnOk, Some, length, max};
ghost use Rattle.amr_frame.specs.Blocks.{GotBlocks, GotPrefix};
ghost use Rattle.amr_frame.specs.Steps.{BlockStep};
ghost use Rattle.amr_playout.specs.Ring.{IsRing, KeepsRing};
ghost use Rattle.amr_playout.specs.Standing.{horizon_with};
ghost use Rattle.amr_playout.specs.Steps.{CanPush, IsReady, Restarts, RestartsPart, Slides, SlidesPart, StaysReady, TakesPlan, pushed_out};
ghost use Rattle.amr_playout.specs.Window.{held_of, slid};

use crate::block::{put_front, put_no_data};
use crate::plan::Plan;
use crate::ring::push_absent;
use crate::session::Begun;
use amr_frame::{BlockSink, Cell, Codec};
use amr_io::Failed;
use circular_buffer::HeapCircularBuffer;

/// A window once a horizon is reached: the horizon, the next place to go out, and how many blocks went out.
#[derive(Clone, Copy)]
pub struct Reached {
    pub horizon: u64,
    pub next: u64,
    pub released: u64,
}

/// Slides the ring of a plan by `count` blocks, and puts out those that it pushes out but the first `skip`. Past the
/// window nothing is held, so that a long jump is one pass over the ring, and then blocks of NO_DATA.
fn advance<B: BlockSink>(
    ring: &mut HeapCircularBuffer<Cell>,
    plan: &Plan,
    skip: u64,
    count: u64,
    out: &mut B,
) -> Result<(), Failed>
    requires ring { IsRing plan.now ring.old }
    requires skip { skip ≤ plan.now.window }
    requires sink { TakesPlan B.BlockSink plan.now out.old }

    ensures items { OnOk result (held_of ring.new.items
        ≡ slid (held_of ring.old.items) (count * plan.now.profile.channels)) }
    ensures out { OnOk result (GotBlocks B.whole out.old
        (pushed_out plan.now.profile.channels ring.old skip count) out.new) }
    ensures part { OnErr result (GotPrefix B.whole B.part
        out.old (pushed_out plan.now.profile.channels ring.old skip count) out.new) }
    ensures stays { StaysReady B.BlockSink plan.now ring.new out.old out.new result }
{
    let channels = usize::from(plan.profile.channels);
    let pass = count.min(u64::from(plan.window));
    put_held(ring, plan.profile.codec, channels, skip, pass, out)?;
    // On the way of most packets nothing is missing, and then no block is made for it.
    if pass == count {
        return Ok(());
    }
    put_no_data(channels, count - pass, out)
}

/// Slides the ring block by block, and puts out those that it pushes out but the first `skip`.
fn put_held<B: BlockSink>(
    ring: &mut HeapCircularBuffer<Cell>,
    codec: Codec,
    channels: usize,
    skip: u64,
    count: u64,
    out: &mut B,
) -> Result<(), Failed>
    requires ready { CanPush B.BlockSink codec channels ring.old out.old }

    ensures items { OnOk result
        (held_of ring.new.items ≡ slid (held_of ring.old.items) (count * channels)) }
    ensures out { OnOk result (GotBlocks B.whole
        out.old (pushed_out channels ring.old skip count) out.new) }
    ensures part { OnErr result (GotPrefix B.whole B.part out.old
        (pushed_out channels ring.old skip count) out.new) }
    ensures ring { KeepsRing codec ring.old ring.new }
    ensures step { BlockStep B.BlockSink out.old out.new result }
{
    for at in 0..count {
        if at < skip {
            push_absent(ring, codec, channels);
        } else {
            put_front(ring, codec, channels, out)?;
        }
    }
    Ok(())
}

/// Slides the window of a session that has copies to a later horizon.
#[inline(always)]
fn slide<B: BlockSink>(
    ring: &mut HeapCircularBuffer<Cell>,
    plan: &Plan,
    session: &Begun,
    last: u64,
    out: &mut B,
) -> Result<Reached, Failed>
    requires ready { IsReady B.BlockSink plan.now (Some session.now) ring.old out.old }
    requires last { (session.now.horizon ≤ last) × (last < 2 ^ 64 - 1) }

    ensures slid { IfOk result (Slides B.BlockSink plan.now (Some session.now) last
        ring.old ring.new out.old out.new) }
    ensures part { OnErr result (SlidesPart B.BlockSink plan.now (Some session.now) last
        ring.old out.old out.new) }
    ensures stays { StaysReady B.BlockSink plan.now ring.new out.old out.new result }
{
    let window = u64::from(plan.window);
    let skip = session.next - (session.horizon + 1 - window);
    let count = last - session.horizon;
    advance(ring, plan, skip, count, out)?;
    Ok(Reached {
        horizon: last,
        next: later(session.next, last + 1 - window),
        released: count.saturating_sub(skip),
    })
}

/// Brings the window up to the last place of a packet.
pub fn reach_to<B: BlockSink>(
    ring: &mut HeapCircularBuffer<Cell>,
    plan: &Plan,
    before: &Option<Begun>,
    last: u64,
    out: &mut B,
) -> Result<Reached, Failed>
    requires ready { IsReady B.BlockSink plan.now before.now ring.old out.old }
    requires last { (before.now ≡ None → 2 ^ 24 ≤ last) × (last < 2 ^ 63) }

    ensures slid { IfOk result (Slides B.BlockSink plan.now before.now
        (horizon_with before.now last) ring.old ring.new out.old out.new) }
    ensures part { OnErr result (SlidesPart B.BlockSink plan.now before.now
        (horizon_with before.now last) ring.old out.old out.new) }
    ensures stays { StaysReady B.BlockSink plan.now ring.new out.old out.new result }
{
    match before {
        None => Ok(Reached {
            horizon: last,
            next: last,
            released: 0,
        }),
        Some(session) => slide(ring, plan, session, later(session.horizon, last), out),
    }
}

/// Ends a session: puts out what the window still holds, and tells how many blocks it was. The ring is then that of no
/// session.
pub fn restart<B: BlockSink>(
    ring: &mut HeapCircularBuffer<Cell>,
    plan: &Plan,
    before: &Option<Begun>,
    out: &mut B,
) -> Result<u64, Failed>
    requires ready { IsReady B.BlockSink plan.now before.now ring.old out.old }

    ensures over { IfOk result (Restarts B.BlockSink plan.now before.now
        ring.old ring.new out.old out.new) }
    ensures part { OnErr result (RestartsPart B.BlockSink plan.now before.now
        ring.old out.old out.new) }
    ensures stays { StaysReady B.BlockSink plan.now ring.new out.old out.new result }
{
    match before {
        None => Ok(0),
        Some(session) => {
            let end = session.horizon + u64::from(plan.window);
            let slid = slide(ring, plan, session, end, out)?;
            Ok(slid.released)
        }
    }
}

/// The greater of two places.
fn later(a: u64, b: u64) -> u64
    ensures { result ≡ max a b }
{
    if a < b { b } else { a }
}
