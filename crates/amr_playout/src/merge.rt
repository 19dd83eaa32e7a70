// Merging the frames of a packet into the ring.
ghost use Rattle.std.specs.Prelude.{◌≡◌, ◌+◌, ◌-◌, ◌*◌, ◌/◌, ◌^◌, ◌<◌, ◌≤◌, ◌⊎◌, ◌-ℤ◌, List, is_some, length, min, pos, true};
ghost use Rattle.amr_frame.specs.Cells.{frame_of};
ghost use Rattle.amr_playout.specs.Copied.{CanMerge, HoldsBest, IsPast, Merges, TakesCopies, copy_past, newly};
ghost use Rattle.amr_playout.specs.Heard.{IsReadBy};
ghost use Rattle.amr_playout.specs.Merging.{CanMergeAll, MergesAll};
ghost use Rattle.amr_playout.specs.Plans.{rules_in};
ghost use Rattle.amr_playout.specs.Ring.{IsRing};
ghost use Rattle.amr_playout.specs.Standing.{IsFitting, last_from};
ghost use Rattle.amr_playout.specs.Window.{at};
ghost use Rattle.amr_toc.specs.Viewed.{viewed};
ghost use Rattle.spec_session.specs.Copies.{Copy, copies_in};
ghost use Rattle.spec_session.specs.Release.{best_at};
ghost use Rattle.spec_session.specs.Session.{Accepted};

use crate::plan::Plan;
use crate::ring::merge_at;
use crate::shares::{channel_of, share_of};
use amr_frame::Cell;
use amr_toc::PayloadView;
use circular_buffer::HeapCircularBuffer;

/// The next place to go out, and how many copies came for a cell that had one.
#[derive(Clone, Copy)]
pub struct Merged {
    pub next: u64,
    pub copies: u32,
}

/// Merges a frame into the cell of a place and a channel, and tells whether the cell had one.
fn merge_frame(
    ring: &mut HeapCircularBuffer<Cell>,
    plan: &Plan,
    base: u64,
    place: u64,
    channel: usize,
    frame: &Cell,
) -> bool
    requires ready { CanMerge plan.now ring.old channel frame.now }
    requires within { (base ≤ place) × (place < base + plan.now.window) }

    ensures merged { Merges plan.now base ring.old ring.new
        (newly (at base -ℤ pos 1) (at place) channel (frame_of frame.now)) }
    ensures had { (cs : List Copy) → HoldsBest plan.now base ring.old cs
        → result ≡ is_some (best_at plan.now.profile.codec cs (at place) channel) }
    ensures ring { IsRing plan.now ring.new }
{
    let row = (place - base) as usize;
    let index = row * plan.profile.channels as usize + channel;
    merge_at(ring, plan.profile.codec, index, frame)
}

/// Merges a frame that stands past the edge.
fn merge_past(
    ring: &mut HeapCircularBuffer<Cell>,
    plan: &Plan,
    base: u64,
    edge: u64,
    place: u64,
    channel: usize,
    frame: &Cell,
    so_far: Merged,
) -> Merged
    requires ready { CanMerge plan.now ring.old channel frame.now }
    requires within { (edge < place → base ≤ place) × (place < base + plan.now.window) }
    requires few { so_far.copies < 2 ^ 31 }

    ensures merged { TakesCopies plan.now base ring.old ring.new so_far result
        (copy_past edge place channel frame.now) }
    ensures few { result.copies ≤ so_far.copies + 1 }
{
    if place <= edge {
        return so_far;
    }
    let had = merge_frame(ring, plan, base, place, channel, frame);
    Merged {
        next: lower(so_far.next, place),
        copies: if had {
            so_far.copies + 1
        } else {
            so_far.copies
        },
    }
}

/// The lower of two places.
fn lower(a: u64, b: u64) -> u64
    ensures { result ≡ min a b }
{
    if b < a { b } else { a }
}

/// Merges the frames of a packet that stand past the edge. The last of them stands in the window.
pub fn merge_all(
    ring: &mut HeapCircularBuffer<Cell>,
    plan: &Plan,
    base: u64,
    edge: u64,
    place: u64,
    payload: &PayloadView<'_>,
    next: u64,
) -> Merged
    requires ring { IsRing plan.now ring.old }
    requires read { IsReadBy plan.now payload.now }
    requires fitting { IsFitting plan.now (viewed payload.now) }
    requires low { (base ≤ place) ⊎ (base ≤ edge + 1) }
    requires high { last_from (rules_in plan.now) (viewed payload.now) place
        < base + plan.now.window }
    requires small { base < 2 ^ 63 }

    ensures merged { (a : Accepted) → IsPast (rules_in plan.now) (viewed payload.now) place edge a
        → TakesCopies plan.now base ring.old ring.new (record { next = next; copies = 0 }) result
        (copies_in (rules_in plan.now) a) }
    ensures few { result.copies ≤ length (viewed payload.now).frames }
    ensures ring { IsRing plan.now ring.new }
{
    if plan.profile.sorting {
        return merge_sorted(ring, plan, base, edge, place, payload, next);
    }
    merge_walked::<0>(ring, plan, base, edge, place, payload, next)
}

/// Merges the frames of a packet as `merge_all` does. It has the rows of a format that sorts the octets, so that the
/// way of other formats needn't clear them.
#[inline(never)]
fn merge_sorted(
    ring: &mut HeapCircularBuffer<Cell>,
    plan: &Plan,
    base: u64,
    edge: u64,
    place: u64,
    payload: &PayloadView<'_>,
    next: u64,
) -> Merged
    requires ready { CanMergeAll plan.now base edge place payload.now ring.old }

    ensures { MergesAll plan.now base edge place payload.now next ring.old ring.new result }
{
    merge_walked::<60>(ring, plan, base, edge, place, payload, next)
}

/// Merges the frames of a packet as `merge_all` does, by a walk with so many rows.
#[inline(always)]
fn merge_walked<const ROWS: usize>(
    ring: &mut HeapCircularBuffer<Cell>,
    plan: &Plan,
    base: u64,
    edge: u64,
    place: u64,
    payload: &PayloadView<'_>,
    next: u64,
) -> Merged
    requires ready { CanMergeAll plan.now base edge place payload.now ring.old }
    requires rows { (plan.now.profile.sorting ≡ true → ROWS ≡ 60) × (ROWS ≤ 60) }

    ensures { MergesAll plan.now base edge place payload.now next ring.old ring.new result }
{
    let channels = plan.profile.channels as usize;
    let stride = payload.stride();
    let mut merged = Merged { next, copies: 0 };
    let mut walk = payload.walk::<ROWS>();
    for index in 0..payload.frames() {
        let spot = place + share_of(index, channels) as u64 * stride as u64;
        let frame = payload.next_frame(index, &mut walk);
        let channel = channel_of(index, channels);
        merged = merge_past(ring, plan, base, edge, spot, channel, &frame, merged);
    }
    merged
}
