// What becomes of a packet: its place in the segment so far, that it begins a new one, or why it is refused.
ghost use Rattle.std.specs.Int.{cast_signed, w32};
ghost use Rattle.std.specs.Prelude.{◌≡◌, ◌+◌, ◌-◌, ◌*◌, ◌^◌, ◌<◌, ◌≤◌, IfErr, IfOk, None, Option, Some};
ghost use Rattle.amr_frame.specs.Tables.{ticks};
ghost use Rattle.amr_playout.specs.Heard.{IsReadBy, heard};
ghost use Rattle.amr_playout.specs.Plans.{rules_in};
ghost use Rattle.amr_playout.specs.Standing.{IsFitting, IsSeat, last_from};
ghost use Rattle.amr_playout.specs.Verdicts.{CanJudge, IsDeclined, IsFound, IsPassed, IsSeated, IsWithinReach, begins, segment_with, stray_with};
ghost use Rattle.amr_playout.specs.Window.{at};
ghost use Rattle.amr_toc.specs.Viewed.{viewed};
ghost use Rattle.spec_segments.specs.Segments.{follows};
ghost use Rattle.spec_session.specs.Places.{apart, place_near};

use crate::answers::Refusal;
use crate::plan::Plan;
use crate::session::Begun;
use crate::shares::share_of;
use amr_frame::{Codec, step};
use amr_toc::PayloadView;
use rtp_packet::RtpView;

/// The place of the first packet of a segment.
pub const FIRST: u64 = 16_777_216;

const TURN: u64 = 4_294_967_296;

/// Where a packet is taken.
#[derive(Clone, Copy)]
pub enum Spot {
    /// At a place of the segment so far.
    Here { place: u64 },
    /// As the first of a new segment.
    Anew,
}

/// Where a packet is taken, or why it is refused. One that the segment so far refuses as off the grid or too far ahead
/// begins a new one where it follows the stray.
#[inline(always)]
pub fn spot_of(
    plan: &Plan,
    before: &Option<Begun>,
    stray: Option<u16>,
    rtp: &RtpView<'_>,
    payload: &PayloadView<'_>,
) -> Result<Spot, Refusal>
    requires ready { CanJudge plan.now before.now payload.now }

    ensures found { IfOk result (IsFound (rules_in plan.now) before.now stray
        (heard rtp.now payload.now)) }
    ensures passed { IfErr result (IsPassed (rules_in plan.now) before.now stray
        (heard rtp.now payload.now)) }
{
    match seat(plan, before, rtp, payload) {
        Ok(place) => Ok(Spot::Here { place }),
        Err(why) => {
            if is_begun(stray, &why, rtp.sequence()) {
                Ok(Spot::Anew)
            } else {
                Err(why)
            }
        }
    }
}

/// Whether a refused packet with this sequence number begins a segment.
fn is_begun(stray: Option<u16>, why: &Refusal, sequence: u16) -> bool
    ensures { result ≡ begins stray sequence why.now }
{
    match why {
        Refusal::OtherSource { .. } => false,
        Refusal::OffGrid { .. } | Refusal::FarAhead { .. } => is_next(stray, sequence),
    }
}

/// Whether a sequence number is the one behind the stray's.
fn is_next(stray: Option<u16>, sequence: u16) -> bool
    ensures { result ≡ follows stray sequence }
{
    match stray {
        None => false,
        Some(last) => sequence == last.wrapping_add(1),
    }
}

/// The stray once a packet with this sequence number was refused: that packet, if it is of the source.
pub fn stray_behind(stray: Option<u16>, why: &Refusal, sequence: u16) -> Option<u16>
    ensures { result ≡ stray_with stray sequence why.now }
{
    match why {
        Refusal::OtherSource { .. } => stray,
        Refusal::OffGrid { .. } | Refusal::FarAhead { .. } => Some(sequence),
    }
}

/// The number of the segment that a packet is taken into.
pub fn segment_of(segment: u64, spot: Spot) -> u64
    requires { segment < 2 ^ 63 }
    ensures { result ≡ segment_with segment spot }
{
    match spot {
        Spot::Here { .. } => segment,
        Spot::Anew => segment + 1,
    }
}

/// The place of a packet in the segment so far, or why it is refused; the first packet of a session is never refused.
fn seat(
    plan: &Plan,
    before: &Option<Begun>,
    rtp: &RtpView<'_>,
    payload: &PayloadView<'_>,
) -> Result<u64, Refusal>
    requires ready { CanJudge plan.now before.now payload.now }

    ensures seated { IfOk result (IsSeated (rules_in plan.now) before.now
        (heard rtp.now payload.now)) }
    ensures declined { IfErr result (IsDeclined (rules_in plan.now) before.now
        (heard rtp.now payload.now)) }
    ensures seat { IfOk result (IsSeat before.now) }
    ensures reach { IfOk result (IsWithinReach (rules_in plan.now) before.now
        (viewed payload.now)) }
{
    match before {
        None => Ok(FIRST),
        Some(session) => judge(plan, session, rtp, payload),
    }
}

/// The place of a later packet, or why it is refused.
fn judge(
    plan: &Plan,
    session: &Begun,
    rtp: &RtpView<'_>,
    payload: &PayloadView<'_>,
) -> Result<u64, Refusal>
    requires ready { CanJudge plan.now (Some session.now) payload.now }

    ensures seated { IfOk result (IsSeated (rules_in plan.now) (Some session.now)
        (heard rtp.now payload.now)) }
    ensures declined { IfErr result (IsDeclined (rules_in plan.now) (Some session.now)
        (heard rtp.now payload.now)) }
    ensures last { IfOk result (λ u. last_from (rules_in plan.now) (viewed payload.now) u
        ≤ session.now.horizon + plan.now.reach) }
    ensures near { IfOk result (λ u. (4096 ≤ u) × (u ≤ session.now.horizon + 2 ^ 24)) }
{
    let got = rtp.ssrc();
    if got != session.source {
        return Err(Refusal::OtherSource {
            kept: session.source,
            got,
        });
    }
    let codec = plan.profile.codec;
    let place = match place_of(codec, session.origin, rtp.timestamp(), session.horizon) {
        Ok(place) => place,
        Err(delta) => return Err(Refusal::OffGrid { delta }),
    };
    let last = last_of(plan, place, payload);
    if session.horizon + u64::from(plan.reach) < last {
        return Err(Refusal::FarAhead {
            horizon: shown(session.horizon),
            last: shown(last),
        });
    }
    Ok(place)
}

/// The last place of a packet at a place.
pub fn last_of(plan: &Plan, place: u64, payload: &PayloadView<'_>) -> u64
    requires read { IsReadBy plan.now payload.now }
    requires place { place < 2 ^ 62 + 2 ^ 30 }
    ensures last { result ≡ last_from (rules_in plan.now) (viewed payload.now) place }
    ensures fitting { IsFitting plan.now (viewed payload.now) }
    ensures fits { result < place + plan.now.window }
    ensures after { place ≤ result }
{
    let blocks = share_of(payload.frames(), usize::from(plan.profile.channels));
    place + (blocks - 1) as u64 * u64::from(payload.stride())
}

/// The place of a timestamp near the horizon, or how far it is from the horizon's where that is no multiple of a frame time.
fn place_of(codec: Codec, origin: u32, timestamp: u32, horizon: u64) -> Result<u64, i64>
    requires horizon { (2 ^ 24 ≤ horizon) × (horizon < 2 ^ 63) }
    ensures place { IfOk result (λ u.
        place_near (ticks codec) origin timestamp (at horizon) ≡ Some (at u)) }
    ensures off { IfErr result (λ d.
        (place_near (ticks codec) origin timestamp (at horizon) ≡ None)
        × (apart (ticks codec) origin timestamp (at horizon) ≡ d)) }
    ensures near { IfOk result (λ u.
        (horizon + 4096 ≤ u + 2 ^ 24) × (u ≤ horizon + 2 ^ 24)) }
{
    let ticks = step(codec) as u64;
    let ahead = ahead_of(codec, origin, timestamp, horizon);
    if ahead < TURN / 2 {
        if ahead % ticks == 0 {
            Ok(horizon + ahead / ticks)
        } else {
            Err(ahead as i64)
        }
    } else {
        let back = TURN - ahead;
        if back % ticks == 0 {
            Ok(horizon - back / ticks)
        } else {
            Err(-(back as i64))
        }
    }
}

/// How far a timestamp is past the horizon's, modulo 2^32.
fn ahead_of(codec: Codec, origin: u32, timestamp: u32, horizon: u64) -> u64
    requires horizon { 2 ^ 24 ≤ horizon }
    ensures apart { cast_signed w32 result ≡ apart (ticks codec) origin timestamp (at horizon) }
    ensures small { result < 2 ^ 32 }
{
    let ticks = step(codec) as u64;
    let at_horizon = (origin as u64 + ticks * ((horizon - FIRST) % TURN)) % TURN;
    (timestamp as u64 + TURN - at_horizon) % TURN
}

/// A place counted from the first packet's.
pub fn shown(place: u64) -> i64
    requires { place < 2 ^ 63 }
    ensures { result ≡ at place }
{
    place as i64 - FIRST as i64
}
