ghost use Rattle.std.specs.Prelude.{◌≤◌};

use crate::{ModeDesk, ModeSet, Request, request_of};
use amr_frame::Codec;
use std::test::Fail;

const SPREAD: ModeSet = ModeSet { bits: 0xa5 };

#[test]
fn sets_of_bits(rt: HostRuntime) -> Result<(), Fail> {
    assert_eq!(rt; ModeSet::of(Codec::Amr, 0xa5), Some(SPREAD));
    assert_eq!(rt; ModeSet::of(Codec::Amr, 0), None);
    assert_eq!(rt; ModeSet::of(Codec::Amr, 0x100), None);
    assert_eq!(rt;
        ModeSet::of(Codec::AmrWb, 0x1ff),
        Some(ModeSet::all(Codec::AmrWb))
    );
    assert_eq!(rt; ModeSet::of(Codec::AmrWb, 0x200), None);
    assert_eq!(rt;
        (SPREAD.has(2), SPREAD.has(3), SPREAD.has(16)),
        (true, false, false)
    );
    assert_eq!(rt; SPREAD.within(&ModeSet::all(Codec::Amr)), true);
    assert_eq!(rt; ModeSet::all(Codec::Amr).within(&SPREAD), false);
    assert_eq!(rt;
        (SPREAD.greatest(), ModeSet::all(Codec::AmrWb).greatest()),
        (7, 8)
    );
    Ok(())
}

#[test]
fn requests_of_both_codecs(rt: HostRuntime) -> Result<(), Fail> {
    assert_eq!(rt; request_of(Codec::AmrWb, 8), Request::Mode(8));
    assert_eq!(rt; request_of(Codec::Amr, 8), Request::Ignored);
    assert_eq!(rt; request_of(Codec::Amr, 15), Request::None);
    Ok(())
}

// The modes after three payloads with these requests.
fn heard(mut desk: ModeDesk, first: u8, second: u8, third: u8) -> [u8; 3]
    requires first { first ≤ 15 }
    requires second { second ≤ 15 }
    requires third { third ≤ 15 }
{
    desk.hear(first);
    let one = desk.step();
    desk.hear(second);
    let two = desk.step();
    desk.hear(third);
    [one, two, desk.step()]
}

#[test]
#[tactic(auto, unfolding(crate::specs::Members::members))]
fn desks_move_to_neighbours(rt: HostRuntime) -> Result<(), Fail> {
    let every = ModeDesk::new(Codec::Amr, SPREAD, true, 1, 7);
    assert_eq!(rt; heard(every, 0, 15, 15), [5, 2, 0]);
    let second = ModeDesk::new(Codec::Amr, SPREAD, true, 2, 7);
    assert_eq!(rt; heard(second, 0, 15, 15), [5, 5, 2]);
    let any = ModeDesk::new(Codec::Amr, SPREAD, false, 1, 7);
    assert_eq!(rt; heard(any, 1, 8, 6), [0, 0, 5]);
    Ok(())
}
