ghost use Rattle.std.specs.Prelude.{◌≡◌, ◌≤◌, IsTrue, false};
ghost use Rattle.amr_frame.specs.Cells.{frame_of};
ghost use Rattle.amr_frame.specs.Frames.{IsFrame};
ghost use Rattle.amr_frame.specs.Tables.{is_reserved};
ghost use Rattle.amr_frame.specs.declared.codec.Codec.TheVariants.{Amr};

use crate::{GroupBuffer, GroupPlan};
use amr_bits::BitSlice;
use amr_frame::{Cell, Codec, bits_of};
use std::test::Fail;

// A frame of speech of a type below 8, whose bits are 0.
fn speech(ft: u8) -> Cell
    requires type_exists { ft ≤ 7 }
    requires not_reserved { is_reserved Amr ft ≡ false }
    ensures present { IsTrue result.present }
    ensures frame { IsFrame Amr (frame_of result) }
{
    let Some(bits) = BitSlice::of(&[0; 60], 0, bits_of(Codec::Amr, ft)) else {
        unreachable!()
    };
    Cell::from_bits(Codec::Amr, ft, true, bits)
}

#[test]
fn two_packets_of_a_group(rt: HostRuntime) -> Result<(), Fail> {
    let plan = GroupPlan {
        blocks: 2,
        length: 2,
    };
    let mut group = GroupBuffer::create(rt.alloc(), plan, 1, Codec::Amr, 1)?;
    group.add(&[speech(0)]);
    group.add(&[speech(1)]);
    group.add(&[speech(2)]);
    group.add(&[speech(3)]);
    assert_eq!(rt; group.len(), 4);
    let mut out = [Cell::absent(), Cell::absent()];
    group.packet(1, &mut out);
    assert_eq!(rt; out, [speech(1), speech(3)]);
    assert_eq!(rt; group.blocks(1, 2), &[speech(1), speech(2)][..]);
    assert_eq!(rt; group.block(3), &[speech(3)][..]);
    group.add(&[speech(4)]);
    group.pass(3);
    assert_eq!(rt; group.len(), 2);
    assert_eq!(rt; group.blocks(0, 2), &[speech(3), speech(4)][..]);
    group.pass(2);
    assert_eq!(rt; group.len(), 0);
    Ok(())
}

#[test]
fn places_there_and_back(rt: HostRuntime) -> Result<(), Fail> {
    let plan = GroupPlan {
        blocks: 2,
        length: 3,
    };
    assert_eq!(rt; plan.size(), 6);
    assert_eq!(rt; plan.place(2, 1, 0), 13);
    assert_eq!(rt; plan.of_place(13), (2, 1, 0));
    Ok(())
}
