ghost use Rattle.std.specs.Prelude.{◌≡◌, ◌≤◌, false};
ghost use Rattle.amr_frame.specs.Cells.{IsCell};
ghost use Rattle.amr_frame.specs.Tables.{is_reserved};
ghost use Rattle.amr_frame.specs.declared.codec.Codec.TheVariants.{AmrWb};

use crate::{compare, keep_better};
use amr_bits::BitSlice;
use amr_frame::{Cell, Codec, bits_of};
use std::cmp::Ordering;

// A frame of AMR-WB with the first bit, and with bit 131, the last of type 0, as asked.
fn frame(ft: u8, q: bool, first: bool, last: bool) -> Cell
    requires type_exists { ft ≤ 15 }
    requires not_reserved { is_reserved AmrWb ft ≡ false }
    ensures { IsCell AmrWb result }
{
    let mut octets = [0u8; 60];
    if first {
        octets[0] = 0x80;
    }
    if last {
        octets[16] = 0x10;
    }
    match BitSlice::of(&octets, 0, bits_of(Codec::AmrWb, ft)) {
        Some(bits) => Cell::from_bits(Codec::AmrWb, ft, q, bits),
        None => Cell::absent(),
    }
}

// Which of two cells is the better, and whether the first then is as the second.
fn better_of(a: &Cell, b: &Cell) -> (Ordering, Cell)
    requires first { IsCell AmrWb a.now }
    requires second { IsCell AmrWb b.now }
{
    let mut kept = *a;
    keep_better(Codec::AmrWb, &mut kept, b);
    (compare(Codec::AmrWb, a, b), kept)
}

#[test]
fn frames_in_rising_order(rt: HostRuntime) {
    let rising = [
        Cell::absent(),
        frame(15, false, false, false),
        frame(15, true, false, false),
        frame(14, false, false, false),
        frame(14, true, false, false),
        frame(9, false, true, false),
        frame(0, false, true, true),
        frame(8, false, false, false),
        frame(9, true, false, false),
        frame(0, true, false, false),
        frame(0, true, false, true),
        frame(0, true, true, false),
        frame(0, true, true, true),
        frame(1, true, false, false),
    ];
    for i in 0..14 {
        for j in 0..14 {
            assert!(rt; rising[i].valid(Codec::AmrWb));
            assert!(rt; rising[j].valid(Codec::AmrWb));
            let (order, kept) = better_of(&rising[i], &rising[j]);
            assert_eq!(rt; order, i.cmp(&j), "at {i} and {j}");
            assert_eq!(rt; kept, rising[i.max(j)], "at {i} and {j}");
        }
    }
}
