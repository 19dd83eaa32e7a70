ghost use Rattle.std.specs.Prelude.{◌≡◌, ◌≤◌, ◌<◌, IsTrue, IsErr, OnOk, OnErr, List, [], ◌∷◌, true, false};
ghost use Rattle.std.specs.List.{AllByRecursion};
ghost use Rattle.amr_io.specs.Fault.{HasCause};
ghost use Rattle.amr_frame.specs.Blocks.{IsPresentBlock, GotBlocks, GotPrefix, frames_of};
ghost use Rattle.amr_frame.specs.Tables.{bits_in, is_reserved};

use crate::{
    BlockSink, Cell, Codec, Kind, MemoryBlocks, Profile, ProfileFault, bits_of, class_a_of,
    kind_of, octets_of, rate, step,
};
use amr_bits::{BitSlice, FixedBits};
use amr_io::Failed;
use std::test::Fail;

// What 3GPP TS 26.101 and TS 26.201 say of a frame type, and the bits under its CRC: kind, bits, class A, octets.
type Row = (Kind, usize, usize, usize);

const RESERVED: Row = (Kind::Reserved, 0, 0, 0);

// The rows of a codec by frame type, from 0 to 15.
fn rows_of(codec: Codec) -> [Row; 16] {
    match codec {
        Codec::Amr => [
            (Kind::Speech, 95, 42, 12),
            (Kind::Speech, 103, 49, 13),
            (Kind::Speech, 118, 55, 15),
            (Kind::Speech, 134, 58, 17),
            (Kind::Speech, 148, 61, 19),
            (Kind::Speech, 159, 75, 20),
            (Kind::Speech, 204, 65, 26),
            (Kind::Speech, 244, 81, 31),
            (Kind::Sid, 39, 39, 5),
            RESERVED,
            RESERVED,
            RESERVED,
            RESERVED,
            RESERVED,
            RESERVED,
            (Kind::Empty, 0, 0, 0),
        ],
        Codec::AmrWb => [
            (Kind::Speech, 132, 54, 17),
            (Kind::Speech, 177, 64, 23),
            (Kind::Speech, 253, 72, 32),
            (Kind::Speech, 285, 72, 36),
            (Kind::Speech, 317, 72, 40),
            (Kind::Speech, 365, 72, 46),
            (Kind::Speech, 397, 72, 50),
            (Kind::Speech, 461, 72, 58),
            (Kind::Speech, 477, 72, 60),
            (Kind::Sid, 40, 40, 5),
            RESERVED,
            RESERVED,
            RESERVED,
            RESERVED,
            (Kind::Lost, 0, 0, 0),
            (Kind::Empty, 0, 0, 0),
        ],
    }
}

#[test]
fn each_type_has_its_row(rt: HostRuntime) {
    for codec in [Codec::Amr, Codec::AmrWb] {
        let rows = rows_of(codec);
        for ft in 0..16u8 {
            let row = rows[usize::from(ft)];
            let (kind, bits, class_a, octets) = row;
            assert_eq!(rt; kind_of(codec, ft), kind, "of type {ft}");
            assert_eq!(rt; bits_of(codec, ft), bits, "of type {ft}");
            assert_eq!(rt; class_a_of(codec, ft), class_a, "of type {ft}");
            assert_eq!(rt; octets_of(codec, ft), octets, "of type {ft}");
        }
    }
    assert_eq!(rt; (step(Codec::Amr), rate(Codec::Amr)), (160, 8000));
    assert_eq!(rt; (step(Codec::AmrWb), rate(Codec::AmrWb)), (320, 16000));
}

// So many zero bits.
fn zeros(len: usize) -> FixedBits<60>
    requires { len ≤ 480 }
    ensures { result.len ≡ len }
{
    let Some(bits) = BitSlice::of(&[0; 60], 0, len) else {
        unreachable!()
    };
    FixedBits::load(bits)
}

#[test]
fn a_cell_is_absent_or_a_frame_of_its_codec(rt: HostRuntime) {
    let cell = |ft, q, present, len| Cell {
        ft,
        q,
        present,
        bits: zeros(len),
    };
    // A cell, and whether it is one of AMR and one of AMR-WB.
    let rows: [(Cell, bool, bool); 14] = [
        (Cell::absent(), true, true),
        (Cell::no_data(), true, true),
        (cell(15, true, false, 0), true, true),
        (cell(15, false, false, 0), false, false),
        (cell(14, true, false, 0), false, false),
        (cell(7, true, false, 244), false, false),
        (cell(15, false, true, 0), true, true),
        (cell(14, true, true, 0), false, true),
        (cell(16, true, true, 0), false, false),
        (cell(9, true, true, 0), false, false),
        (cell(9, false, true, 40), false, true),
        (cell(8, true, true, 39), true, false),
        (cell(7, false, true, 244), true, false),
        (cell(7, true, true, 243), false, false),
    ];
    for (cell, amr, wide) in rows {
        assert_eq!(rt; cell.valid(Codec::Amr), amr, "of {cell:?}");
        assert_eq!(rt; cell.valid(Codec::AmrWb), wide, "of {cell:?}");
    }
    assert!(rt; Cell::absent() != Cell::no_data());
    assert_eq!(rt; Cell::no_data(), cell(15, true, true, 0));
}

#[test]
fn a_frame_keeps_its_type_its_quality_and_its_bits(rt: HostRuntime) {
    let octets = [0xA5, 0x5A, 0xFF, 0x00, 0x81];
    for (start, kept) in [
        (0, [0xA5, 0x5A, 0xFF, 0x00, 0x80]),
        (1, [0x4A, 0xB5, 0xFE, 0x01, 0x02]),
    ] {
        let Some(bits) = BitSlice::of(&octets, start, 39) else {
            continue;
        };
        let cell = Cell::from_bits(Codec::Amr, 8, false, bits);
        assert_eq!(rt; (cell.ft, cell.q, cell.present), (8, false, true));
        assert_eq!(rt; cell.bits.len(), 39);
        for at in 0..5 {
            assert_eq!(rt;
                cell.bits.octet(at),
                kept[at],
                "from bit {start}, at octet {at}"
            );
        }
    }
}

#[test]
fn a_profile_breaks_the_first_of_its_rules(rt: HostRuntime) {
    let plain = Profile::plain(Codec::Amr, 1);
    let aligned = Profile {
        octet_aligned: true,
        ..plain
    };
    let all_broken = Profile {
        channels: 0,
        crc: true,
        interleaving: Some(0),
        max_blocks: 0,
        ..plain
    };
    let wide = Profile::plain(Codec::AmrWb, 1);
    let rows: [(Profile, Result<(), ProfileFault>); 25] = [
        (plain, Ok(())),
        (Profile::plain(Codec::AmrWb, 6), Ok(())),
        (
            Profile {
                crc: true,
                sorting: true,
                interleaving: Some(1),
                max_blocks: 1,
                ..aligned
            },
            Ok(()),
        ),
        (
            Profile {
                interleaving: Some(65535),
                ..aligned
            },
            Ok(()),
        ),
        (
            Profile {
                max_blocks: 64,
                ..aligned
            },
            Ok(()),
        ),
        (
            Profile {
                channels: 0,
                ..plain
            },
            Err(ProfileFault::Channels),
        ),
        (
            Profile {
                channels: 7,
                ..aligned
            },
            Err(ProfileFault::Channels),
        ),
        (
            Profile { crc: true, ..plain },
            Err(ProfileFault::NeedsAlignment),
        ),
        (
            Profile {
                sorting: true,
                ..plain
            },
            Err(ProfileFault::NeedsAlignment),
        ),
        (
            Profile {
                interleaving: Some(4),
                ..plain
            },
            Err(ProfileFault::NeedsAlignment),
        ),
        (
            Profile {
                interleaving: Some(0),
                ..aligned
            },
            Err(ProfileFault::Interleaving),
        ),
        (
            Profile {
                max_blocks: 0,
                ..plain
            },
            Err(ProfileFault::MaxBlocks),
        ),
        (
            Profile {
                max_blocks: 65,
                ..plain
            },
            Err(ProfileFault::MaxBlocks),
        ),
        (
            Profile {
                max_blocks: 255,
                ..aligned
            },
            Err(ProfileFault::MaxBlocks),
        ),
        (all_broken, Err(ProfileFault::Channels)),
        (
            Profile {
                channels: 255,
                ..all_broken
            },
            Err(ProfileFault::Channels),
        ),
        (
            Profile {
                channels: 1,
                ..all_broken
            },
            Err(ProfileFault::NeedsAlignment),
        ),
        (
            Profile {
                channels: 1,
                octet_aligned: true,
                ..all_broken
            },
            Err(ProfileFault::Interleaving),
        ),
        (
            Profile {
                interleaving: None,
                max_blocks: 0,
                ..aligned
            },
            Err(ProfileFault::MaxBlocks),
        ),
        (
            Profile {
                strict: true,
                modes: 0x80,
                ..plain
            },
            Ok(()),
        ),
        (
            Profile {
                modes: 0x100,
                ..wide
            },
            Ok(()),
        ),
        (Profile { modes: 0, ..plain }, Err(ProfileFault::Modes)),
        (
            Profile {
                modes: 0x101,
                ..plain
            },
            Err(ProfileFault::Modes),
        ),
        (
            Profile {
                modes: 0x200,
                ..wide
            },
            Err(ProfileFault::Modes),
        ),
        (
            Profile {
                max_blocks: 0,
                modes: 0,
                ..plain
            },
            Err(ProfileFault::MaxBlocks),
        ),
    ];
    for (profile, wanted) in rows {
        assert_eq!(rt; profile.check(), wanted, "of {profile:?}");
    }
}

// Puts two blocks.
fn put_two<B: BlockSink>(sink: &mut B, first: &[Cell], second: &[Cell]) -> Result<(), Failed>
    requires ready { IsTrue (B.ready sink.old) }
    requires first { IsPresentBlock (B.codec sink.old) (B.channels sink.old) first.now }
    requires second { IsPresentBlock (B.codec sink.old) (B.channels sink.old) second.now }

    ensures got { OnOk result (GotBlocks B.whole sink.old (frames_of first.now ∷ frames_of second.now ∷ []) sink.new) }
    ensures part { OnErr result (GotPrefix B.whole B.part sink.old (frames_of first.now ∷ frames_of second.now ∷ []) sink.new) }
    ensures cause { HasCause (B.faults sink.old) (B.faults sink.new) result }
    ensures same { B.same sink.old sink.new }
{
    sink.put_block(first)?;
    sink.put_block(second)
}

// Puts three blocks where there is room for two. The third fails, and that is the one fault.
fn put_three(sink: &mut MemoryBlocks, cells: &[Cell; 3]) -> Result<(), Failed>
    requires fresh { sink.old ≡ record { codec = Codec.Amr; channels = 1; room = 2; cells = []; faults = 0; ready = true } }
    requires blocks { AllByRecursion (λ cell. IsPresentBlock Codec.Amr 1 (cell ∷ [])) cells.now }

    ensures fails { IsErr result }
    ensures count { sink.new.faults ≡ 1 }
    ensures spent { sink.new.ready ≡ false }
{
    sink.put_block(&cells[..1])?;
    sink.put_block(&cells[1..2])?;
    sink.put_block(&cells[2..])
}

// A frame of AMR with zero bits, as many as its type has.
fn silent(ft: u8, len: usize) -> Cell
    requires type_exists { ft ≤ 15 }
    requires not_reserved { is_reserved Codec.Amr ft ≡ false }
    requires size { len ≡ bits_in Codec.Amr ft }
    requires within { len ≤ 480 }

    ensures { IsPresentBlock Codec.Amr 1 (result ∷ []) }
{
    let Some(bits) = BitSlice::of(&[0; 60], 0, len) else {
        unreachable!()
    };
    Cell::from_bits(Codec::Amr, ft, true, bits)
}

#[test]
fn blocks_stand_in_memory_until_it_is_full(rt: HostRuntime) -> Result<(), Fail> {
    let cells = [silent(7, 244), silent(4, 148), silent(2, 118)];
    let mut sink = MemoryBlocks::create(rt.alloc(), Codec::Amr, 1, 2)?;
    assert_eq!(rt; sink.blocks().len(), 0);
    assert_eq!(rt; put_three(&mut sink, &cells), Err(Failed));
    assert_eq!(rt; sink.blocks(), &cells[..2]);
    let mut small = MemoryBlocks::create(rt.alloc(), Codec::Amr, 1, 1)?;
    assert_eq!(rt; put_two(&mut small, &cells[..1], &cells[1..2]), Err(Failed));
    assert_eq!(rt; small.blocks(), &cells[..1]);
    let mut none = MemoryBlocks::create(rt.alloc(), Codec::Amr, 1, 0)?;
    assert_eq!(rt; none.put_block(&cells[..1]), Err(Failed));
    assert_eq!(rt; none.blocks().len(), 0);
    // More room than there are numbers of cells.
    assert!(rt; MemoryBlocks::create(rt.alloc(), Codec::AmrWb, 6, usize::MAX).is_err());
    Ok(())
}
