ghost use Rattle.std.specs.Prelude.{◌≤◌, length};

use crate::{Step, StoreReader, StoreRefusal};
use amr_frame::{Cell, Codec};
use amr_io::{Failed, MemorySource};
use std::alloc::{AllocError, Global};
use std::test::Fail;

// How many octets may be taken, how many a read gives, and the numbers of the reads that fail.
#[derive(Clone, Copy)]
struct Reads<'a> {
    limit: u64,
    cut: usize,
    failing: &'a [u64],
}

// How reading ended: with the header, with so many blocks given, or not within eight blocks.
#[derive(Clone, Copy, Debug, PartialEq, Eq)]
enum Last {
    Header(Result<Step, Failed>),
    Blocks(usize, Result<Step, Failed>),
    Unended,
}

// Reads a file of AMR with a channel for each cell. The cells hold the last block that was given.
fn read_all(
    alloc: Global,
    file: &[u8],
    reads: Reads<'_>,
    cells: &mut [Cell],
) -> Result<Last, AllocError>
    requires some { 1 ≤ length cells.old }
    requires most { length cells.old ≤ 6 }
{
    let channels = cells.len() as u8;
    let mut source = MemorySource::create(alloc, file, reads.cut.max(1), reads.failing)?;
    let mut reader = StoreReader::create(alloc, Codec::Amr, channels, reads.limit.max(1))?;
    match reader.begin(&mut source) {
        Ok(Step::Ready) => {}
        other => return Ok(Last::Header(other)),
    }
    for given in 0..8 {
        match reader.next_block(&mut source, cells) {
            Ok(Step::Ready) => {}
            Ok(Step::End) => {
                let again = reader.next_block(&mut source, cells);
                return Ok(Last::Blocks(given, again));
            }
            other => return Ok(Last::Blocks(given, other)),
        }
    }
    Ok(Last::Unended)
}

#[test]
fn the_first_unit_at_fault_is_named(rt: HostRuntime) -> Result<(), Fail> {
    let magic = Last::Header(Ok(Step::Refused(StoreRefusal::Magic)));
    let channels = |chan| Last::Header(Ok(Step::Refused(StoreRefusal::Channels { chan })));
    let head_cut = |place| Last::Header(Ok(Step::Refused(StoreRefusal::Truncated { place })));
    let head_over = Last::Header(Ok(Step::OverLimit));
    let end = |given| Last::Blocks(given, Ok(Step::End));
    let over = |given| Last::Blocks(given, Ok(Step::OverLimit));
    let refused = |given, why| Last::Blocks(given, Ok(Step::Refused(why)));
    let reserved = |given, place| refused(given, StoreRefusal::Reserved { place, ft: 9 });
    let cut_at = |given, place| refused(given, StoreRefusal::Truncated { place });
    let rest = |given, place| refused(given, StoreRefusal::BlockRest { place });
    let several: &[u8] = b"#!AMR_MC1.0\n\xFF\xFF\xFF\xF2|\x7C\xFB";
    // The octets, the channels that are asked, the limit, and how reading ends.
    let rows: [(&[u8], usize, u64, Last); 23] = [
        (b"#!AMR", 1, 99, magic),
        (b"", 1, 99, magic),
        (b"#!AMS", 1, 4, head_over),
        (b"#!AMS", 1, 5, magic),
        (b"#!AMR-WB\n", 1, 99, magic),
        (b"#!AMR\n", 1, 5, head_over),
        (b"#!AMR\n", 1, 6, end(0)),
        (b"#!AMR\n", 2, 99, channels(1)),
        (&several[..16], 1, 99, channels(2)),
        (&several[..15], 2, 99, head_cut(12)),
        (&several[..12], 2, 12, head_cut(12)),
        (&several[..13], 2, 12, head_over),
        (&several[..16], 2, 99, end(0)),
        (&several[..17], 2, 99, rest(0, 16)),
        (&several[..18], 2, 99, end(1)),
        (several, 2, 99, rest(1, 18)),
        (b"#!AMR\n\x4C", 1, 99, reserved(0, 6)),
        (b"#!AMR\n\x4C", 1, 6, over(0)),
        (b"#!AMR\n|\xCF\0", 1, 8, reserved(1, 7)),
        (b"#!AMR\n\x3C\0", 1, 99, cut_at(0, 6)),
        (b"#!AMR\n|\x44\xFF\xFF\xFF\xFF\xFF|", 1, 99, end(3)),
        (b"#!AMR\n|\x44\xFF\xFF\xFF\xFF\xFF|", 1, 12, over(1)),
        (b"#!AMR\n|\x44\xFF\xFF\xFF\xFF\xFF|", 1, 13, over(2)),
    ];
    for cut in [1usize, 2, 3, 7, 99] {
        for (file, channels, limit, wanted) in rows {
            let mut cells = [Cell::absent(); 2];
            let reads = Reads {
                limit,
                cut,
                failing: &[],
            };
            let last = read_all(rt.alloc(), file, reads, &mut cells[..channels.clamp(1, 2)])?;
            assert_eq!(rt; last, wanted, "of {file:?} at limit {limit}, cut {cut}");
        }
    }
    Ok(())
}

#[test]
fn frames_come_into_cells(rt: HostRuntime) -> Result<(), Fail> {
    // A frame of type 7 of which bit 9 is set, with P and fill bits set too, and NO_DATA with Q = 0.
    let mut file = [0u8; 49];
    file[..16].copy_from_slice(b"#!AMR_MC1.0\n\0\0\0\x02");
    file[16] = 0xBF;
    file[18] = 0x40;
    file[47] = 0x0F;
    file[48] = 0x78;
    for cut in [1usize, 2, 3, 7, 99] {
        let mut cells = [Cell::absent(); 2];
        let reads = Reads {
            limit: 49,
            cut,
            failing: &[],
        };
        let last = read_all(rt.alloc(), &file, reads, &mut cells)?;
        assert_eq!(rt; last, Last::Blocks(1, Ok(Step::End)));
        assert_eq!(rt;
            (cells[0].ft, cells[0].q, cells[0].bits.len()),
            (7, true, 244)
        );
        assert_eq!(rt; cells[0].bits.octet(1), 0x40, "bits at cut {cut}");
        assert_eq!(rt; cells[0].bits.octet(30), 0, "fill bits at cut {cut}");
        assert_eq!(rt;
            (cells[1].ft, cells[1].q, cells[1].bits.len()),
            (15, false, 0)
        );
    }
    Ok(())
}

#[test]
fn a_read_that_fails_spends_the_reader(rt: HostRuntime) -> Result<(), Fail> {
    // Six octets of header and three blocks of an octet each, one octet a read, and the end.
    for number in 0..10u64 {
        let mut cells = [Cell::absent(); 1];
        let reads = Reads {
            limit: 99,
            cut: 1,
            failing: &[number],
        };
        let last = read_all(rt.alloc(), b"#!AMR\n|||", reads, &mut cells)?;
        let wanted = if number < 6 {
            Last::Header(Err(Failed))
        } else {
            Last::Blocks(number as usize - 6, Err(Failed))
        };
        assert_eq!(rt; last, wanted, "where read {number} fails");
    }
    Ok(())
}

#[test]
fn what_is_held_needs_no_read(rt: HostRuntime) -> Result<(), Fail> {
    // One read brings the header and two blocks.
    let mut source = MemorySource::create(rt.alloc(), b"#!AMR\n||", 8, &[])?;
    let mut reader = StoreReader::create(rt.alloc(), Codec::Amr, 1, 99)?;
    let mut cells = [Cell::absent(); 1];
    assert!(rt; !reader.holds_answer());
    let Ok(Step::Ready) = reader.begin(&mut source) else {
        panic!(rt; "the header is well");
    };
    assert!(rt; reader.holds_answer());
    assert_eq!(rt; reader.next_block(&mut source, &mut cells), Ok(Step::Ready));
    assert!(rt; reader.holds_answer());
    Ok(())
}
