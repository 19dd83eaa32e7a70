ghost use Rattle.rtp_packet.specs.Reading.{IsUsable};

use crate::{LogReader, Next};
use amr_io::{Failed, MemorySource};
use std::test::Fail;

// An answer of a reader: of a packet its length, its first and its last octet. After a failure no call is made.
#[derive(Clone, Copy, Debug, PartialEq, Eq)]
enum Seen {
    Packet { len: usize, first: u8, last: u8 },
    Null,
    End,
    Truncated { have: usize },
    OverLimit,
    Failed,
    NotAsked,
}

fn shape_of(next: Next<'_>) -> Seen {
    match next {
        Next::Packet(octets) => match (octets.first(), octets.last()) {
            (Some(first), Some(last)) => Seen::Packet {
                len: octets.len(),
                first: *first,
                last: *last,
            },
            _ => Seen::NotAsked,
        },
        Next::Null => Seen::Null,
        Next::End => Seen::End,
        Next::Truncated { have } => Seen::Truncated { have },
        Next::OverLimit => Seen::OverLimit,
    }
}

fn five_answers(reader: &mut LogReader, source: &mut MemorySource) -> [Seen; 5]
    requires usable { IsUsable reader.old }
{
    let mut answers = [Seen::NotAsked; 5];
    for i in 0..5 {
        match reader.next(source) {
            Ok(next) => answers[i] = shape_of(next),
            Err(Failed) => {
                answers[i] = Seen::Failed;
                break;
            }
        }
    }
    answers
}

#[test]
fn records_come_in_order_however_reads_are_cut(rt: HostRuntime) -> Result<(), Fail> {
    let (null, end, over) = (Seen::Null, Seen::End, Seen::OverLimit);
    let (failed, none) = (Seen::Failed, Seen::NotAsked);
    let cut = |have| Seen::Truncated { have };
    let one = Seen::Packet {
        len: 1,
        first: 7,
        last: 7,
    };
    let two = Seen::Packet {
        len: 2,
        first: 8,
        last: 9,
    };
    let log: &[u8] = &[0, 1, 7, 0, 0, 0, 2, 8, 9];
    // How many octets of the log there are, the limit, the calls of the source that fail, the cuts, the answers, and the octets given.
    let rows: [(usize, u64, &[u64], &[usize], [Seen; 5], u64); 12] = [
        (9, 99, &[], &[1, 2, 3, 9], [one, null, two, end, end], 9),
        (9, 9, &[], &[1, 2, 3, 9], [one, null, two, end, end], 9),
        (9, 8, &[], &[1, 2, 3, 9], [one, null, over, over, over], 5),
        (9, 5, &[], &[1, 2, 3, 9], [one, null, over, over, over], 5),
        (
            8,
            8,
            &[],
            &[1, 2, 3, 9],
            [one, null, cut(3), cut(3), cut(3)],
            5,
        ),
        (
            6,
            99,
            &[],
            &[1, 2, 3, 9],
            [one, null, cut(1), cut(1), cut(1)],
            5,
        ),
        (5, 5, &[], &[1, 2, 3, 9], [one, null, end, end, end], 5),
        (0, 1, &[], &[1], [end, end, end, end, end], 0),
        (1, 1, &[], &[1], [cut(1), cut(1), cut(1), cut(1), cut(1)], 0),
        (2, 1, &[], &[1], [over, over, over, over, over], 0),
        // Where a record is held, no read is made: the second call of the source fails, and is made for the third record.
        (9, 99, &[1], &[5, 6, 8], [one, null, failed, none, none], 5),
        (9, 99, &[1], &[1, 2], [failed, none, none, none, none], 0),
    ];
    for (len, limit, failing, cuts, wanted, given) in rows {
        for cut in cuts {
            let octets = &log[..len.min(9)];
            let mut source = MemorySource::create(rt.alloc(), octets, (*cut).max(1), failing)?;
            let mut reader = LogReader::create(rt.alloc(), limit.max(1))?;
            let answers = five_answers(&mut reader, &mut source);
            assert_eq!(rt; answers, wanted, "{len} octets at limit {limit}, cut {cut}");
            assert_eq!(rt;
                reader.given(),
                given,
                "{len} octets at limit {limit}, cut {cut}"
            );
        }
    }
    Ok(())
}
