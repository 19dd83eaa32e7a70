ghost use Rattle.std.specs.Prelude.{◌+◌, ◌≤◌, ◌<◌, ◌^◌};

use crate::{Next, RecordReader};
use amr_io::{Failed, MemorySource};
use std::alloc::{AllocError, Global};
use std::process::Abort;
use std::test::Fail;

// What a reader gave: of a record its length and its last octet.
#[derive(Clone, Copy, Debug, PartialEq, Eq)]
enum Seen {
    Record { len: usize, last: u8 },
    End,
    Truncated { have: usize },
    OverLimit,
}

// Its answer, where it was asked.
type Answer = Option<Result<Seen, Failed>>;

fn seen_of(next: Next<'_>) -> Seen {
    match next {
        Next::Record(octets) => Seen::Record {
            len: octets.len(),
            last: *octets.last().unwrap_or(&0),
        },
        Next::End => Seen::End,
        Next::Truncated { have } => Seen::Truncated { have },
        Next::OverLimit => Seen::OverLimit,
    }
}

// The first four answers over these octets, at most `limit` of them and `cut` a read, and how many
// octets were given. After a failure no call is made.
fn answers_of<const HEAD: usize, const AT: usize>(
    alloc: Global,
    octets: &[u8],
    limit: u64,
    cut: usize,
    failing: &[u64],
) -> Result<([Answer; 4], u64), AllocError>
    requires head { AT + 2 ≤ HEAD }
    requires small { HEAD ≤ 2 ^ 16 }
    requires limit { 0 < limit }
    requires cut { 0 < cut }
{
    let mut source = MemorySource::create(alloc, octets, cut, failing)?;
    let mut reader = RecordReader::<HEAD, AT>::create(alloc, limit)?;
    let mut answers: [Answer; 4] = [None; 4];
    for i in 0..4 {
        match reader.next(&mut source) {
            Ok(next) => answers[i] = Some(Ok(seen_of(next))),
            Err(why) => {
                answers[i] = Some(Err(why));
                break;
            }
        }
    }
    Ok((answers, reader.given()))
}

// Each front of these octets, with its limit, gives the answers of its row, however reads are cut.
fn expect_rows<const HEAD: usize, const AT: usize>(
    rt: &(impl Abort + Alloc<A = Global>),
    octets: &[u8],
    rows: &[(usize, u64, [Answer; 4])],
) -> Result<(), Fail>
    requires head { AT + 2 ≤ HEAD }
    requires small { HEAD ≤ 2 ^ 16 }
{
    for (len, limit, wanted) in rows {
        let front = &octets[..(*len).min(octets.len())];
        for cut in [1usize, 2, 3, 64] {
            let (seen, _) = answers_of::<HEAD, AT>(
                rt.alloc(),
                front,
                (*limit).max(1),
                cut.max(1),
                &[],
            )?;
            assert_eq!(rt; seen, *wanted, "{len} octets at limit {limit}, cut {cut}");
        }
    }
    Ok(())
}

#[test]
fn records_come_in_order_however_reads_are_cut(rt: HostRuntime) -> Result<(), Fail> {
    let (end, over) = (Some(Ok(Seen::End)), Some(Ok(Seen::OverLimit)));
    let one = |len| Some(Ok(Seen::Record { len, last: 7 }));
    let none = |len| Some(Ok(Seen::Record { len, last: 0 }));
    let part = |have| Some(Ok(Seen::Truncated { have }));
    let short: &[u8] = &[0, 1, 7, 0, 0];
    let long: &[u8] = &[0, 1, 9, 9, 9, 9, 9, 9, 7, 0, 0, 5, 5, 5, 5, 5, 0];
    let behind: &[u8] = &[9, 9, 9, 9, 0, 1, 7, 5, 5, 5, 5, 0, 0];
    // How many octets there are of a log, the limit, and the answers, for heads of 2, 8 and 6.
    let rows2: [(usize, u64, [Answer; 4]); 4] = [
        (5, 9, [one(3), none(2), end, end]),
        (5, 4, [one(3), over, over, over]),
        (4, 9, [one(3), part(1), part(1), part(1)]),
        (0, 9, [end, end, end, end]),
    ];
    let rows8: [(usize, u64, [Answer; 4]); 4] = [
        (17, 17, [one(9), none(8), end, end]),
        (17, 16, [one(9), over, over, over]),
        (16, 16, [one(9), part(7), part(7), part(7)]),
        (8, 99, [part(8), part(8), part(8), part(8)]),
    ];
    let rows6: [(usize, u64, [Answer; 4]); 4] = [
        (13, 13, [one(7), none(6), end, end]),
        (13, 12, [one(7), over, over, over]),
        (12, 99, [one(7), part(5), part(5), part(5)]),
        (6, 99, [part(6), part(6), part(6), part(6)]),
    ];
    expect_rows::<2, 0>(&rt, short, &rows2)?;
    expect_rows::<8, 0>(&rt, long, &rows8)?;
    expect_rows::<6, 4>(&rt, behind, &rows6)
}

#[test]
fn a_held_record_needs_no_read_and_a_fault_spends_the_reader(rt: HostRuntime) -> Result<(), Fail> {
    let log: &[u8] = &[9, 9, 9, 9, 0, 1, 7, 5, 5, 5, 5, 0, 0];
    let one = Some(Ok(Seen::Record { len: 7, last: 7 }));
    let failed = Some(Err(Failed));
    let late = answers_of::<6, 4>(rt.alloc(), log, 99, 8, &[1])?;
    assert_eq!(rt; late, ([one, failed, None, None], 7));
    let early = answers_of::<6, 4>(rt.alloc(), log, 99, 6, &[1])?;
    assert_eq!(rt; early, ([failed, None, None, None], 0));
    Ok(())
}
