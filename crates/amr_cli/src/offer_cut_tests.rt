// Offers that are cut anywhere: the status, the answer, and the notes.
use crate::status::Status;
use crate::test_logs::{ANSWER, FORMAT, MAP, Parts, offer_with};
use crate::tests::expect;
use std::alloc::Global;
use std::process::Abort;
use std::test::Fail;

// What becomes of an offer that ends at this line with so many of its octets, or behind that: the status, the line of the
// answer's parameters and those of its times, and the notes.
type Row<'a> = (usize, usize, Status, &'a str, &'a str, &'a str);

// The number of the line that ends a text, and how many octets of it there are.
fn end_of(text: &[u8]) -> (usize, usize) {
    let mut line = 1usize;
    let mut column = 0usize;
    for octet in text {
        if *octet == b'\n' {
            line = line.saturating_add(1);
            column = 0;
        } else {
            column = column.saturating_add(1);
        }
    }
    (line, column)
}

// The worked offer cut to each length, which the last of these rows that it reaches says all of. Rows go up to the line `last`.
fn expect_cuts(
    rt: &(impl Abort + Alloc<A = Global>),
    rows: &[Row<'_>],
    first: usize,
    last: usize,
) -> Result<(), Fail> {
    let offer = offer_with(rt.alloc(), MAP, FORMAT)?;
    let media = b"m=audio 9 RTP/AVP 98\r\na=rtpmap:98 AMR/8000/1\r\n".as_slice();
    for length in 0..offer.len().saturating_add(1) {
        let front = &offer[..length.min(offer.len())];
        let (line, column) = end_of(front);
        if line < first || line > last {
            continue;
        }
        let mut found: Row<'_> = (0, 0, Status::InputRefused, "", "", "refused=F5\n");
        for row in rows {
            if row.0 < line || row.0 == line && row.1 <= column {
                found = *row;
            }
        }
        let (_, _, status, format, times, notes) = found;
        if status == Status::Done {
            let answer: Parts<'_> = &[(media, 0), (format.as_bytes(), 0), (times.as_bytes(), 0)];
            expect(rt, ANSWER, front, status, answer, notes)?;
        } else {
            expect(rt, ANSWER, front, status, &[], notes)?;
        }
    }
    Ok(())
}

const NONE: &str = "no answer\n";

const WIDE: &str = "type=97 refused=codec\n";

const UNSUITED: &str = "type=97 refused=codec\nno answer\n";

#[test]
fn an_offer_cut_before_its_type_is_mapped_has_no_answer(rt: HostRuntime) -> Result<(), Fail> {
    let media = "refused=F6 line=6\n";
    let modes = "refused=F2 pt=97 param=mode-set\n";
    let red = "refused=F2 pt=97 param=max-red\n";
    let refused = Status::InputRefused;
    let unanswered = Status::NoAnswer;
    // `m=audio 49170 RTP/AVP 97 98 101`: a format is needed, and none is empty.
    let rows: [Row<'_>; 6] = [
        (6, 8, refused, "", "", media),
        (6, 23, unanswered, "", "", NONE),
        (6, 25, refused, "", "", media),
        (6, 26, unanswered, "", "", NONE),
        (6, 28, refused, "", "", media),
        (6, 29, unanswered, "", "", NONE),
    ];
    expect_cuts(&rt, &rows, 1, 6)?;
    // `a=rtpmap:97 AMR-WB/16000`, which has a rate from its first digit on, and `a=fmtp:97 mode-set=0,1,2; max-red=0`.
    let rows: [Row<'_>; 14] = [
        (6, 29, unanswered, "", "", NONE),
        (7, 9, refused, "", "", "refused=F6 line=7\n"),
        (7, 20, unanswered, "", "", NONE),
        (7, 24, unanswered, "", "", UNSUITED),
        (8, 7, refused, "", "", "refused=F6 line=8\n"),
        (8, 10, unanswered, "", "", UNSUITED),
        (8, 18, refused, "", "", modes),
        (8, 20, unanswered, "", "", UNSUITED),
        (8, 21, refused, "", "", modes),
        (8, 22, unanswered, "", "", UNSUITED),
        (8, 23, refused, "", "", modes),
        (8, 24, unanswered, "", "", UNSUITED),
        (8, 33, refused, "", "", red),
        (8, 35, unanswered, "", "", UNSUITED),
    ];
    expect_cuts(&rt, &rows, 7, 8)
}

#[test]
fn an_offer_cut_behind_its_type_is_answered_by_what_it_has(rt: HostRuntime) -> Result<(), Fail> {
    let modes = "refused=F2 pt=98 param=mode-set\n";
    let aligned = "refused=F2 pt=98 param=octet-align\n";
    let four = "a=fmtp:98 mode-set=0,2,5,7\r\n";
    let both = "a=fmtp:98 octet-align=1; mode-set=0,2,5,7\r\n";
    let refused = Status::InputRefused;
    let done = Status::Done;
    // `a=rtpmap:98 AMR/8000`, and `a=fmtp:98 mode-set=0,2,5,7; octet-align=1`.
    let rows: [Row<'_>; 16] = [
        (8, 35, Status::NoAnswer, "", "", UNSUITED),
        (9, 9, refused, "", "", "refused=F6 line=9\n"),
        (9, 17, Status::NoAnswer, "", "", UNSUITED),
        (9, 20, done, "", "", WIDE),
        (10, 7, refused, "", "", "refused=F6 line=10\n"),
        (10, 10, done, "", "", WIDE),
        (10, 18, refused, "", "", modes),
        (10, 20, done, "a=fmtp:98 mode-set=0\r\n", "", WIDE),
        (10, 21, refused, "", "", modes),
        (10, 22, done, "a=fmtp:98 mode-set=0,2\r\n", "", WIDE),
        (10, 23, refused, "", "", modes),
        (10, 24, done, "a=fmtp:98 mode-set=0,2,5\r\n", "", WIDE),
        (10, 25, refused, "", "", modes),
        (10, 26, done, four, "", WIDE),
        (10, 39, refused, "", "", aligned),
        (10, 41, done, both, "", WIDE),
    ];
    expect_cuts(&rt, &rows, 9, 10)?;
    // `a=rtpmap:101 telephone-event/8000`, `a=fmtp:101 0-15`, `a=ptime:20` and `a=maxptime:240`.
    let rows: [Row<'_>; 10] = [
        (10, 41, done, both, "", WIDE),
        (11, 9, refused, "", "", "refused=F6 line=11\n"),
        (11, 30, done, both, "", WIDE),
        (12, 7, refused, "", "", "refused=F6 line=12\n"),
        (12, 11, done, both, "", WIDE),
        (13, 9, done, both, "a=ptime:2\r\n", WIDE),
        (13, 10, done, both, "a=ptime:20\r\n", WIDE),
        (14, 12, done, both, "a=ptime:20\r\na=maxptime:2\r\n", WIDE),
        (14, 13, done, both, "a=ptime:20\r\na=maxptime:24\r\n", WIDE),
        (14, 14, done, both, "a=ptime:20\r\na=maxptime:240\r\n", WIDE),
    ];
    expect_cuts(&rt, &rows, 11, 99)
}
