use crate::status::Status;
use crate::test_logs::{ANSWER, FORMAT, MAP, Parts, offer_with};
use crate::tests::expect;
use std::alloc::Global;
use std::process::Abort;
use std::test::Fail;

// What stands before and behind the parameters of the answer, by a line each.
const FRONT: &[u8] = b"m=audio 9 RTP/AVP 98\r\na=rtpmap:98 AMR/8000/1\r\n";

const TIMES: &[u8] = b"a=ptime:20\r\na=maxptime:240\r\n";

// The worked offer with another tenth line, or none, is answered with this line of parameters, or
// none.
fn answered(
    rt: &(impl Abort + Alloc<A = Global>),
    line: &str,
    format: &str,
    told: &str,
) -> Result<(), Fail> {
    let offer = offer_with(rt.alloc(), MAP, format)?;
    let answer: Parts<'_> = &[(FRONT, 0), (told.as_bytes(), 0), (TIMES, 0)];
    let notes = "type=97 refused=codec\n";
    expect(rt, line, &offer, Status::Done, answer, notes)
}

#[test]
fn an_offer_is_answered_by_words(rt: HostRuntime) -> Result<(), Fail> {
    let two = "answer --codec AMR --modes 0,2";
    let four = "answer --modes 7,5,2,0 --codec AMR";
    let eight = "answer --interleaving 8 --codec AMR";
    let worked = "a=fmtp:98 octet-align=1; mode-set=0,2,5,7\r\n";
    // The words, the offer's tenth line, and the answer's line of parameters.
    let rows: [(&str, &str, &str); 12] = [
        (ANSWER, FORMAT, worked),
        (four, FORMAT, worked),
        (two, "", "a=fmtp:98 mode-set=0,2\r\n"),
        (ANSWER, "", ""),
        (
            eight,
            "a=fmtp:98 interleaving=8\n",
            "a=fmtp:98 octet-align=1; interleaving=8\r\n",
        ),
        (
            ANSWER,
            "a=fmtp:98 CRC = 1\n",
            "a=fmtp:98 octet-align=1; crc=1\r\n",
        ),
        (
            two,
            "a=fmtp:98 robust-sorting=1\r\n",
            "a=fmtp:98 octet-align=1; mode-set=0,2; robust-sorting=1\r\n",
        ),
        (ANSWER, "a=fmtp:98  ; \n", ""),
        (two, "a=fmtp:98 mode-set=2\n", "a=fmtp:98 mode-set=2\r\n"),
        (
            ANSWER,
            "a=fmtp:98 mode-set=7,0,0\n",
            "a=fmtp:98 mode-set=0,7\r\n",
        ),
        (ANSWER, "a=fmtp:98 octet-align=0; crc=0\n", ""),
        (
            ANSWER,
            "a=fmtp:98 foo; foo=2; max-red=65535\n",
            "a=fmtp:98 max-red=65535\r\n",
        ),
    ];
    for (line, format, told) in rows {
        answered(&rt, line, format, told)?;
    }
    Ok(())
}

#[test]
fn types_that_do_not_suit_are_noted(rt: HostRuntime) -> Result<(), Fail> {
    // The words, the offer's tenth line, and the reason against its second type.
    let rows = [
        ("answer --codec AMR --modes 0,2", FORMAT, "modes"),
        (
            "answer --codec AMR --interleaving 4",
            "a=fmtp:98 interleaving=8\n",
            "interleaving",
        ),
        ("answer --codec AMR --crc 0", "a=fmtp:98 crc=1\n", "crc"),
        (
            "answer --sorting 0 --codec AMR",
            "a=fmtp:98 robust-sorting=1\n",
            "sorting",
        ),
        (
            "answer --channels 2 --codec AMR --crc 0",
            "a=fmtp:98 crc=1\n",
            "channels",
        ),
    ];
    for (line, format, why) in rows {
        let offer = offer_with(rt.alloc(), MAP, format)?;
        let notes = format!(in rt.alloc();
            "type=97 refused=codec\ntype=98 refused={why}\nno answer\n"
        )?;
        expect(&rt, line, &offer, Status::NoAnswer, &[], notes.as_str())?;
    }
    Ok(())
}

#[test]
fn an_offer_is_refused(rt: HostRuntime) -> Result<(), Fail> {
    // The offer's ninth and tenth line, and the notes.
    let rows = [
        ("a=rtpmap:98 AMR\n", FORMAT, "refused=F6 line=9\n"),
        (MAP, "a=fmtp:98 =1\n", "refused=F1 pt=98\n"),
        (MAP, "a=fmtp:98 crc\n", "refused=F2 pt=98 param=crc\n"),
        (
            MAP,
            "a=fmtp:98 mode-set=8\n",
            "refused=F2 pt=98 param=mode-set\n",
        ),
        (
            MAP,
            "a=fmtp:98 interleaving=0\n",
            "refused=F2 pt=98 param=interleaving\n",
        ),
        (
            MAP,
            "a=fmtp:98 max-red=65536\n",
            "refused=F2 pt=98 param=max-red\n",
        ),
        (
            MAP,
            "a=fmtp:98 crc=0; crc=1\n",
            "refused=F3 pt=98 param=crc\n",
        ),
        (
            MAP,
            "a=fmtp:98 crc=1; octet-align=0\n",
            "refused=F4 pt=98\n",
        ),
    ];
    for (map, format, notes) in rows {
        let offer = offer_with(rt.alloc(), map, format)?;
        expect(&rt, ANSWER, &offer, Status::InputRefused, &[], notes)?;
    }
    let none = "refused=F5\n";
    expect(&rt, ANSWER, b"", Status::InputRefused, &[], none)?;
    let video = b"v=0\nm=video 9 RTP/AVP 98\n";
    expect(&rt, ANSWER, video, Status::InputRefused, &[], none)
}

#[test]
fn the_first_type_that_suits_is_answered(rt: HostRuntime) -> Result<(), Fail> {
    let offer = offer_with(rt.alloc(), MAP, FORMAT)?;
    let wide: Parts<'_> = &[
        (b"m=audio 65535 RTP/AVP 97\r\n", 0),
        (b"a=rtpmap:97 AMR-WB/16000/1\r\n", 0),
        (b"a=fmtp:97 mode-set=0,1,2; max-red=0\r\n", 0),
        (TIMES, 0),
    ];
    let line = "answer --codec AMR-WB --port 65535";
    expect(&rt, line, &offer, Status::Done, wide, "")?;
    // The offer has 290 octets.
    let worked: Parts<'_> = &[
        (FRONT, 0),
        (b"a=fmtp:98 octet-align=1; mode-set=0,2,5,7\r\n", 0),
        (TIMES, 0),
    ];
    let notes = "type=97 refused=codec\n";
    let just = "answer --codec AMR --limit 290";
    expect(&rt, just, &offer, Status::Done, worked, notes)?;
    let less = "answer --codec AMR --limit 289";
    let passed = "limit reached\n";
    expect(&rt, less, &offer, Status::LimitReached, &[], passed)
}
