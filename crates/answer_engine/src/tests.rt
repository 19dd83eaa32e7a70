ghost use Rattle.answer_engine.specs.Jobs.{IsServed};

use crate::{AnswerJob, RunEnd, Wanted, answer_offer};
use amr_frame::Codec;
use amr_io::{MemorySink, MemorySource};
use amr_mode::ModeSet;
use refusals::{FmtpRefusal, OfferRefusal, Param, RefusedType, Why};
use std::alloc::Global;
use std::process::Abort;
use std::test::Fail;

// An offer up to its eighth line.
const FRONT: &[u8] = b"v=0\no=- 1 1 IN IP4 192.0.2.1\ns=-\nc=IN IP4 192.0.2.1\nt=0 0\n\
m=audio 49170 RTP/AVP 97 98 101\na=rtpmap:97 AMR-WB/16000\na=fmtp:97 mode-set=0,1,2; max-red=0\n";

// Its ninth and tenth line.
const MAP: &[u8] = b"a=rtpmap:98 AMR/8000\n";

const FORMAT: &[u8] = b"a=fmtp:98 mode-set=0,2,5,7; octet-align=1\n";

// What stands behind its tenth line.
const BACK: &[u8] =
    b"a=rtpmap:101 telephone-event/8000\na=fmtp:101 0-15\na=ptime:20\na=maxptime:240\n";

// Its answer.
const ANSWER: &[u8] = b"m=audio 9 RTP/AVP 98\r\na=rtpmap:98 AMR/8000/1\r\n\
a=fmtp:98 octet-align=1; mode-set=0,2,5,7\r\na=ptime:20\r\na=maxptime:240\r\n";

// The offer with these lines in the place of its ninth and tenth.
fn offer_with(
    rt: &impl Alloc<A = Global>,
    map: &[u8],
    format: &[u8],
    back: &[u8],
) -> Result<Vec<u8>, Fail> {
    let mut text = Vec::from_slice(rt.alloc(), FRONT)?;
    text.extend_from_slice(map)?;
    text.extend_from_slice(format)?;
    text.extend_from_slice(back)?;
    Ok(text)
}

// An answer with a line of parameters, or none.
fn answer_with(rt: &impl Alloc<A = Global>, format: &[u8]) -> Result<Vec<u8>, Fail> {
    let mut text = Vec::from_slice(
        rt.alloc(),
        b"m=audio 9 RTP/AVP 98\r\na=rtpmap:98 AMR/8000/1\r\n",
    )?;
    text.extend_from_slice(format)?;
    text.extend_from_slice(b"a=ptime:20\r\na=maxptime:240\r\n")?;
    Ok(text)
}

// A job that wants AMR in these modes and groups of so many blocks, all else allowed.
fn job(
    rt: &(impl Abort + Alloc<A = Global>),
    modes: u16,
    interleaving: u16,
    limit: u64,
) -> AnswerJob
    ensures { IsServed result }
{
    let Some(modes) = ModeSet::of(Codec::Amr, modes) else {
        panic!(rt; "these are modes of AMR");
    };
    AnswerJob {
        wanted: Wanted {
            codec: Codec::Amr,
            channels: 1,
            modes,
            crc: true,
            sorting: true,
            interleaving,
        },
        port: 9,
        limit: limit.clamp(1, 65536),
    }
}

// The outside of a run: how many octets a read gives at most, and the reads and writes that fail.
#[derive(Clone, Copy, Debug)]
struct Outside<'a> {
    cut: usize,
    reads: &'a [u64],
    writes: &'a [u64],
}

// An outside without faults.
const CALM: Outside<'static> = Outside {
    cut: 999,
    reads: &[],
    writes: &[],
};

// Answers an offer, and compares the end, the answer, and the types that don't suit.
fn expect(
    rt: &(impl Abort + Alloc<A = Global>),
    job: &AnswerJob,
    offer: &[u8],
    outside: &Outside<'_>,
    wanted: (RunEnd, &[u8], &[(u8, Why)]),
) -> Result<(), Fail>
    requires { IsServed job.now }
{
    let cut = outside.cut;
    let mut input = MemorySource::create(rt.alloc(), offer, cut.max(1), outside.reads)?;
    let mut output = MemorySink::create(rt.alloc(), 999, 999, outside.writes)?;
    let report = answer_offer(rt.alloc(), job, &mut input, &mut output);
    let (end, answer, refused) = wanted;
    let length = offer.len();
    assert_eq!(rt; report.end, end, "of {length} octets, {cut} at a time");
    assert_eq!(rt;
        output.octets(),
        answer,
        "of {length} octets, {cut} at a time"
    );
    assert_eq!(rt; report.counts.refused.len(), refused.len());
    for (one, (pt, why)) in report.counts.refused.iter().zip(refused) {
        assert_eq!(rt; *one, RefusedType { pt: *pt, why: *why });
    }
    Ok(())
}

const WIDE: (u8, Why) = (97, Why::Codec);

#[test]
fn an_offer_is_answered_or_refused(rt: HostRuntime) -> Result<(), Fail> {
    let all = job(&rt, 0xff, 65535, 65536);
    let two = job(&rt, 5, 65535, 65536);
    let worked = offer_with(&rt, MAP, FORMAT, BACK)?;
    for cut in [1usize, 7, 999] {
        let outside = Outside { cut, ..CALM };
        expect(
            &rt,
            &all,
            &worked,
            &outside,
            (RunEnd::Done, ANSWER, &[WIDE]),
        )?;
    }
    let modes = (
        RunEnd::NoAnswer,
        b"".as_slice(),
        [WIDE, (98, Why::Modes)].as_slice(),
    );
    expect(&rt, &two, &worked, &CALM, modes)?;
    let plain = offer_with(&rt, MAP, b"", BACK)?;
    let none = answer_with(&rt, b"")?;
    expect(&rt, &all, &plain, &CALM, (RunEnd::Done, &none, &[WIDE]))?;
    let some = answer_with(&rt, b"a=fmtp:98 mode-set=0,2\r\n")?;
    expect(&rt, &two, &plain, &CALM, (RunEnd::Done, &some, &[WIDE]))?;
    let groups = offer_with(&rt, MAP, b"a=fmtp:98 interleaving=8\n", BACK)?;
    let many = (
        RunEnd::NoAnswer,
        b"".as_slice(),
        [WIDE, (98, Why::Interleaving)].as_slice(),
    );
    expect(&rt, &job(&rt, 0xff, 4, 65536), &groups, &CALM, many)?;
    let eight = answer_with(&rt, b"a=fmtp:98 octet-align=1; interleaving=8\r\n")?;
    expect(
        &rt,
        &job(&rt, 0xff, 8, 65536),
        &groups,
        &CALM,
        (RunEnd::Done, &eight, &[WIDE]),
    )?;
    let bad = offer_with(&rt, b"a=rtpmap:98 AMR\n", FORMAT, BACK)?;
    let map = RunEnd::Sdp(OfferRefusal::BadMap { line: 9 });
    expect(&rt, &all, &bad, &CALM, (map, b"", &[]))?;
    let against = offer_with(&rt, MAP, b"a=fmtp:98 crc=1; octet-align=0\n", BACK)?;
    let refusal = FmtpRefusal::Contradiction;
    let refused = RunEnd::Sdp(OfferRefusal::Parameters { pt: 98, refusal });
    expect(&rt, &all, &against, &CALM, (refused, b"", &[]))
}

// The end of a run over an offer with a line that isn't in its grammar.
fn bad_line(line: u32) -> RunEnd {
    RunEnd::Sdp(OfferRefusal::BadMap { line })
}

// The end of a run over an offer that has a parameter of a type twice.
fn repeated(pt: u8, param: Param) -> RunEnd {
    let refusal = FmtpRefusal::Repeated { param };
    RunEnd::Sdp(OfferRefusal::Parameters { pt, refusal })
}

// The end of a run over an offer that has a value of a type that isn't allowed.
fn bad_value(pt: u8, param: Param) -> RunEnd {
    let refusal = FmtpRefusal::BadValue { param };
    RunEnd::Sdp(OfferRefusal::Parameters { pt, refusal })
}

// Answers an offer, and compares the end and how many types don't suit.
fn expect_end(
    rt: &(impl Abort + Alloc<A = Global>),
    job: &AnswerJob,
    offer: &[u8],
    end: RunEnd,
    refused: usize,
) -> Result<(), Fail>
    requires { IsServed job.now }
{
    let mut input = MemorySource::create(rt.alloc(), offer, 999, &[])?;
    let mut output = MemorySink::create(rt.alloc(), 999, 999, &[])?;
    let report = answer_offer(rt.alloc(), job, &mut input, &mut output);
    let length = offer.len();
    assert_eq!(rt; report.end, end, "of {length} octets");
    assert_eq!(rt; report.counts.refused.len(), refused, "of {length} octets");
    assert_eq!(rt; output.octets().is_empty(), end != RunEnd::Done);
    Ok(())
}

#[test]
fn an_offer_is_cut_at_each_octet(rt: HostRuntime) -> Result<(), Fail> {
    let all = job(&rt, 0xff, 65535, 65536);
    let worked = offer_with(&rt, MAP, FORMAT, BACK)?;
    let no_audio = RunEnd::Sdp(OfferRefusal::NoAudio);
    // From which length up to which, the end, and how many types don't suit.
    let fronts = [
        (0, 66, no_audio, 0),
        (66, 81, bad_line(6), 0),
        (81, 83, RunEnd::NoAnswer, 0),
        (83, 84, bad_line(6), 0),
        (84, 86, RunEnd::NoAnswer, 0),
        (86, 87, bad_line(6), 0),
        (87, 99, RunEnd::NoAnswer, 0),
        (99, 110, bad_line(7), 0),
        (110, 114, RunEnd::NoAnswer, 0),
        (114, 122, RunEnd::NoAnswer, 1),
        (122, 125, bad_line(8), 0),
        (125, 133, RunEnd::NoAnswer, 1),
        (133, 135, bad_value(97, Param::ModeSet), 0),
        (135, 136, RunEnd::NoAnswer, 1),
        (136, 137, bad_value(97, Param::ModeSet), 0),
        (137, 138, RunEnd::NoAnswer, 1),
        (138, 139, bad_value(97, Param::ModeSet), 0),
        (139, 148, RunEnd::NoAnswer, 1),
        (148, 150, bad_value(97, Param::MaxRed), 0),
        (150, 160, RunEnd::NoAnswer, 1),
        (160, 168, bad_line(9), 0),
        (168, 171, RunEnd::NoAnswer, 1),
        (171, 179, RunEnd::Done, 1),
        (179, 182, bad_line(10), 0),
        (182, 190, RunEnd::Done, 1),
        (190, 192, bad_value(98, Param::ModeSet), 0),
        (192, 193, RunEnd::Done, 1),
        (193, 194, bad_value(98, Param::ModeSet), 0),
        (194, 195, RunEnd::Done, 1),
        (195, 196, bad_value(98, Param::ModeSet), 0),
        (196, 197, RunEnd::Done, 1),
        (197, 198, bad_value(98, Param::ModeSet), 0),
        (198, 211, RunEnd::Done, 1),
        (211, 213, bad_value(98, Param::OctetAlign), 0),
        (213, 223, RunEnd::Done, 1),
        (223, 244, bad_line(11), 0),
        (244, 255, RunEnd::Done, 1),
        (255, 259, bad_line(12), 0),
        (259, 291, RunEnd::Done, 1),
    ];
    for (from, until, end, refused) in fronts {
        for length in from..until {
            let front = worked.get(..length).unwrap_or(&[]);
            expect_end(&rt, &all, front, end, refused)?;
        }
    }
    Ok(())
}

#[test]
fn each_read_and_each_write_may_fail(rt: HostRuntime) -> Result<(), Fail> {
    let all = job(&rt, 0xff, 65535, 65536);
    let worked = offer_with(&rt, MAP, FORMAT, BACK)?;
    let done = (RunEnd::Done, ANSWER, [WIDE].as_slice());
    for number in 0..8u64 {
        let reads = Outside {
            cut: 50,
            reads: &[number],
            writes: &[],
        };
        let wanted = match number < 7 {
            true => (RunEnd::ReadFault, b"".as_slice(), [].as_slice()),
            false => done,
        };
        expect(&rt, &all, &worked, &reads, wanted)?;
    }
    for (number, front) in [0usize, 10, 17, 46, 56, 87, 89].iter().enumerate() {
        let writes = Outside {
            writes: &[number as u64],
            ..CALM
        };
        let out = ANSWER.get(..*front).unwrap_or(&[]);
        expect(&rt, &all, &worked, &writes, (RunEnd::WriteFault, out, &[]))?;
    }
    expect_end(
        &rt,
        &job(&rt, 0xff, 0, 289),
        &worked,
        RunEnd::LimitReached,
        0,
    )?;
    expect_end(&rt, &job(&rt, 0xff, 0, 290), &worked, RunEnd::Done, 1)
}

// Appends lines with the numbers from 0 on, each between two texts.
fn push_numbers(
    rt: &impl Alloc<A = Global>,
    text: &mut Vec<u8>,
    front: &[u8],
    count: u16,
    back: &[u8],
) -> Result<(), Fail> {
    for number in 0..count {
        text.extend_from_slice(front)?;
        text.extend_from_slice(format!(in rt.alloc(); "{number}")?.as_bytes())?;
        text.extend_from_slice(back)?;
    }
    Ok(())
}

#[test]
fn an_offer_has_at_most_128_types(rt: HostRuntime) -> Result<(), Fail> {
    let all = job(&rt, 0xff, 65535, 65536);
    let past = bad_line(130);
    for (formats, maps, end, refused) in [
        (128, 128, RunEnd::NoAnswer, 128),
        (129, 128, RunEnd::NoAnswer, 128),
        (129, 129, past, 0),
    ] {
        let mut text = Vec::from_slice(rt.alloc(), b"m=audio 9 RTP/AVP")?;
        push_numbers(&rt, &mut text, b" ", formats, b"")?;
        text.extend_from_slice(b"\n")?;
        push_numbers(&rt, &mut text, b"a=rtpmap:", maps, b" AMR-WB/16000\n")?;
        expect_end(&rt, &all, &text, end, refused)?;
    }
    Ok(())
}

// A front with so many of one line, or of one octet, behind it, as often as all of it has room in
// 65,536 octets.
fn filled(rt: &impl Alloc<A = Global>, front: &[u8], more: &[u8]) -> Result<Vec<u8>, Fail> {
    let mut text = Vec::from_slice(rt.alloc(), front)?;
    let times = match 65_536usize
        .saturating_sub(front.len())
        .checked_div(more.len())
    {
        Some(times) => times,
        None => 0,
    };
    for _ in 0..times {
        text.extend_from_slice(more)?;
    }
    Ok(text)
}

#[test]
fn the_longest_offers_are_answered(rt: HostRuntime) -> Result<(), Fail> {
    let all = job(&rt, 0xff, 65535, 65536);
    let front = b"m=audio 9 RTP/AVP 98\na=rtpmap:98 AMR/8000\n";
    let format = b"m=audio 9 RTP/AVP 98\na=rtpmap:98 AMR/8000\na=fmtp:98 ";
    let no_audio = RunEnd::Sdp(OfferRefusal::NoAudio);
    let rows: [(&[u8], &[u8], RunEnd); 10] = [
        (format, b";", RunEnd::Done),
        (format, b" ", RunEnd::Done),
        (format, b"foo;", RunEnd::Done),
        (format, b"crc=1;", repeated(98, Param::Crc)),
        (front, b"\n", RunEnd::Done),
        (front, b"a=rtpmap:98 AMR/8000\n", RunEnd::Done),
        (front, b"a=fmtp:98 crc=1\r\n", RunEnd::Done),
        (front, b"a=fmtp:98\n", bad_line(3)),
        (b"", b"\n", no_audio),
        (b"m=audio 9 RTP/AVP", b" 98", RunEnd::NoAnswer),
    ];
    for (front, more, end) in rows {
        let text = filled(&rt, front, more)?;
        expect_end(&rt, &all, &text, end, 0)?;
    }
    // With one octet more the limit is passed.
    let mut text = filled(&rt, format, b";")?;
    text.push(b';')?;
    expect_end(&rt, &all, &text, RunEnd::LimitReached, 0)
}
