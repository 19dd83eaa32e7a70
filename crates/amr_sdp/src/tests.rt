ghost use Rattle.amr_sdp.specs.Answers.{IsWanted};

use crate::{OfferError, Wanted, choose_answer, read_offer};
use amr_frame::Codec;
use amr_mode::ModeSet;
use media_params::{FmtpRefusal, Param};
use refusals::{OfferRefusal, RefusedType, Why};
use std::alloc::Global;
use std::process::Abort;
use std::test::Fail;

// An offer up to its eighth line.
const FRONT: &[u8] = b"v=0\no=- 1 1 IN IP4 192.0.2.1\ns=-\nc=IN IP4 192.0.2.1\nt=0 0\n\
m=audio 49170 RTP/AVP 97 98 101\na=rtpmap:97 AMR-WB/16000\na=fmtp:97 mode-set=0,1,2; max-red=0\n";

// What stands behind its tenth line.
const BACK: &[u8] =
    b"a=rtpmap:101 telephone-event/8000\na=fmtp:101 0-15\na=ptime:20\na=maxptime:240\n";

// What is wanted of AMR: some modes, and how many blocks in an interleaving group.
fn wanted(rt: &(impl Abort + Alloc<A = Global>), modes: ModeSet, interleaving: u16) -> Wanted
    ensures { IsWanted result }
{
    let Some(modes) = ModeSet::of(Codec::Amr, modes.bits) else {
        panic!(rt; "these are modes of AMR");
    };
    Wanted {
        codec: Codec::Amr,
        channels: 1,
        modes,
        crc: false,
        sorting: false,
        interleaving,
    }
}

// The offer with these lines in the place of its ninth and tenth.
fn offer_with(rt: &impl Alloc<A = Global>, lines: &[u8]) -> Result<Vec<u8>, Fail> {
    let mut text = Vec::from_slice(rt.alloc(), FRONT)?;
    text.extend_from_slice(lines)?;
    text.extend_from_slice(BACK)?;
    Ok(text)
}

// Reads an offer, and compares what it is refused for, or the type that is answered with the
// modes of the answer, and the types that are refused.
fn expect(
    rt: &(impl Abort + Alloc<A = Global>),
    text: &[u8],
    wanted: &Wanted,
    answer: Result<(Option<(u8, Option<u16>)>, &[(u8, Why)]), OfferRefusal>,
) -> Result<(), Fail>
    requires { IsWanted wanted.now }
{
    if text.len() > 65536 {
        panic!(rt; "an offer is short");
    }
    match read_offer(rt.alloc(), text) {
        Ok(offer) => {
            let told = choose_answer(&offer, wanted);
            let chosen = told
                .chosen
                .map(|c| (c.pt, c.fmtp.modes.map(|set| set.bits)));
            let Ok((type_and_modes, refused)) = answer else {
                panic!(rt; "the offer is refused");
            };
            assert_eq!(rt; chosen, type_and_modes);
            assert_eq!(rt; told.refused.len(), refused.len());
            for (one, (pt, why)) in told.refused.iter().zip(refused) {
                assert_eq!(rt; *one, RefusedType { pt: *pt, why: *why });
            }
        }
        Err(OfferError::Refused(refusal)) => assert_eq!(rt; answer.err(), Some(refusal)),
        Err(OfferError::Memory(_)) => panic!(rt; "there is memory"),
    }
    Ok(())
}

#[test]
fn offers_and_their_answers(rt: HostRuntime) -> Result<(), Fail> {
    let all = wanted(&rt, ModeSet::all(Codec::Amr), 0);
    let two = wanted(&rt, ModeSet { bits: 5 }, 0);
    let blocks = wanted(&rt, ModeSet::all(Codec::Amr), 4);
    let more = wanted(&rt, ModeSet::all(Codec::Amr), 8);
    let map = b"a=rtpmap:98 AMR/8000\n";
    let wide = (97, Why::Codec);
    let worked = offer_with(
        &rt,
        b"a=rtpmap:98 AMR/8000\na=fmtp:98 mode-set=0,2,5,7; octet-align=1\n",
    )?;
    expect(&rt, &worked, &all, Ok((Some((98, Some(0xa5))), &[wide])))?;
    expect(&rt, &worked, &two, Ok((None, &[wide, (98, Why::Modes)])))?;
    let plain = offer_with(&rt, map)?;
    expect(&rt, &plain, &two, Ok((Some((98, Some(5))), &[wide])))?;
    expect(&rt, &plain, &all, Ok((Some((98, None)), &[wide])))?;
    let groups = offer_with(&rt, b"a=rtpmap:98 amr/08000/01\na=fmtp:98 interleaving=8\n")?;
    let many = (98, Why::Interleaving);
    expect(&rt, &groups, &blocks, Ok((None, &[wide, many])))?;
    expect(&rt, &groups, &more, Ok((Some((98, None)), &[wide])))?;
    let stereo = offer_with(&rt, b"a=rtpmap:98 AMR/8000/2\na=fmtp:98 crc=1\n")?;
    expect(&rt, &stereo, &all, Ok((None, &[wide, (98, Why::Channels)])))?;
    let bad = offer_with(&rt, b"a=rtpmap:98 AMR\n")?;
    expect(&rt, &bad, &all, Err(OfferRefusal::BadMap { line: 9 }))?;
    let against = offer_with(
        &rt,
        b"a=rtpmap:98 AMR/8000\na=fmtp:98 crc=1; octet-align=0\n",
    )?;
    let refusal = FmtpRefusal::Contradiction;
    expect(
        &rt,
        &against,
        &all,
        Err(OfferRefusal::Parameters { pt: 98, refusal }),
    )?;
    let value = offer_with(
        &rt,
        b"a=rtpmap:98 AMR/8000\na=fmtp:98 crc=2\na=fmtp:98 crc=1\n",
    )?;
    let refusal = FmtpRefusal::BadValue { param: Param::Crc };
    expect(
        &rt,
        &value,
        &all,
        Err(OfferRefusal::Parameters { pt: 98, refusal }),
    )?;
    expect(
        &rt,
        b"v=0\nm=video 9 RTP/AVP 98\n",
        &all,
        Err(OfferRefusal::NoAudio),
    )?;
    Ok(())
}

#[test]
fn an_offer_says_what_its_lines_say(rt: HostRuntime) -> Result<(), Fail> {
    let text = b"m=audio 9 RTP/AVPF 98\r\na=rtpmap:98 AMR/8000\r\na=ptime:020\r\na=ptime:40\r\n";
    let Ok(offer) = read_offer(rt.alloc(), text) else {
        panic!(rt; "the offer is read");
    };
    assert_eq!(rt; offer.types(), 1);
    assert_eq!(rt; offer.protocol(), b"RTP/AVPF".as_slice());
    assert_eq!(rt; (offer.ptime(), offer.maxptime()), (Some(20), None));
    if offer.types() > 0 {
        let first = offer.item(0);
        assert_eq!(rt;
            (first.pt, first.codec, first.channels),
            (98, Codec::Amr, 1)
        );
        assert_eq!(rt; first.fmtp.modes, None);
    }
    Ok(())
}
