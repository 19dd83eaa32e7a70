ghost use Rattle.std.specs.Prelude.{◌≤◌, length};

use crate::read_section;
use refusals::OfferRefusal;
use std::test::Fail;

const OFFER: &[u8] = b"v=0\ns=-\nm=audio 49170 RTP/AVP 97 98\na=rtpmap:97 AMR/8000\n\
a=fmtp:97 crc=1\na=ptime:20\n";

const NO_AUDIO: Option<OfferRefusal> = Some(OfferRefusal::NoAudio);

const THIRD: Option<OfferRefusal> = Some(OfferRefusal::BadMap { line: 3 });

const SECOND: Option<OfferRefusal> = Some(OfferRefusal::BadMap { line: 2 });

const FIRST: Option<OfferRefusal> = Some(OfferRefusal::BadMap { line: 1 });

// Texts, and why they are refused.
const TEXTS: [(&[u8], Option<OfferRefusal>); 42] = [
    (b"", NO_AUDIO),
    (b"v=0\ns=-\n", NO_AUDIO),
    (b"m=audio", NO_AUDIO),
    (b"m=Audio 9 RTP/AVP 97\n", NO_AUDIO),
    (b"m=video 9 RTP/AVP 97\na=rtpmap:97\n", NO_AUDIO),
    (b"m=audio \n", FIRST),
    (b"m=audio 9 RTP/AVP\n", FIRST),
    (b"m=audio 9 RTP/AVP 97 \n", FIRST),
    (b"m=audio 9  RTP/AVP 97\n", FIRST),
    (b"m=audio 9 RTP/AVP \r\n", FIRST),
    (b"m=audio 9 RTP/AVP 97\r\n", None),
    (b"m=audio 9 RTP/AVP x", None),
    (b"m=video\nm=audio 9 RTP/AVP\n", SECOND),
    (b"\n\nm=audio 9 RTP/AVP\n", THIRD),
    (b"m=audio 9 udp 97\na=rtpmap:97 AMR/8000\n", None),
    (b"m=audio 9 udp 97\na=rtpmap:97 AMR/8000/1\n", None),
    (b"m=audio 9 udp 97\na=rtpmap:97 AMR/8000/000  \r\n", None),
    (b"m=audio 9 udp 97\na=rtpmap:127 x/000001\n", None),
    (b"m=audio 9 udp 97\na=rtpmap:97 AMR\n", SECOND),
    (b"m=audio 9 udp 97\na=rtpmap:97\n", SECOND),
    (b"m=audio 9 udp 97\na=rtpmap:97 /8000\n", SECOND),
    (b"m=audio 9 udp 97\na=rtpmap:97 AMR/\n", SECOND),
    (b"m=audio 9 udp 97\na=rtpmap:97 AMR/8000/\n", SECOND),
    (b"m=audio 9 udp 97\na=rtpmap:97 AMR/8000/1/\n", SECOND),
    (b"m=audio 9 udp 97\na=rtpmap:97 AMR/8000000\n", SECOND),
    (b"m=audio 9 udp 97\na=rtpmap:97 AMR/8000/0001\n", SECOND),
    (b"m=audio 9 udp 97\na=rtpmap:97 AMR/+800\n", SECOND),
    (b"m=audio 9 udp 97\na=rtpmap:97 A R/8000\n", SECOND),
    (b"m=audio 9 udp 97\na=rtpmap:97  AMR/8000\n", SECOND),
    (b"m=audio 9 udp 97\na=rtpmap:97 AMR/8000\t\n", SECOND),
    (b"m=audio 9 udp 97\na=rtpmap:128 AMR/8000\n", SECOND),
    (b"m=audio 9 udp 97\na=rtpmap:0097 AMR/8000\n", SECOND),
    (b"m=audio 9 udp 97\na=rtpmap: AMR/8000\n", SECOND),
    (b"m=audio 9 udp 97\na=fmtp:97 \n", None),
    (b"m=audio 9 udp 97\na=fmtp:97 crc = 1 \n", None),
    (b"m=audio 9 udp 97\na=fmtp:97\n", SECOND),
    (b"m=audio 9 udp 97\na=fmtp:97;crc=1\n", SECOND),
    (b"m=audio 9 udp 97\na=fmtp:128 crc=1\n", SECOND),
    (
        b"m=audio 9 udp 97\na=ptime:x\na=fmtp:97\na=rtpmap:97\n",
        THIRD,
    ),
    (b"m=audio 9 udp 97\nm=video\na=fmtp:97\n", None),
    (b"a=fmtp:97\nm=audio 9 udp 97\n", None),
    (b"m=audio 9 udp 97\nm=audio \n", None),
];

// Why a text is refused, if it is.
fn refusal_of(text: &[u8]) -> Option<OfferRefusal>
    requires short { length text.now ≤ 65536 }
{
    read_section(text).err()
}

#[test]
fn each_line_has_its_grammar(rt: HostRuntime) -> Result<(), Fail> {
    for (text, refusal) in TEXTS {
        assert!(rt; text.len() <= 65_536);
        assert_eq!(rt; refusal_of(text), refusal);
    }
    Ok(())
}

#[test]
fn an_offer_may_end_anywhere(rt: HostRuntime) -> Result<(), Fail> {
    let mut read = 0u32;
    let mut without = 0u32;
    for end in 0..85 {
        match refusal_of(&OFFER[..end]) {
            None => read += 1,
            Some(OfferRefusal::NoAudio) => without += 1,
            Some(_) => (),
        }
    }
    assert_eq!(rt; (read, without), (42, 16));
    Ok(())
}

#[test]
fn the_first_line_of_a_kind_counts(rt: HostRuntime) -> Result<(), Fail> {
    let text = b"m=audio 9 RTP/AVP 98 97 128 x 98\na=rtpmap:97 AMR-WB/16000/2\n\
a=rtpmap:98 amr/8000\na=rtpmap:97 AMR/8000\na=fmtp:97 crc=1; a\na=fmtp:97 x\n\
a=maxptime:x\na=maxptime:00240\na=maxptime:20\na=ptime:\na=ptime:123456\n";
    let section = read_section(text).expect(&rt, "an audio section");
    assert_eq!(rt; section.media.protocol, b"RTP/AVP".as_slice());
    assert_eq!(rt; section.media.formats.as_slice(), [98, 97].as_slice());
    let told = section.attributes;
    assert_eq!(rt; told.ptime, None);
    assert_eq!(rt; told.maxptime, Some(240));
    assert_eq!(rt; told.parameters(97), b"crc=1; a".as_slice());
    assert_eq!(rt; told.parameters(98), b"".as_slice());
    let wide = told.map(97).expect(&rt, "a map");
    assert_eq!(rt; wide.name, b"AMR-WB".as_slice());
    assert_eq!(rt; (wide.rate, wide.channels), (16_000, 2));
    assert!(rt; told.map(96).is_none());
    Ok(())
}

#[test]
fn each_payload_type_is_kept_once(rt: HostRuntime) -> Result<(), Fail> {
    let text = b"m=audio 9 RTP/AVP 0 1 2 3 4 5 6 7 8 9 10 11 12 13 14 15 16 17 18 19 20 \
21 22 23 24 25 26 27 28 29 30 31 32 33 34 35 36 37 38 39 40 41 42 43 \
44 45 46 47 48 49 50 51 52 53 54 55 56 57 58 59 60 61 62 63 64 65 66 \
67 68 69 70 71 72 73 74 75 76 77 78 79 80 81 82 83 84 85 86 87 88 89 \
90 91 92 93 94 95 96 97 98 99 100 101 102 103 104 105 106 107 108 109 \
110 111 112 113 114 115 116 117 118 119 120 121 122 123 124 125 126 \
127 128 5 0";
    let section = read_section(text).expect(&rt, "an audio section");
    assert_eq!(rt; section.media.formats.len(), 128);
    assert_eq!(rt; section.media.formats.as_slice()[127], 127);
    Ok(())
}
