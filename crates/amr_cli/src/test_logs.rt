// Logs and words to test with.
use std::alloc::{AllocError, Global};

// Octets by parts: some octets, and so many zeros behind them.
pub type Parts<'a> = &'a [(&'a [u8], u16)];

pub fn join(alloc: Global, parts: Parts<'_>) -> Result<Vec<u8>, AllocError> {
    let mut all = Vec::new(alloc);
    for (octets, zeros) in parts {
        all.extend_from_slice(octets)?;
        for _ in 0..*zeros {
            all.push(0)?;
        }
    }
    Ok(all)
}

// An RTP packet of version 2 with payload type 96 and no marker.
#[derive(Clone, Copy)]
pub struct Packet<'a> {
    pub sequence: u16,
    pub timestamp: u32,
    pub ssrc: u32,
    pub payload: Parts<'a>,
}

// Appends the record of a packet.
pub fn record(log: &mut Vec<u8>, packet: &Packet<'_>, payload: &[u8]) -> Result<(), AllocError> {
    let length = payload.len().min(999) as u16 + 12;
    log.extend_from_slice(&length.to_be_bytes())?;
    log.extend_from_slice(&[0x80, 0x60])?;
    log.extend_from_slice(&packet.sequence.to_be_bytes())?;
    log.extend_from_slice(&packet.timestamp.to_be_bytes())?;
    log.extend_from_slice(&packet.ssrc.to_be_bytes())?;
    log.extend_from_slice(payload)
}

pub fn log_of(alloc: Global, packets: &[Packet<'_>]) -> Result<Vec<u8>, AllocError> {
    let mut log = Vec::new(alloc);
    for packet in packets {
        let payload = join(alloc, packet.payload)?;
        record(&mut log, packet, &payload)?;
    }
    Ok(log)
}

// A packet of the one source.
pub fn at<'a>(sequence: u16, timestamp: u32, payload: Parts<'a>) -> Packet<'a> {
    Packet {
        sequence,
        timestamp,
        ssrc: 0,
        payload,
    }
}

// A payload of a frame of type 7.
pub const SEVEN: Parts<'_> = &[(&[0xF3, 0xC0], 30)];

// Three packets that come as the third, the first and the second, of frames of types 2, 7 and 4.
pub fn three_packets(alloc: Global) -> Result<Vec<u8>, AllocError> {
    let four: Parts<'_> = &[(&[0xF2, 0x40], 18)];
    let two: Parts<'_> = &[(&[0xF1, 0x40], 14)];
    log_of(alloc, &[at(2, 320, two), at(0, 0, SEVEN), at(1, 160, four)])
}

pub fn words_of(alloc: Global, line: &str) -> Result<Vec<String>, AllocError> {
    let mut words = Vec::new(alloc);
    for word in line.split(' ') {
        words.push(String::from_str(alloc, word)?)?;
    }
    Ok(words)
}

pub const RECORD: &str = "record --codec AMR";

pub const STREAM: &str = "stream --codec AMR";

// The header of a file of AMR frames of one channel.
pub const HEAD: &[u8] = b"#!AMR\n";

pub const ANSWER: &str = "answer --codec AMR";

// An offer up to its eighth line.
const OFFER_FRONT: &[u8] = b"v=0\no=- 1 1 IN IP4 192.0.2.1\ns=-\nc=IN IP4 192.0.2.1\nt=0 0\n\
m=audio 49170 RTP/AVP 97 98 101\na=rtpmap:97 AMR-WB/16000\na=fmtp:97 mode-set=0,1,2; max-red=0\n";

// Its ninth and its tenth line.
pub const MAP: &str = "a=rtpmap:98 AMR/8000\n";

pub const FORMAT: &str = "a=fmtp:98 mode-set=0,2,5,7; octet-align=1\n";

// What stands behind them.
const OFFER_BACK: &[u8] =
    b"a=rtpmap:101 telephone-event/8000\na=fmtp:101 0-15\na=ptime:20\na=maxptime:240\n";

// The offer with these lines in the place of its ninth and its tenth.
pub fn offer_with(alloc: Global, map: &str, format: &str) -> Result<Vec<u8>, AllocError> {
    let mut offer = Vec::from_slice(alloc, OFFER_FRONT)?;
    offer.extend_from_slice(map.as_bytes())?;
    offer.extend_from_slice(format.as_bytes())?;
    offer.extend_from_slice(OFFER_BACK)?;
    Ok(offer)
}
