// What a packet's header says, behind the number and the length of its record.
ghost use Rattle.std.specs.Prelude.{◌≡◌, ◌+◌, ◌≤◌, ◌++◌, length};
ghost use Rattle.amr_bits.specs.Bits.{filled, nat};
ghost use Rattle.hex.specs.Hex.{encode_lower};
ghost use Rattle.rtp_packet.specs.View.{packet};
ghost use Rattle.spec_listing.specs.Listing.{head_text};

use crate::line::Line;
use rtp_packet::RtpView;

/// The octets of 32 bits, the most significant octet first.
fn four_octets(n: u32) -> [u8; 4]
    ensures { result ≡ filled (nat 32 n) }
{
    [
        (n / 16_777_216 % 256) as u8,
        (n / 65536 % 256) as u8,
        (n / 256 % 256) as u8,
        (n % 256) as u8,
    ]
}

/// Adds octets in lower case hexadecimal, two digits each.
pub(crate) fn push_hex(line: &mut Line, octets: &[u8])
    requires few { length octets.now ≤ 60 }
    requires room { length line.old ≤ 1000 }

    ensures text { line.new ≡ line.old ++ encode_lower octets.now }
    ensures most { length line.new ≤ length line.old + 120 }
{
    let mut digits = [0u8; 120];
    let count = 2 * octets.len();
    let Ok(()) = hex::encode_to_slice(octets, &mut digits[..count]) else {
        unreachable!()
    };
    line.push(&digits[..count]);
}

/// Adds a source, in 8 digits.
fn push_source(line: &mut Line, ssrc: u32)
    requires room { length line.old ≤ 1000 }

    ensures text { line.new ≡ line.old ++ encode_lower (filled (nat 32 ssrc)) }
    ensures most { length line.new ≤ length line.old + 8 }
{
    let mut digits = [0u8; 8];
    let Ok(()) = hex::encode_to_slice(&four_octets(ssrc), &mut digits) else {
        unreachable!()
    };
    line.push(&digits);
}

/// Adds the fields of a packet's header.
pub(crate) fn push_head(line: &mut Line, rtp: &RtpView<'_>)
    requires room { length line.old ≤ 200 }

    ensures text { line.new ≡ line.old ++ head_text (packet rtp.now) }
    ensures most { length line.new ≤ length line.old + 300 }
{
    line.named(b" pt=", u64::from(rtp.payload_type()));
    line.named(b" m=", u64::from(rtp.marker()));
    line.named(b" seq=", u64::from(rtp.sequence()));
    line.named(b" ts=", u64::from(rtp.timestamp()));
    line.push(b" ssrc=");
    push_source(line, rtp.ssrc());
}
