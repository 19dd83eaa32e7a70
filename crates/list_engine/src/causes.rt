// Why a record is refused, at the end of its line.
ghost use Rattle.std.specs.Prelude.{◌≡◌, ◌+◌, ◌≤◌, ◌++◌, length};
ghost use Rattle.list_engine.specs.Lines.{pair};
ghost use Rattle.spec_listing.specs.Refusals.{payload_refusal_text, rtp_refusal_text};

use crate::line::Line;
use amr_toc::PayloadRefusal;
use spec_packet::RtpRefusal;

/// Adds the name of the rule that refuses a packet, and what it names (RFC 3550, 5.1).
pub(crate) fn push_rtp_refusal(line: &mut Line, why: RtpRefusal)
    requires room { length line.old ≤ 1000 }

    ensures text { line.new ≡ line.old ++ rtp_refusal_text why }
    ensures most { length line.new ≤ length line.old + 30 }
{
    match why {
        RtpRefusal::Short { have } => line.named(b"H1 have=", have as u64),
        RtpRefusal::Version { got } => line.named(b"H2 got=", u64::from(got)),
        RtpRefusal::Sources => line.push(b"H3"),
        RtpRefusal::Extension => line.push(b"H4"),
        RtpRefusal::Padding => line.push(b"H5"),
    }
}

/// Adds two numbers, each behind what names it.
fn push_two<const F: usize, const S: usize>(
    line: &mut Line,
    first: &[u8; F],
    a: u64,
    second: &[u8; S],
    b: u64,
)
    requires room { length line.old ≤ 1000 }
    requires first { F ≤ 20 }
    requires second { S ≤ 20 }

    ensures text { line.new ≡ line.old ++ pair first.now a second.now b }
    ensures most { length line.new ≤ length line.old + 80 }
{
    line.named(first, a);
    line.named(second, b);
}

/// Adds the name of the rule that refuses a payload, and what it names (RFC 4867, 4.3 and 4.4).
pub(crate) fn push_payload_refusal(line: &mut Line, why: PayloadRefusal)
    requires room { length line.old ≤ 1000 }

    ensures text { line.new ≡ line.old ++ payload_refusal_text why }
    ensures most { length line.new ≤ length line.old + 80 }
{
    match why {
        PayloadRefusal::Empty => line.push(b"P1"),
        PayloadRefusal::HeaderShort => line.push(b"P2"),
        PayloadRefusal::IndexAboveLength { ill, ilp } => {
            push_two(line, b"P3 ill=", u64::from(ill), b" ilp=", u64::from(ilp));
        }
        PayloadRefusal::TocUnended { entries } => line.named(b"P4 entries=", entries as u64),
        PayloadRefusal::ReservedType { entry, ft } => {
            push_two(line, b"P5 entry=", entry as u64, b" ft=", u64::from(ft));
        }
        PayloadRefusal::TooManyBlocks => line.push(b"P6"),
        PayloadRefusal::ChannelRest { entries } => line.named(b"P7 entries=", entries as u64),
        PayloadRefusal::GroupTooLarge { blocks, length } => {
            push_two(
                line,
                b"P8 blocks=",
                blocks as u64,
                b" length=",
                length as u64,
            );
        }
        PayloadRefusal::BodyShort { need, have } => {
            push_two(line, b"P9 need=", need as u64, b" have=", have as u64);
        }
        PayloadRefusal::BodyLong { need, have } => {
            push_two(line, b"P10 need=", need as u64, b" have=", have as u64);
        }
        PayloadRefusal::NotCanonical { octet } => line.named(b"P11 octet=", octet as u64),
        PayloadRefusal::RequestOutside { cmr } => line.named(b"P12 cmr=", u64::from(cmr)),
        PayloadRefusal::ModeOutside { entry, ft } => {
            push_two(line, b"P13 entry=", entry as u64, b" ft=", u64::from(ft));
        }
    }
}
