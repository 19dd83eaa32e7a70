ghost use Rattle.std.specs.Prelude.{◌≡◌, ◌↔◌, ◌+◌, ◌*◌, ◌≤◌, ◌<◌, length, IsOk, IfOk, IfErr, is_none, IfSome, Ok};
ghost use Rattle.spec_packet.specs.Rtp.{IsPacket, RtpPacket};
ghost use Rattle.spec_packet.specs.RtpReading.{rtp_of, rtp_refusal, packet_at, padding_in, breaks_extension, breaks_padding, sources_end as end_of_sources, header_end as end_of_header};
ghost use Rattle.rtp_packet.specs.View.{packet, read_of};

use crate::fit::are_octets;
use crate::header::{is_extended, is_padded, number_16, source_count, version_in};
use crate::view::RtpView;
use spec_packet::RtpRefusal;

/// Reads an RTP packet (RFC 3550, 5.1 and 5.3.1), and lends it by its fields.
///
/// The refusal is the first that holds, H1 to H5: fewer than 12 octets; a version that isn't 2;
/// contributing sources that don't fit; an extension that doesn't fit; padding whose count is 0 or
/// more than the octets after the header.
pub fn read_rtp(octets: &[u8]) -> Result<RtpView<'_>, RtpRefusal>
    ensures accepted { IsOk result ↔ (rtp_refusal octets.now ≡ None) }
    ensures fields { IfOk result (λ view. packet view ≡ packet_at octets.now) }
    ensures refusal { IfErr result (λ why. rtp_refusal octets.now ≡ Some why) }
    ensures reads { read_of result ≡ rtp_of octets.now }
    ensures grammar { (p : RtpPacket) → (read_of result ≡ Ok p) ↔ IsPacket p octets.now }
{
    are_octets(octets);
    if octets.len() < 12 {
        return Err(RtpRefusal::Short { have: octets.len() });
    }
    let version = version_in(octets[0]);
    if version != 2 {
        return Err(RtpRefusal::Version { got: version });
    }
    let sources_end = 12 + 4 * source_count(octets[0]);
    if octets.len() < sources_end {
        return Err(RtpRefusal::Sources);
    }
    let Some(header_size) = header_end(octets, sources_end) else {
        return Err(RtpRefusal::Extension);
    };
    let Some(padding) = padding_of(octets, header_size) else {
        return Err(RtpRefusal::Padding);
    };
    Ok(RtpView::over(octets, header_size, padding))
}

/// Where the header ends whose contributing sources end at `sources_end`, or `None` where its
/// extension doesn't fit.
fn header_end(octets: &[u8], sources_end: usize) -> Option<usize>
    requires sources { sources_end ≡ end_of_sources octets.now }
    requires fits { sources_end ≤ length octets.now }
    ensures end { IfSome result (λ end. (end ≡ end_of_header octets.now)
        × (sources_end ≤ end) × (end ≤ length octets.now)) }
    ensures none { is_none result ≡ breaks_extension octets.now }
{
    if !is_extended(octets[0]) {
        return Some(sources_end);
    }
    if octets.len() < sources_end + 4 {
        return None;
    }
    let end = sources_end + 4 + 4 * number_16(octets, sources_end + 2) as usize;
    if octets.len() < end {
        return None;
    }
    Some(end)
}

/// How many octets of padding stand behind the header, or `None` where their count is 0 or more
/// than the octets there.
fn padding_of(octets: &[u8], header_size: usize) -> Option<u8>
    requires any { 0 < length octets.now }
    requires header { header_size ≡ end_of_header octets.now }
    requires fits { header_size ≤ length octets.now }
    ensures padding { IfSome result
        (λ n. (n ≡ padding_in octets.now) × (header_size + n ≤ length octets.now)) }
    ensures none { is_none result ≡ breaks_padding octets.now }
{
    if !is_padded(octets[0]) {
        return Some(0);
    }
    let padding = octets[octets.len() - 1];
    if padding == 0 || padding as usize > octets.len() - header_size {
        return None;
    }
    Some(padding)
}
