ghost use Rattle.std.specs.Prelude.{◌≡◌, ◌+◌, ◌≤◌, ◌<◌, length, option_map, slice_index};
ghost use Rattle.spec_packet.specs.RtpReading.{sources_end as end_of_sources, header_end as end_of_header, padding_in};

use crate::header::{is_extended, marker_in, number_16, number_32, source_count, type_in};

/// An RTP packet that was read (RFC 3550, 5.1): its fields are looked up in the octets that it
/// borrows, and nothing is copied.
#[derive(Clone, Copy, Debug)]
pub struct RtpView<'a> {
    octets: &'a [u8],
    /// The octets of the header, contributing sources and extension included.
    header_size: usize,
    padding: u8,
    ghost fixed: { 12 ≤ length octets.now },
    ghost ends: { end_of_sources octets.now ≤ header_size },
    ghost header: { header_size ≡ end_of_header octets.now },
    ghost padded: { padding ≡ padding_in octets.now },
    ghost fits: { header_size + padding ≤ length octets.now },
}

impl<'a> RtpView<'a> {
    ghost use Rattle.rtp_packet.specs.View.{packet, extension_of};

    /// A view of octets that are a packet.
    pub(crate) fn over(octets: &'a [u8], header_size: usize, padding: u8) -> RtpView<'a>
        requires fixed { 12 ≤ length octets.now }
        requires ends { end_of_sources octets.now ≤ header_size }
        requires header { header_size ≡ end_of_header octets.now }
        requires padded { padding ≡ padding_in octets.now }
        requires fits { header_size + padding ≤ length octets.now }
        ensures { result.octets.now ≡ octets.now }
    {
        RtpView {
            octets,
            header_size,
            padding,
        }
    }

    /// The marker bit.
    pub fn marker(&self) -> bool
        ensures { result ≡ (packet self.now).marker }
    {
        marker_in(self.octets[1])
    }

    /// The payload type, from 0 to 127.
    pub fn payload_type(&self) -> u8
        ensures { result ≡ (packet self.now).payload_type }
    {
        type_in(self.octets[1])
    }

    /// The sequence number.
    pub fn sequence(&self) -> u16
        ensures { result ≡ (packet self.now).sequence }
    {
        number_16(self.octets, 2)
    }

    /// The timestamp, in ticks of the clock of the payload format.
    pub fn timestamp(&self) -> u32
        ensures { result ≡ (packet self.now).timestamp }
    {
        number_32(self.octets, 4)
    }

    /// The synchronization source (SSRC).
    pub fn ssrc(&self) -> u32
        ensures { result ≡ (packet self.now).ssrc }
    {
        number_32(self.octets, 8)
    }

    /// How many contributing sources (CSRC) the packet lists, from 0 to 15.
    pub fn sources(&self) -> usize
        ensures { result ≡ length (packet self.now).sources }
    {
        source_count(self.octets[0])
    }

    /// The contributing source at place `at` of the list, counted from 0.
    pub fn source(&self, at: usize) -> u32
        requires { at < length (packet self.now).sources }
        ensures { result ≡ slice_index (packet self.now).sources at }
    {
        number_32(self.octets, 12 + 4 * at)
    }

    /// The header extension: the 16 bits that its profile defines, and the octets of its words,
    /// lent in place; `None` where there is no extension.
    pub fn extension(&self) -> Option<(u16, &'a [u8])>
        ensures { option_map (λ e. extension_of e.0 e.1.now) result ≡ (packet self.now).extension }
    {
        if is_extended(self.octets[0]) {
            let at = 12 + 4 * source_count(self.octets[0]);
            let bits = number_16(self.octets, at);
            Some((bits, &self.octets[at + 4..self.header_size]))
        } else {
            None
        }
    }

    /// How many padding octets stand behind the payload, their count included; 0 where there is no
    /// padding.
    pub fn padding(&self) -> u8
        ensures { result ≡ (packet self.now).padding }
    {
        self.padding
    }

    /// The payload, lent in place.
    pub fn payload(&self) -> &'a [u8]
        ensures { result.now ≡ (packet self.now).payload }
    {
        &self.octets[self.header_size..self.octets.len() - self.padding as usize]
    }
}
