/// The fields of an RTP packet that is written (RFC 3550, 5.1): all but its payload.
#[derive(Clone, Copy, Debug)]
pub struct RtpFields<'a> {
    pub marker: bool,
    /// The payload type, from 0 to 127.
    pub payload_type: u8,
    pub sequence: u16,
    /// The timestamp, in ticks of the clock of the payload format.
    pub timestamp: u32,
    pub ssrc: u32,
    /// The contributing sources (CSRC), at most 15.
    pub sources: &'a [u32],
    /// The header extension: the 16 bits that its profile defines, and its octets, which are whole
    /// words of 4, at most 65,535 of them.
    pub extension: Option<(u16, &'a [u8])>,
    /// How many padding octets stand behind the payload, their count included; 0 where there is no
    /// padding.
    pub padding: u8,
}
