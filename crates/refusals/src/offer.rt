use crate::media::FmtpRefusal;

/// Why a session description is refused as an offer. F5 is tested first, then F6, and then the
/// parameters of each offered payload type in order.
#[derive(Clone, Copy, Debug, PartialEq, Eq)]
pub enum OfferRefusal {
    /// F5: there is no audio section.
    NoAudio,
    /// F6: this line of the audio section, counted from 1 in the whole text, isn't in its
    /// grammar. It begins with `m=audio `, `a=rtpmap:` or `a=fmtp:`.
    BadMap { line: u32 },
    /// F1 to F4: the media parameters of this payload type are refused.
    Parameters { pt: u8, refusal: FmtpRefusal },
}
