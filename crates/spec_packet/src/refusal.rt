use thiserror::Error;

/// Why octets are no RTP packet (RFC 3550, 5.1 and 5.3.1), in the order in which the rules are tested.
#[derive(Clone, Copy, Debug, PartialEq, Eq, Error)]
pub enum RtpRefusal {
    /// H1: there are fewer than the 12 octets of the fixed header.
    #[error("{have} octets are no RTP header")]
    Short { have: usize },
    /// H2: the version isn't 2.
    #[error("the RTP version is {got}")]
    Version { got: u8 },
    /// H3: the contributing sources (CSRC) that the header counts don't fit.
    #[error("the contributing sources don't fit")]
    Sources,
    /// H4: the header extension doesn't fit.
    #[error("the header extension doesn't fit")]
    Extension,
    /// H5: the padding is asked and its count is 0 or more than the octets after the header.
    #[error("the padding doesn't fit")]
    Padding,
}
