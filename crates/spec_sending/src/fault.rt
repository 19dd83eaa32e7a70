use amr_frame::ProfileFault;
use thiserror::Error;

/// Why a plan of sending isn't valid, in the order in which the rules are tested.
#[derive(Clone, Copy, Debug, PartialEq, Eq, Error)]
pub enum SendFault {
    /// The format isn't valid: B1 to B4.
    #[error("the format isn't valid")]
    Profile(ProfileFault),
    /// B7: a packet has no block, or more with its repeats than the format's payloads.
    #[error("a packet has no block, or more than a payload may have")]
    Blocks,
    /// B8: a group isn't of 1 to 16 packets, or is of several in a format that doesn't interleave.
    #[error("a group isn't of 1 to 16 packets, or the format doesn't interleave")]
    Length,
    /// B9: a group, or a packet with its repeats, has more blocks than the format's groups.
    #[error("a group or a packet has more blocks than the format's groups")]
    Group,
    /// B10: blocks are sent again where groups have several packets.
    #[error("blocks of groups aren't sent again")]
    Repeat,
    /// B11: the codec mode request is neither 15 nor a mode of the codec.
    #[error("the codec mode request is neither 15 nor a mode of the codec")]
    Request,
    /// B12: the payload type is above 127.
    #[error("the payload type is above 127")]
    Number,
}
