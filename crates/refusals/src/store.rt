use thiserror::Error;

/// Why octets are no storage file of the asked codec and channels (RFC 4867, 5). The first unit at fault is
/// named, a unit being the magic number, the channel description or a frame. Places count octets from 0.
#[derive(Clone, Copy, Debug, PartialEq, Eq, Error)]
pub enum StoreRefusal {
    /// T1: the file doesn't begin with a magic number of the asked codec.
    #[error("the file doesn't begin with the codec's magic number")]
    Magic,
    /// T2: the file has another number of channels than the asked one.
    #[error("the file has {chan} channels")]
    Channels { chan: u8 },
    /// T3: the frame whose first octet stands at `place` has a reserved type.
    #[error("the frame at {place} has the reserved type {ft}")]
    Reserved { place: u64, ft: u8 },
    /// T4: the file ends inside the channel description or the frame that begins at `place`.
    #[error("the file ends inside what begins at {place}")]
    Truncated { place: u64 },
    /// T5: the file ends on a frame's edge inside the block that begins at `place`.
    #[error("the file ends inside the block that begins at {place}")]
    BlockRest { place: u64 },
}
