use thiserror::Error;

/// Why octets are no payload of a format (RFC 4867, 4.3 and 4.4), in the order in which the rules are tested.
/// P4 to P6 are tested at each entry of the table of contents in turn, in this order at one entry. P11 to P13 are
/// this project's own, of strict formats.
#[derive(Clone, Copy, Debug, PartialEq, Eq, Error)]
pub enum PayloadRefusal {
    /// P1: there is no octet.
    #[error("the payload is empty")]
    Empty,
    /// P2: the format interleaves, and there is only one octet.
    #[error("the payload ends inside its header")]
    HeaderShort,
    /// P3: the interleaving index ILP is above the interleaving length ILL.
    #[error("the interleaving index {ilp} is above the interleaving length {ill}")]
    IndexAboveLength { ill: u8, ilp: u8 },
    /// P4: `entries` entries, all with F = 1, are whole, and the next one isn't.
    #[error("the table of contents isn't ended after {entries} entries")]
    TocUnended { entries: usize },
    /// P5: no frame has the type of this entry.
    #[error("entry {entry} has the reserved type {ft}")]
    ReservedType { entry: usize, ft: u8 },
    /// P6: the table has an entry beyond the most blocks of the format.
    #[error("the payload has too many blocks")]
    TooManyBlocks,
    /// P7: the entries aren't whole blocks of all channels.
    #[error("{entries} entries aren't whole blocks")]
    ChannelRest { entries: usize },
    /// P8: the interleaving group is greater than the format allows.
    #[error("groups of {length} payloads of {blocks} blocks are too large")]
    GroupTooLarge { blocks: usize, length: usize },
    /// P9: the table needs more octets than there are.
    #[error("the payload needs {need} octets and has {have}")]
    BodyShort { need: usize, have: usize },
    /// P10: the table needs fewer octets than there are.
    #[error("the payload needs {need} octets and has {have}")]
    BodyLong { need: usize, have: usize },
    /// P11, in a strict format alone: the octets aren't the canonical ones of their value, from `octet` on.
    #[error("octet {octet} isn't that of the canonical payload")]
    NotCanonical { octet: usize },
    /// P12, in a strict format alone: the codec mode request is neither 15 nor a mode of the format.
    #[error("the codec mode request {cmr} is no mode of the format")]
    RequestOutside { cmr: u8 },
    /// P13, in a strict format alone: the speech frame of this entry has a mode that the format doesn't have.
    #[error("entry {entry} has the type {ft}, which is no mode of the format")]
    ModeOutside { entry: usize, ft: u8 },
}
