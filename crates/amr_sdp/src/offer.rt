// Offers, and why there are none.
ghost use Rattle.std.specs.Prelude.{◌≡◌, ◌<◌, ◌≤◌, length, vec_len};

use amr_frame::Codec;
use media_params::Fmtp;
use refusals::OfferRefusal;
use std::alloc::AllocError;

/// An offered payload type of AMR or AMR-WB, with the number of channels and the parameters that it is
/// offered with.
#[derive(Clone, Copy)]
pub struct OfferedType {
    /// From 0 to 127.
    pub pt: u8,
    pub codec: Codec,
    pub channels: u16,
    pub fmtp: Fmtp,
}

/// What a session description offers.
#[derive(Drop)]
pub struct Offer {
    pub(crate) types: Vec<OfferedType>,
    pub(crate) protocol: Vec<u8>,
    pub(crate) ptime: Option<u32>,
    pub(crate) maxptime: Option<u32>,
    ghost few: { vec_len types ≤ 128 },
}

/// Why there is no offer.
#[derive(Debug, Drop)]
pub enum OfferError {
    /// There is no memory for it.
    Memory(AllocError),
    /// The text is refused as an offer.
    Refused(OfferRefusal),
}

impl Offer {
    ghost use Rattle.amr_sdp.specs.Offers.{AreOffered, offer_said};
    ghost use Rattle.amr_sdp.specs.Types.{IsValid, type_said};
    ghost use Rattle.std.specs.Prelude.{slice_index_or};

    /// How many payload types are offered, at most 128.
    pub fn types(&self) -> usize
        ensures count { result ≡ length (offer_said self.now).types }
        ensures few { result ≤ 128 }
    {
        self.types.len()
    }

    /// The offered payload type at a place, in the order of the media line. Its parameters are some
    /// that its codec may have, where the offer was read.
    pub fn item(&self, at: usize) -> OfferedType
        requires { at < length (offer_said self.now).types }

        ensures said { type_said result
            ≡ slice_index_or (offer_said self.now).types at (type_said result) }
        ensures valid { AreOffered self.now → IsValid result }
    {
        self.types[at]
    }

    /// The protocol word of the media line.
    pub fn protocol(&self) -> &[u8]
        ensures { result.now ≡ (offer_said self.now).protocol }
    {
        self.protocol.as_slice()
    }

    /// The time of a packet that is asked for, in milliseconds.
    pub fn ptime(&self) -> Option<u32>
        ensures { result ≡ (offer_said self.now).ptime }
    {
        self.ptime
    }

    /// The greatest time of a packet that is asked for, in milliseconds.
    pub fn maxptime(&self) -> Option<u32>
        ensures { result ≡ (offer_said self.now).maxptime }
    {
        self.maxptime
    }
}
