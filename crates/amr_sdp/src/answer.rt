// The answer to an offer.
ghost use Rattle.std.specs.Prelude.{◌≡◌, [], option_map};
ghost use Rattle.std.specs.Option.{unwrap_or};
ghost use Rattle.amr_mode.specs.Members.{members};
ghost use Rattle.amr_sdp.specs.Answers.{IsAnswer, IsWanted, chosen_said, wanted_said};
ghost use Rattle.amr_sdp.specs.Types.{type_said};
ghost use Rattle.spec_modes.specs.ModeSets.{all_modes, within};
ghost use Rattle.spec_offer.specs.Answers.{answered_modes, chosen_of, same_codec, unsuited};
ghost use Rattle.std.specs.Str.{bytes_eq};

use crate::offer::{Offer, OfferedType};
use amr_frame::Codec;
use amr_mode::ModeSet;
use arrayvec::ArrayVec;
use media_params::Fmtp;
use refusals::{RefusedType, Why};

/// What is wanted of an offer.
#[derive(Clone, Copy, Debug, PartialEq, Eq)]
pub struct Wanted {
    pub codec: Codec,
    pub channels: u8,
    /// The modes that may be sent, of the codec.
    pub modes: ModeSet,
    /// Whether frames may have CRCs.
    pub crc: bool,
    /// Whether the octets of frames may stand in the robust order.
    pub sorting: bool,
    /// The most blocks in an interleaving group, 0 where payloads may not be interleaved.
    pub interleaving: u16,
}

/// The payload type that is answered, and its parameters.
#[derive(Clone, Copy, Debug, PartialEq, Eq)]
pub struct Chosen {
    /// From 0 to 127.
    pub pt: u8,
    pub fmtp: Fmtp,
}

/// The answer to an offer.
#[derive(Clone, Debug, Drop)]
pub struct Answer {
    /// The first offered payload type that suits, if one does.
    pub chosen: Option<Chosen>,
    /// The payload types before it, or all where none suits, each with the first reason against it.
    pub refused: ArrayVec<RefusedType, 128>,
}

/// Chooses the first offered payload type that suits what is wanted (RFC 3264, 6).
///
/// Its parameters are answered as they were offered (RFC 4867, 8.3), a mode set above all; where
/// none was offered and not all modes are wanted, the wanted modes are.
pub fn choose_answer(offer: &Offer, wanted: &Wanted) -> Answer
    requires wanted { IsWanted wanted.now }

    ensures { IsAnswer offer.now wanted.now result }
{
    let mut refused = ArrayVec::new();
    let mut left = offer.types.as_slice();
    while let [offered, more @ ..] = left {
        let Some(why) = unsuited(offered, wanted) else {
            let chosen = Some(choose(offered, wanted));
            return Answer { chosen, refused };
        };
        refused.push(RefusedType {
            pt: offered.pt,
            why,
        });
        left = more;
    }
    Answer {
        chosen: None,
        refused,
    }
}

/// The first reason against a payload type.
fn unsuited(offered: &OfferedType, wanted: &Wanted) -> Option<Why>
    ensures { result ≡ unsuited (wanted_said wanted.now) (type_said offered.now) }
{
    if !is_same(offered.codec, wanted.codec) {
        Some(Why::Codec)
    } else if offered.channels != u16::from(wanted.channels) {
        Some(Why::Channels)
    } else if offered.fmtp.crc && !wanted.crc {
        Some(Why::Crc)
    } else if offered.fmtp.sorting && !wanted.sorting {
        Some(Why::Sorting)
    } else if wanted.interleaving < offered.fmtp.interleaving.unwrap_or(0) {
        Some(Why::Interleaving)
    } else if !is_within(offered.fmtp.modes, &wanted.modes) {
        Some(Why::Modes)
    } else {
        None
    }
}

fn is_same(offered: Codec, wanted: Codec) -> bool
    ensures { result ≡ same_codec offered wanted }
{
    match (offered, wanted) {
        (Codec::Amr, Codec::Amr) => true,
        (Codec::AmrWb, Codec::AmrWb) => true,
        (Codec::Amr, Codec::AmrWb) => false,
        (Codec::AmrWb, Codec::Amr) => false,
    }
}

/// Whether each mode of a set is wanted, where there is a set.
fn is_within(offered: Option<ModeSet>, wanted: &ModeSet) -> bool
    ensures { result
        ≡ within (unwrap_or (option_map members offered) []) (members wanted.now) }
{
    match offered {
        Some(set) => set.within(wanted),
        None => true,
    }
}

/// A payload type with the parameters that are answered.
fn choose(offered: &OfferedType, wanted: &Wanted) -> Chosen
    requires { IsWanted wanted.now }

    ensures { chosen_said result ≡ chosen_of (wanted_said wanted.now) (type_said offered.now) }
{
    Chosen {
        pt: offered.pt,
        fmtp: Fmtp {
            modes: answered_modes(offered.fmtp.modes, wanted),
            ..offered.fmtp
        },
    }
}

/// The modes that are answered: those offered, or, where none are and not all are wanted, those
/// wanted.
fn answered_modes(offered: Option<ModeSet>, wanted: &Wanted) -> Option<ModeSet>
    requires { IsWanted wanted.now }

    ensures { option_map members result
        ≡ answered_modes (wanted_said wanted.now) (option_map members offered) }
{
    match offered {
        Some(set) => Some(set),
        None if wants_all(wanted) => None,
        None => Some(wanted.modes),
    }
}

/// Whether all modes of the codec are wanted.
fn wants_all(wanted: &Wanted) -> bool
    requires { IsWanted wanted.now }

    ensures { result ≡ bytes_eq (members wanted.now.modes) (all_modes wanted.now.codec) }
{
    ModeSet::all(wanted.codec).within(&wanted.modes)
}
