// Reading an offer.
ghost use Rattle.std.specs.Prelude.{◌≡◌, ◌+◌, ◌++◌, ◌<◌, ◌≤◌, IfOk, IfSome, MatchResult, OnOk, length};
ghost use Rattle.std.specs.Prelude.{vec_len};
ghost use Rattle.std.specs.Option.{option_to_list};
ghost use Rattle.sdp_lines.specs.Told.{Says};
ghost use Rattle.spec_offer.specs.Sections.{Section};
ghost use Rattle.amr_sdp.specs.Offers.{AnswersOffer, AreOffered};
ghost use Rattle.amr_sdp.specs.Types.{AreTypes, AreValid, IsValid, IsWhyNot, ReadsType};

use crate::offer::{Offer, OfferError, OfferedType};
use media_params::read_fmtp;
use refusals::OfferRefusal;
use sdp_lines::{Attributes, Section as Described, read_section};
use std::alloc::{AllocError, Global};

/// Reads the offer of a session description of at most 65,536 octets.
///
/// `Refused` where the text has no audio section (F5), where a line of it isn't in its grammar (F6),
/// and where the parameters of an offered payload type are refused (F1 to F4), the first of these in
/// this order. `Memory` where there is none for the payload types and the protocol word.
pub fn read_offer(alloc: Global, text: &[u8]) -> Result<Offer, OfferError>
    requires short { length text.now ≤ 65536 }

    ensures answer { AnswersOffer text.now result }
    ensures valid { IfOk result AreOffered }
{
    let section = match read_section(text) {
        Ok(section) => section,
        Err(refusal) => return Err(OfferError::Refused(refusal)),
    };
    let types = match read_types(alloc, &section) {
        Ok(types) => types,
        Err(error) => return Err(error),
    };
    let protocol = match Vec::from_slice(alloc, section.media.protocol) {
        Ok(protocol) => protocol,
        Err(error) => return Err(OfferError::Memory(error)),
    };
    Ok(Offer {
        types,
        protocol,
        ptime: section.attributes.ptime,
        maxptime: section.attributes.maxptime,
    })
}

/// The offered payload types of a section, in order, or the first refusal.
fn read_types(alloc: Global, section: &Described) -> Result<Vec<OfferedType>, OfferError>
    ensures types { (s : Section) → Says section.now.attributes s
        → MatchResult result (λ types. AreTypes s section.now.media.formats.items types.items)
        (IsWhyNot s section.now.media.formats.items) }
    ensures valid { IfOk result (λ types. AreValid types.items) }
    ensures few { IfOk result (λ types. vec_len types ≤ 128) }
{
    let mut types = Vec::new(alloc);
    let mut formats = section.media.formats.as_slice();
    while let [pt, more @ ..] = formats {
        let found = match read_type(&section.attributes, *pt) {
            Ok(found) => found,
            Err(refusal) => return Err(OfferError::Refused(refusal)),
        };
        if let Err(error) = add(&mut types, found) {
            return Err(OfferError::Memory(error));
        }
        formats = more;
    }
    Ok(types)
}

/// Adds a payload type, where there is one.
fn add(types: &mut Vec<OfferedType>, found: Option<OfferedType>) -> Result<(), AllocError>
    ensures items { OnOk result (types.new.items ≡ types.old.items ++ option_to_list found) }
    ensures len { OnOk result (vec_len types.new ≤ vec_len types.old + 1) }
{
    if let Some(offered) = found {
        types.push(offered)?;
    }
    Ok(())
}

/// A payload type as it is offered, where its map gives one of the two codecs.
fn read_type(attributes: &Attributes, pt: u8) -> Result<Option<OfferedType>, OfferRefusal>
    requires { pt < 128 }

    ensures read { (s : Section) → Says attributes.now s → ReadsType s pt result }
    ensures valid { IfOk result (λ found. IfSome found IsValid) }
{
    let Some(map) = attributes.map(pt) else {
        return Ok(None);
    };
    let Some(codec) = map.codec() else {
        return Ok(None);
    };
    match read_fmtp(codec, attributes.parameters(pt)) {
        Ok(fmtp) => Ok(Some(OfferedType {
            pt,
            codec,
            channels: map.channels,
            fmtp,
        })),
        Err(refusal) => Err(OfferRefusal::Parameters { pt, refusal }),
    }
}
