// Media parameters as a text gives them.
ghost use Rattle.std.specs.Prelude.{◌≡◌, ◌≤◌, ◌<◌, ◌^◌, ◌&&◌, ◌||◌, IfSome, option_map};
ghost use Rattle.std.specs.Option.{unwrap_or};
ghost use Rattle.media_params.specs.Fmtp.{parameters};
ghost use Rattle.media_params.specs.Given.{AreAllowed, TakesPart, at};
ghost use Rattle.media_params.specs.Readings.{IsReading, asks, is_number_at, number_at, parameters_at};
ghost use Rattle.refusals.specs.declared.param.Param.TheVariants as param;
ghost use Rattle.amr_mode.specs.Members.{members};
ghost use Rattle.spec_media.specs.Reading.{modes_of};
ghost use Rattle.spec_modes.specs.ModeSets.{IsModeSet};

use crate::fmtp::Fmtp;
use crate::given::Given;
use crate::pieces::{cut, trim};
use crate::values::read_modes;
use amr_frame::Codec;
use amr_mode::ModeSet;
use refusals::{FmtpRefusal, Param};

/// Reads the media parameters that a text gives for a codec (RFC 4867, 8.1 to 8.3).
///
/// The pieces of the text, between its semicolons, are tested from the left: `NoName` (F1) where one has no name, `BadValue`
/// (F2) where it names a parameter and has a value that the parameter can't have, `Repeated` (F3) where that parameter stood
/// before. After all of them `Contradiction` (F4) comes where `octet-align=0` stands beside what needs octet alignment.
/// Pieces of other names are passed over.
pub fn read_fmtp(codec: Codec, text: &[u8]) -> Result<Fmtp, FmtpRefusal>
    ensures { IsReading codec text.now result }
{
    let mut given = Given::nothing();
    let mut rest = Some(text);
    while let Some(left) = rest {
        let (part, more) = cut(left, b';');
        if let Err(why) = take_part(codec, &mut given, part) {
            return Err(why);
        }
        rest = more;
    }
    if contradicts(&given) {
        return Err(FmtpRefusal::Contradiction);
    }
    Ok(fmtp_of(codec, &given))
}

/// Takes the piece that stands in a part of the text, if one does.
fn take_part<'a>(codec: Codec, given: &mut Given<'a>, part: &'a [u8]) -> Result<(), FmtpRefusal>
    ensures { TakesPart codec given.old part.now given.new result }
{
    let piece = trim(part);
    if piece.is_empty() {
        return Ok(());
    }
    given.take(codec, piece)
}

/// Whether a parameter was given this number.
fn is_at(given: &Given<'_>, param: Param, number: u32) -> bool
    ensures { result ≡ is_number_at given.now param number }
{
    match given.number(param) {
        Some(other) => other == number,
        None => false,
    }
}

/// Whether octet alignment was refused beside what needs it.
fn contradicts(given: &Given<'_>) -> bool
    ensures { result ≡ (is_number_at given.now param.OctetAlign 0 && asks given.now) }
{
    is_at(given, Param::OctetAlign, 0) && asks_alignment(given)
}

/// Whether CRCs, sorting or interleaving were asked for.
fn asks_alignment(given: &Given<'_>) -> bool
    ensures { result ≡ asks given.now }
{
    is_at(given, Param::Crc, 1)
        || is_at(given, Param::Sorting, 1)
        || given.number(Param::Interleaving).is_some()
}

/// The parameters of what was given.
fn fmtp_of(codec: Codec, given: &Given<'_>) -> Fmtp
    requires { AreAllowed codec given.now }
    ensures same { parameters result ≡ parameters_at codec given.now }
    ensures is_set { IfSome result.modes (λ set. IsModeSet codec (members set)) }
{
    Fmtp {
        octet_aligned: is_aligned(given),
        modes: modes_at(codec, given),
        period: count_at(given, Param::Period),
        capability: count_at(given, Param::Capability),
        neighbor: is_at(given, Param::Neighbor, 1),
        crc: is_at(given, Param::Crc, 1),
        sorting: is_at(given, Param::Sorting, 1),
        interleaving: short_at(given, Param::Interleaving),
        max_red: short_at(given, Param::MaxRed),
    }
}

/// Whether octet alignment was asked for, or what needs it.
fn is_aligned(given: &Given<'_>) -> bool
    ensures { result ≡ (is_number_at given.now param.OctetAlign 1 || asks given.now) }
{
    is_at(given, Param::OctetAlign, 1) || asks_alignment(given)
}

/// The modes that were given.
fn modes_at(codec: Codec, given: &Given<'_>) -> Option<ModeSet>
    requires { AreAllowed codec given.now }
    ensures modes { option_map members result
        ≡ option_map (modes_of codec) (at given.now param.ModeSet) }
    ensures is_set { IfSome result (λ set. IsModeSet codec (members set)) }
{
    match given.value(Param::ModeSet) {
        Some(value) => read_modes(codec, value),
        None => None,
    }
}

/// The number that a parameter was given, or 1.
fn count_at(given: &Given<'_>, param: Param) -> u8
    requires { IfSome (number_at given.now param) (λ n. n < 2 ^ 8) }
    ensures { result ≡ unwrap_or (number_at given.now param) 1 }
{
    match given.number(param) {
        Some(number) => number as u8,
        None => 1,
    }
}

/// The number that a parameter was given.
fn short_at(given: &Given<'_>, param: Param) -> Option<u16>
    requires { IfSome (number_at given.now param) (λ n. n < 2 ^ 16) }
    ensures { result ≡ number_at given.now param }
{
    match given.number(param) {
        Some(number) => Some(number as u16),
        None => None,
    }
}
