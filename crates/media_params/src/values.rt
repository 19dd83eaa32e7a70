// The values that a parameter may have.
ghost use Rattle.std.specs.Prelude.{◌≡◌, IfSome, Some, is_some};
ghost use Rattle.std.specs.Str.{all_ascii_digits};
ghost use Rattle.amr_frame.specs.Tables.{is_mode};
ghost use Rattle.amr_mode.specs.Members.{members};
ghost use Rattle.media_params.specs.Listed.{HasMore, is_number};
ghost use Rattle.spec_media.specs.Params.{Modes, is_allowed, is_in, is_mode_number, values_of};
ghost use Rattle.spec_media.specs.Pieces.{number_in};
ghost use Rattle.spec_media.specs.Reading.{modes_of};
ghost use Rattle.spec_modes.specs.ModeSets.{IsModeSet};

use crate::pieces::{cut, trim};
use amr_frame::Codec;
use amr_mode::ModeSet;
use refusals::Param;
use std::str;

/// Whether a parameter may have this value.
pub fn is_allowed(codec: Codec, param: Param, value: &[u8]) -> bool
    ensures { result ≡ is_allowed codec (values_of param) value.now }
{
    match param {
        Param::ModeSet => read_modes(codec, value).is_some(),
        Param::Interleaving => is_between(value, 1, 65_535),
        Param::MaxRed => is_between(value, 0, 65_535),
        Param::Period | Param::Capability => is_between(value, 1, 2),
        Param::OctetAlign | Param::Neighbor | Param::Crc | Param::Sorting => {
            is_between(value, 0, 1)
        }
    }
}

/// Whether a text is a number of 1 to 5 digits, and in this range.
fn is_between(text: &[u8], least: u32, greatest: u32) -> bool
    ensures { result ≡ is_in least greatest (number_in 5 text.now) }
{
    match read_number(text) {
        Some(number) => least <= number && number <= greatest,
        None => false,
    }
}

/// The number that a text of 1 to 5 decimal digits stands for; it may begin with zeros.
pub fn read_number(text: &[u8]) -> Option<u32>
    ensures { result ≡ number_in 5 text.now }
{
    if !is_number(text) {
        return None;
    }
    let Ok(digits) = str::from_utf8(text) else {
        return None;
    };
    digits.parse().ok()
}

/// Whether a text is 1 to 5 decimal digits.
fn is_number(text: &[u8]) -> bool
    ensures { result ≡ is_number text.now }
{
    !text.is_empty() && text.len() <= 5 && are_digits(text)
}

fn are_digits(text: &[u8]) -> bool
    ensures { result ≡ all_ascii_digits text.now }
{
    text.iter().all(|octet| octet.is_ascii_digit())
}

/// The modes of a list of numbers with commas between them, if each is a speech mode of the codec
/// (RFC 4867, 8.1 and 8.2, mode-set). Spaces and tabs may stand around each number, and neither
/// order nor repeats have a meaning.
pub fn read_modes(codec: Codec, text: &[u8]) -> Option<ModeSet>
    ensures allowed { is_some result ≡ is_allowed codec Modes text.now }
    ensures modes { IfSome result (λ set. members set ≡ modes_of codec text.now) }
    ensures is_set { IfSome result (λ set. IsModeSet codec (members set)) }
{
    let mut set = ModeSet { bits: 0 };
    let mut rest = Some(text);
    while let Some(left) = rest {
        let (item, more) = cut(left, b',');
        let Some(new) = with_item(codec, set, trim(item)) else {
            return None;
        };
        set = new;
        rest = more;
    }
    Some(set)
}

/// A set and the mode of an item more, if the item is the number of a speech mode of the codec.
fn with_item(codec: Codec, set: ModeSet, item: &[u8]) -> Option<ModeSet>
    ensures is_mode { is_some result ≡ is_mode_number codec (number_in 5 item.now) }
    ensures modes { IfSome result (HasMore set (number_in 5 item.now)) }
{
    match read_number(item) {
        Some(mode) => with_mode(codec, set, mode),
        None => None,
    }
}

/// A set and one mode more, if the number is a speech mode of the codec.
fn with_mode(codec: Codec, set: ModeSet, mode: u32) -> Option<ModeSet>
    ensures is_mode { is_some result ≡ is_mode codec mode }
    ensures modes { IfSome result (HasMore set (Some mode)) }
{
    if mode >= 16 || !ModeSet::all(codec).has(mode as u8) {
        return None;
    }
    Some(ModeSet {
        bits: set.bits | 1 << mode,
    })
}
