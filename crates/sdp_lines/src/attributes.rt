// What the lines `a=rtpmap:` and `a=fmtp:` of an audio section say (RFC 4566, 6).
ghost use Rattle.std.specs.Prelude.{◌≡◌, ◌≤◌, ◌∷◌, IfNone, IfSome, false, option_map};
ghost use Rattle.std.specs.List.{slice_split};
ghost use Rattle.spec_offer.specs.Attributes.{format_in, is_slash, map_in, payload_type};
ghost use Rattle.sdp_lines.specs.Attributes.{are_parts, format_said, listed, map_said, map_with};

use crate::pieces::{cut, number, trim_end};

/// A payload type with the name of its codec, its clock rate in Hz and its number of channels.
#[derive(Clone, Copy)]
pub struct Map<'a> {
    /// From 0 to 127.
    pub pt: u8,
    pub name: &'a [u8],
    pub rate: u32,
    pub channels: u16,
}

/// A payload type with the text of its media parameters.
#[derive(Clone, Copy)]
pub struct Format<'a> {
    /// From 0 to 127.
    pub pt: u8,
    pub text: &'a [u8],
}

/// What stands between the `/` of a map.
#[derive(Clone, Copy)]
struct Parts<'a> {
    name: &'a [u8],
    rate: &'a [u8],
    channels: Option<&'a [u8]>,
}

/// A payload type: 1 to 3 digits, from 0 to 127.
pub fn payload_type(text: &[u8]) -> Option<u8>
    ensures value { result ≡ payload_type text.now }
    ensures within { IfSome result (λ pt. pt ≤ 127) }
{
    let pt = number(text, 3)?;
    if pt > 127 {
        return None;
    }
    Some(pt as u8)
}

/// What stands behind `a=rtpmap:`: a payload type, a space, a name, `/`, a rate of 1 to 6 digits,
/// and maybe `/` and 1 to 3 digits of channels, of which there is else one. Spaces at the end are
/// dropped.
pub fn read_map(text: &[u8]) -> Option<Map<'_>>
    ensures said { option_map map_said result ≡ map_in text.now }
    ensures within { IfSome result (λ map. map.pt ≤ 127) }
{
    let (pt, rest) = cut(trim_end(text), b' ');
    let rest = rest?;
    if rest.contains(&b' ') {
        return None;
    }
    let pt = payload_type(pt)?;
    map_of(pt, cut_map(rest)?)
}

/// The two or three parts of a map.
fn cut_map(text: &[u8]) -> Option<Parts<'_>>
    ensures some { IfSome result (λ parts. slice_split is_slash text.now ≡ listed parts) }
    ensures none { IfNone result (are_parts (slice_split is_slash text.now) ≡ false) }
{
    let (name, rest) = cut(text, b'/');
    let (rate, rest) = cut(rest?, b'/');
    let Some(rest) = rest else {
        return Some(Parts {
            name,
            rate,
            channels: None,
        });
    };
    match cut(rest, b'/') {
        (channels, None) => Some(Parts {
            name,
            rate,
            channels: Some(channels),
        }),
        (_, Some(_)) => None,
    }
}

/// The map that its parts make.
fn map_of(pt: u8, parts: Parts<'_>) -> Option<Map<'_>>
    ensures said { option_map map_said result ≡ map_with pt parts.entry }
    ensures pt { IfSome result (λ map. map.pt ≡ pt) }
{
    let rate = number(parts.rate, 6)?;
    let channels = match parts.channels {
        Some(channels) => number(channels, 3)?,
        None => 1,
    };
    if parts.name.is_empty() {
        return None;
    }
    Some(Map {
        pt,
        name: parts.name,
        rate,
        channels: channels as u16,
    })
}

/// What stands behind `a=fmtp:`: a payload type, a space, and any text.
pub fn read_format(text: &[u8]) -> Option<Format<'_>>
    ensures said { option_map format_said result ≡ format_in text.now }
    ensures within { IfSome result (λ format. format.pt ≤ 127) }
{
    let (pt, rest) = cut(text, b' ');
    let rest = rest?;
    Some(Format {
        pt: payload_type(pt)?,
        text: rest,
    })
}
