ghost use Rattle.std.specs.Prelude.{◌≡◌, IfSome};
ghost use Rattle.std.specs.Str.{all_ascii_digits};
ghost use Rattle.command_words.specs.Rows.{IsAmong, given_in, values_of};
ghost use Rattle.spec_words.specs.Given.{is_value, number_among};
ghost use Rattle.spec_words.specs.Numbers.{codec_named, is_number, number_of};
ghost use Rattle.spec_words.specs.Table.{Numbers};

use crate::options::Options;
use amr_frame::Codec;
use media_params::{read_fmtp, read_modes};

/// What a listing shows where the bits of the frames are shown.
pub const BITS: &str = "bits";

/// The values that an option may have.
#[derive(Clone, Copy)]
pub enum Values {
    /// The names of the codecs.
    Codecs,
    /// The numbers from the least to the greatest, in decimal.
    Numbers { least: u64, greatest: u64 },
    /// The texts of media parameters of the codec that is given (RFC 4867, 8.1 to 8.3).
    Parameters,
    /// The modes that the media parameters that are given leave, all of that codec where they name
    /// none (RFC 4867, 8.1 and 8.2), in decimal.
    OneMode,
    /// The lists of modes of that codec, with commas between them (RFC 4867, 8.1 and 8.2).
    ModeLists,
    /// What a listing shows.
    Shows,
}

impl Values {
    /// Whether a text is one of the values, beside the other options.
    pub fn has(&self, options: &Options<'_>, text: &str) -> bool
        ensures { result ≡ is_value options.now.codec (given_in options.now)
            (values_of self.now) text.now }
    {
        match self {
            Values::Codecs => read_codec(text).is_some(),
            Values::Numbers { .. } => self.number(text).is_some(),
            Values::Parameters => read_fmtp(options.codec, text.as_bytes()).is_ok(),
            Values::OneMode => options.leaves(text),
            Values::ModeLists => read_modes(options.codec, text.as_bytes()).is_some(),
            Values::Shows => text == "frames" || text == BITS,
        }
    }

    /// The number that a text stands for, if it is one of the values.
    pub fn number(&self, text: &str) -> Option<u64>
        ensures value { result ≡ number_among (values_of self.now) text.now }
        ensures within { IfSome result (IsAmong (values_of self.now)) }
    {
        match *self {
            Values::Numbers { least, greatest } => number_between(text, least, greatest),
            Values::OneMode => read_number(text),
            Values::Codecs | Values::Parameters | Values::ModeLists | Values::Shows => None,
        }
    }
}

/// The codec of this name.
pub fn read_codec(name: &str) -> Option<Codec>
    ensures { result ≡ codec_named name.now }
{
    match name {
        "AMR" => Some(Codec::Amr),
        "AMR-WB" => Some(Codec::AmrWb),
        _ => None,
    }
}

/// The number that a text stands for, if it isn't below the least nor above the greatest.
fn number_between(text: &str, least: u64, greatest: u64) -> Option<u64>
    ensures value { result ≡ number_among (Numbers least greatest) text.now }
    ensures within { IfSome result (IsAmong (Numbers least greatest)) }
{
    let number = read_number(text)?;
    if number < least || greatest < number {
        return None;
    }
    Some(number)
}

/// The number that a text of 1 to 13 decimal digits stands for.
pub fn read_number(text: &str) -> Option<u64>
    ensures { result ≡ number_of text.now }
{
    if !is_number(text) {
        return None;
    }
    text.parse().ok()
}

/// Whether a text is 1 to 13 decimal digits; they may begin with zeros.
fn is_number(text: &str) -> bool
    ensures { result ≡ is_number text.now }
{
    !text.is_empty() && text.len() <= 13 && are_digits(text.as_bytes())
}

fn are_digits(octets: &[u8]) -> bool
    ensures { result ≡ all_ascii_digits octets.now }
{
    octets.iter().all(|octet| octet.is_ascii_digit())
}
