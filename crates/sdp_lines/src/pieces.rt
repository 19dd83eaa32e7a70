// Pieces of a text: what stands around an octet, and numbers.
ghost use Rattle.std.specs.Prelude.{◌≡◌, ◌-◌, ◌^◌, ◌<◌, ◌≤◌, IfNone, IfSome, [], ◌∷◌, is_some};
ghost use Rattle.std.specs.Prelude.{length, nat_eq, take, true};
ghost use Rattle.std.specs.List.{after_first, before_first, list_any, slice_split, suffix_len};
ghost use Rattle.std.specs.Option.{option_map_or};
ghost use Rattle.std.specs.Str.{all_ascii_digits};
ghost use Rattle.std.specs.Str.Parse.{digits_value};
ghost use Rattle.spec_media.specs.Pieces.{number_in};
ghost use Rattle.spec_offer.specs.Attributes.{is_space};

use memchr::memchr;

/// What stands before the first octet `at`, and what stands behind it. Where there is none, that is
/// the whole text and nothing.
pub fn cut(text: &[u8], at: u8) -> (&[u8], Option<&[u8]>)
    ensures before { result.0.now ≡ before_first (λ o. nat_eq o at) text.now }
    ensures after { IfSome result.1 (λ rest. rest.now ≡ after_first (λ o. nat_eq o at) text.now) }
    ensures nothing { IfNone result.1 (after_first (λ o. nat_eq o at) text.now ≡ []) }
    ensures whole { IfNone result.1 (result.0.now ≡ text.now) }

    ensures found { is_some result.1 ≡ list_any (λ o. nat_eq o at) text.now }
    ensures shorter { IfSome result.1 (λ rest. length rest.now < length text.now) }
    ensures split { slice_split (λ o. nat_eq o at) text.now ≡ result.0.now
        ∷ option_map_or (λ rest. slice_split (λ o. nat_eq o at) rest.now) result.1 [] }
{
    match memchr(at, text) {
        Some(place) => (&text[..place], Some(&text[place + 1..])),
        None => (text, None),
    }
}

/// A text without the spaces at its end.
pub fn trim_end(text: &[u8]) -> &[u8]
    ensures { result.now ≡ take (length text.now - suffix_len is_space text.now) text.now }
{
    let mut end = text.len();
    while end > 0 && text[end - 1] == b' ' {
        end -= 1;
    }
    &text[..end]
}

/// The number that 1 to `most` decimal digits stand for; leading zeros are allowed. `None` where a
/// text is anything else.
pub fn number(text: &[u8], most: usize) -> Option<u32>
    requires few { most ≤ 9 }

    ensures value { result ≡ number_in most text.now }
    ensures fits { IfSome result (λ n. n < 10 ^ most) }
{
    if text.is_empty() || text.len() > most || !are_digits(text) {
        return None;
    }
    Some(value_of(text))
}

/// Whether each octet is a decimal digit.
fn are_digits(text: &[u8]) -> bool
    ensures { result ≡ all_ascii_digits text.now }
{
    text.iter().all(|octet| octet.is_ascii_digit())
}

/// The number that decimal digits stand for.
fn value_of(digits: &[u8]) -> u32
    requires digits { all_ascii_digits digits.now ≡ true }
    requires few { length digits.now ≤ 9 }

    ensures { result ≡ digits_value 10 digits.now }
{
    let mut value = 0;
    for digit in digits {
        value = value * 10 + u32::from(digit - b'0');
    }
    value
}
