// The pieces of a text, and what stands before and behind an octet.
ghost use Rattle.std.specs.Prelude.{◌≡◌, ◌<◌, ◌∷◌, IfNone, IfSome, [], drop, length, nat_eq};
ghost use Rattle.std.specs.List.{after_first, before_first, prefix_len, slice_split};
ghost use Rattle.media_params.specs.Parts.{parts_in, without_end};
ghost use Rattle.spec_media.specs.Pieces.{is_white, name_of, trimmed, value_of};

/// The name of a piece: what stands before its first `=`, or all of it, without the white at its ends.
pub fn name_of(piece: &[u8]) -> &[u8]
    ensures { result.now ≡ name_of piece.now }
{
    trim(cut(piece, b'=').0)
}

/// The value of a piece: what stands behind its first `=`, or nothing, without the white at its ends.
pub fn value_of(piece: &[u8]) -> &[u8]
    ensures { result.now ≡ value_of piece.now }
{
    match cut(piece, b'=').1 {
        Some(value) => trim(value),
        None => &[],
    }
}

/// What stands before the first of an octet, or all where there is none, and what stands behind it.
pub fn cut(text: &[u8], octet: u8) -> (&[u8], Option<&[u8]>)
    ensures before { result.0.now ≡ before_first (λ o. nat_eq o octet) text.now }
    ensures behind { IfSome result.1 (λ rest. rest.now ≡ after_first (λ o. nat_eq o octet) text.now) }
    ensures none { IfNone result.1 (after_first (λ o. nat_eq o octet) text.now ≡ []) }
    ensures shorter { IfSome result.1 (λ rest. length rest.now < length text.now) }
    ensures parts { slice_split (λ o. nat_eq o octet) text.now
        ≡ result.0.now ∷ parts_in octet result.1 }
{
    for place in 0..text.len() {
        if text[place] == octet {
            return (&text[..place], Some(&text[place + 1..]));
        }
    }
    (text, None)
}

/// A text without the spaces and tabs at its ends.
pub fn trim(text: &[u8]) -> &[u8]
    ensures { result.now ≡ trimmed text.now }
{
    trim_end(trim_start(text))
}

fn trim_start(text: &[u8]) -> &[u8]
    ensures { result.now ≡ drop (prefix_len is_white text.now) text.now }
{
    for start in 0..text.len() {
        if !is_white(text[start]) {
            return &text[start..];
        }
    }
    &text[text.len()..]
}

fn trim_end(text: &[u8]) -> &[u8]
    ensures { result.now ≡ without_end text.now }
{
    for end in (0..text.len()).rev() {
        if !is_white(text[end]) {
            return &text[..end + 1];
        }
    }
    &text[..0]
}

/// Whether an octet is a space or a tab.
fn is_white(octet: u8) -> bool
    ensures { result ≡ is_white octet }
{
    octet == b' ' || octet == b'\t'
}
