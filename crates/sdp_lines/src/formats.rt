// What the media line of an audio section says (RFC 4566, 5.14).
ghost use Rattle.std.specs.Prelude.{◌≡◌, ◌<◌, ℕ, IfSome, [], false, length, nat_eq, option_map};
ghost use Rattle.std.specs.List.{count_by, list_any, slice_index_or, slice_split};
ghost use Rattle.spec_offer.specs.Attributes.{is_space, media_in};
ghost use Rattle.sdp_lines.specs.Formats.{AreTypes, with_words};

use crate::attributes::payload_type;
use crate::pieces::cut;
use arrayvec::ArrayVec;

/// A protocol word, and the payload types that are offered, each once and in order.
#[derive(Drop)]
pub struct Media<'a> {
    pub protocol: &'a [u8],
    pub formats: ArrayVec<u8, 128>,
    ghost within: { AreTypes formats.items },
}

/// Payload types, each where it stood first.
#[derive(Drop)]
struct Formats {
    items: ArrayVec<u8, 128>,
    /// Which payload types stand among them.
    seen: [bool; 128],
    ghost tied: { (pt : ℕ) → pt < 128
        → slice_index_or seen pt false ≡ list_any (λ m. nat_eq m pt) items.items },
    ghost counted: { length items.items ≡ count_by (λ b. b) seen },
    ghost within: { AreTypes items.items },
}

impl Formats {
    ghost use Rattle.sdp_lines.specs.Formats.{with_type, with_word};

    fn new() -> Formats
        ensures { result.items.items ≡ [] }
    {
        Formats {
            items: ArrayVec::new(),
            seen: [false; 128],
        }
    }

    /// Adds a payload type, unless it stands among them.
    fn add(&mut self, pt: u8)
        requires { pt < 128 }

        ensures { self.new.items.items ≡ with_type self.old.items.items pt }
    {
        if self.seen[pt as usize] {
            return;
        }
        self.items.push(pt);
        self.seen[pt as usize] = true;
    }

    /// Adds what a word says, if it is a payload type.
    fn add_word(&mut self, word: &[u8])
        ensures { self.new.items.items ≡ with_word self.old.items.items word.now }
    {
        if let Some(pt) = payload_type(word) {
            self.add(pt);
        }
    }
}

/// The payload types among words with single spaces between them, each where it stands first; other
/// words are passed over. `None` where a word is empty.
fn read_formats(text: &[u8]) -> Option<ArrayVec<u8, 128>>
    ensures types { option_map (λ types. types.items) result
        ≡ with_words [] (slice_split is_space text.now) }
    ensures within { IfSome result (λ types. AreTypes types.items) }
{
    let mut formats = Formats::new();
    let mut left = Some(text);
    while let Some(rest) = left {
        let (word, behind) = cut(rest, b' ');
        if word.is_empty() {
            return None;
        }
        formats.add_word(word);
        left = behind;
    }
    Some(formats.items)
}

impl<'a> Media<'a> {
    ghost use Rattle.sdp_lines.specs.Media.{media_said};

    /// What stands behind `m=audio `: a port, a protocol and one or more formats, with single
    /// spaces between them. A format that isn't a payload type is passed over, and so is one that
    /// stood before.
    pub fn read(text: &'a [u8]) -> Option<Media<'a>>
        ensures { option_map media_said result ≡ media_in text.now }
    {
        let (port, rest) = cut(text, b' ');
        let (protocol, rest) = cut(rest?, b' ');
        let formats = read_formats(rest?)?;
        if port.is_empty() || protocol.is_empty() {
            return None;
        }
        Some(Media { protocol, formats })
    }
}
