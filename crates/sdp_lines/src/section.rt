// The audio section of a session description (RFC 4566, 5.14).
ghost use Rattle.std.specs.Prelude.{◌≡◌, ◌<◌, ◌∷◌, ◌≤◌, IfNone, IfSome, [], codes, length, true};
ghost use Rattle.std.specs.Option.{option_map};
ghost use Rattle.sdp_lines.specs.Lines.{line_of};
ghost use Rattle.spec_offer.specs.Lines.{begins, lines};
ghost use Rattle.spec_offer.specs.Sections.{first_bad, section_of};

use crate::lines::{Line, Lines};

/// The lines of an audio section: its media line, and those behind it up to the next media line.
#[derive(Clone, Copy)]
pub struct Audio<'a> {
    pub media: Line<'a>,
    /// The lines of the text behind the media line.
    pub behind: Lines<'a>,
    ghost begins: { begins (codes "m=audio ") (line_of media) ≡ true },
}

impl<'a> Lines<'a> {
    ghost use Rattle.sdp_lines.specs.Lines.{left};
    ghost use Rattle.sdp_lines.specs.Section.{attributes_in};

    /// The next line before the next media line, and then those behind it are left.
    pub fn next_attribute(&mut self) -> Option<Line<'a>>
        ensures none { IfNone result (attributes_in (left self.old) ≡ []) }
        ensures some { IfSome result (λ line. attributes_in (left self.old)
            ≡ line_of line ∷ attributes_in (left self.new)) }
        ensures shorter { IfSome result (λ _. length self.new.rest.now < length self.old.rest.now) }
    {
        let line = self.next()?;
        match line.behind(b"m=") {
            Some(_) => None,
            None => Some(line),
        }
    }
}

impl<'a> Audio<'a> {
    ghost use Rattle.sdp_lines.specs.Section.{section_in};

    /// The audio section of a text of at most 65,536 octets: it begins with the first line that
    /// begins with `m=audio `.
    pub fn find(text: &'a [u8]) -> Option<Audio<'a>>
        requires short { length text.now ≤ 65536 }

        ensures { option_map section_in result ≡ section_of (lines text.now) }
    {
        let mut lines = Lines::of(text);
        while let Some(line) = lines.next() {
            if line.is_media() {
                return Some(Audio {
                    media: line,
                    behind: lines,
                });
            }
        }
        None
    }

    /// The number of the first line that isn't in its grammar, of those that begin with `m=audio `,
    /// `a=rtpmap:` and `a=fmtp:`.
    pub fn first_bad(&self) -> Option<u32>
        ensures { result ≡ first_bad (section_in self.now) }
    {
        if self.media.is_bad() {
            return Some(self.media.number);
        }
        let mut behind = self.behind;
        while let Some(line) = behind.next_attribute() {
            if line.is_bad() {
                return Some(line.number);
            }
        }
        None
    }
}
