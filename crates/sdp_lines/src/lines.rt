// The lines of a text.
ghost use Rattle.std.specs.Prelude.{◌≡◌, ◌+◌, ◌<◌, ◌≤◌, IfNone, IfSome, [], ◌∷◌, is_some, length};
ghost use Rattle.spec_offer.specs.Lines.{begins, behind, lines, without_return};

use crate::pieces::cut;

/// A line of a session description, without its end.
#[derive(Clone, Copy)]
pub struct Line<'a> {
    /// Its number in the whole text, counted from 1.
    pub number: u32,
    pub text: &'a [u8],
}

impl<'a> Line<'a> {
    ghost use Rattle.sdp_lines.specs.Lines.{line_of};

    /// What stands behind `front`, where the line begins with it.
    pub fn behind(&self, front: &[u8]) -> Option<&'a [u8]>
        ensures begins { is_some result ≡ begins front.now (line_of self.now) }
        ensures behind { IfSome result (λ rest. rest.now ≡ behind front.now (line_of self.now)) }
    {
        self.text.strip_prefix(front)
    }
}

/// The lines of a text that are left, in order. A line ends with LF or CR LF, the last one also
/// with the text (RFC 4566, 5).
#[derive(Clone, Copy)]
pub struct Lines<'a> {
    /// The number of the next line.
    number: u32,
    rest: &'a [u8],
    ghost counted: { number + length rest.now ≤ 65537 },
}

impl<'a> Lines<'a> {
    ghost use Rattle.sdp_lines.specs.Lines.{left, line_of};

    /// The lines of a text of at most 65,536 octets.
    pub fn of(text: &'a [u8]) -> Lines<'a>
        requires short { length text.now ≤ 65536 }

        ensures { left result ≡ lines text.now }
    {
        Lines {
            number: 1,
            rest: text,
        }
    }

    /// The next line, and then those behind it are left.
    pub fn next(&mut self) -> Option<Line<'a>>
        ensures none { IfNone result (left self.old ≡ []) }
        ensures some { IfSome result (λ line. left self.old ≡ line_of line ∷ left self.new) }
        ensures shorter { IfSome result (λ _. length self.new.rest.now < length self.old.rest.now) }
    {
        if self.rest.is_empty() {
            return None;
        }
        let (text, rest) = cut(self.rest, b'\n');
        let line = Line {
            number: self.number,
            text: without_return(text),
        };
        *self = Lines {
            number: self.number + 1,
            rest: rest.unwrap_or(&[]),
        };
        Some(line)
    }
}

/// A line without the CR at its end, where it has one.
fn without_return(line: &[u8]) -> &[u8]
    ensures { result.now ≡ without_return line.now }
{
    match line {
        [front @ .., b'\r'] => front,
        _ => line,
    }
}
