// The kinds of line that are read, each by what it begins with and the grammar of what stands
// behind that.
ghost use Rattle.std.specs.Prelude.{◌≡◌, ◌≤◌, IfSome, option_map};
ghost use Rattle.spec_offer.specs.Lines.{begins};
ghost use Rattle.spec_offer.specs.Sections.{breaks};
ghost use Rattle.sdp_lines.specs.Attributes.{format_said, map_said};
ghost use Rattle.sdp_lines.specs.Lines.{line_of};
ghost use Rattle.sdp_lines.specs.Media.{media_said};
ghost use Rattle.sdp_lines.specs.Section.{format_kind, is_bad, map_kind, maxptime_kind};
ghost use Rattle.sdp_lines.specs.Section.{media_kind, ptime_kind, said};

use crate::attributes::{Format, Map, read_format, read_map};
use crate::formats::Media;
use crate::lines::Line;
use crate::pieces::number;

impl<'a> Line<'a> {
    /// Whether the line begins with `m=audio `.
    pub fn is_media(&self) -> bool
        ensures { result ≡ begins media_kind.front (line_of self.now) }
    {
        self.behind(b"m=audio ").is_some()
    }

    /// What a line says that begins with `m=audio ` and is in its grammar.
    pub fn media(&self) -> Option<Media<'a>>
        ensures { option_map media_said result ≡ said media_kind (line_of self.now) }
    {
        Media::read(self.behind(b"m=audio ")?)
    }

    /// What a line says that begins with `a=rtpmap:` and is in its grammar.
    pub fn map(&self) -> Option<Map<'a>>
        ensures said { option_map map_said result ≡ said map_kind (line_of self.now) }
        ensures within { IfSome result (λ map. map.pt ≤ 127) }
    {
        read_map(self.behind(b"a=rtpmap:")?)
    }

    /// What a line says that begins with `a=fmtp:` and is in its grammar.
    pub fn format(&self) -> Option<Format<'a>>
        ensures said { option_map format_said result ≡ said format_kind (line_of self.now) }
        ensures within { IfSome result (λ format. format.pt ≤ 127) }
    {
        read_format(self.behind(b"a=fmtp:")?)
    }

    /// The time in milliseconds that a line says which is `a=ptime:` and 1 to 5 digits.
    pub fn ptime(&self) -> Option<u32>
        ensures { result ≡ said ptime_kind (line_of self.now) }
    {
        number(self.behind(b"a=ptime:")?, 5)
    }

    /// The time in milliseconds that a line says which is `a=maxptime:` and 1 to 5 digits.
    pub fn maxptime(&self) -> Option<u32>
        ensures { result ≡ said maxptime_kind (line_of self.now) }
    {
        number(self.behind(b"a=maxptime:")?, 5)
    }

    /// Whether a line begins with `m=audio `, `a=rtpmap:` or `a=fmtp:` and what stands behind isn't
    /// in the grammar.
    pub fn is_bad(&self) -> bool
        ensures { result ≡ is_bad (line_of self.now) }
    {
        self.breaks_media() || self.breaks_map() || self.breaks_format()
    }

    fn breaks_media(&self) -> bool
        ensures { result ≡ breaks media_kind (line_of self.now) }
    {
        self.is_media() && self.media().is_none()
    }

    fn breaks_map(&self) -> bool
        ensures { result ≡ breaks map_kind (line_of self.now) }
    {
        self.behind(b"a=rtpmap:").is_some() && self.map().is_none()
    }

    fn breaks_format(&self) -> bool
        ensures { result ≡ breaks format_kind (line_of self.now) }
    {
        self.behind(b"a=fmtp:").is_some() && self.format().is_none()
    }
}
