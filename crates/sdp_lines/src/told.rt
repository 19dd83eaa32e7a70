// What an audio section says of its payload types.
ghost use Rattle.std.specs.Prelude.{◌≡◌, ◌<◌, ◌≤◌, ℕ, [], length, option_map};
ghost use Rattle.std.specs.Option.{option_map_or, option_or};
ghost use Rattle.sdp_lines.specs.Attributes.{format_said, map_said};
ghost use Rattle.sdp_lines.specs.Lines.{line_of};
ghost use Rattle.sdp_lines.specs.Section.{format_kind, map_kind, said, section_in};
ghost use Rattle.sdp_lines.specs.Told.{AnswersSection, Hears, Says, format_at, format_for};
ghost use Rattle.sdp_lines.specs.Told.{map_at, map_for, passing};

use crate::attributes::{Format, Map};
use crate::formats::Media;
use crate::lines::Line;
use crate::section::Audio;
use refusals::OfferRefusal;

/// What the lines of an audio section say. Of several lines of a kind the first counts, of several
/// maps and texts of parameters the first of a payload type.
#[derive(Drop)]
pub struct Section<'a> {
    pub media: Media<'a>,
    pub attributes: Attributes<'a>,
}

/// What the attributes of an audio section say, by payload type.
#[derive(Clone, Copy)]
pub struct Attributes<'a> {
    maps: [Option<Map<'a>>; 128],
    formats: [Option<Format<'a>>; 128],
    /// In milliseconds.
    pub ptime: Option<u32>,
    /// In milliseconds.
    pub maxptime: Option<u32>,
}

/// Reads the audio section of a session description of at most 65,536 octets.
///
/// F5 `NoAudio` where it has none, and else F6 `BadMap` with the number of the first line of the
/// section that isn't in its grammar.
pub fn read_section(text: &[u8]) -> Result<Section<'_>, OfferRefusal>
    requires short { length text.now ≤ 65536 }

    ensures { AnswersSection text.now result }
{
    let Some(audio) = Audio::find(text) else {
        return Err(OfferRefusal::NoAudio);
    };
    if let Some(line) = audio.first_bad() {
        return Err(OfferRefusal::BadMap { line });
    }
    let Some(media) = audio.media.media() else {
        unreachable!()
    };
    Ok(Section {
        media,
        attributes: Attributes::of(&audio),
    })
}

impl<'a> Attributes<'a> {
    /// The first map of a payload type.
    pub fn map(&self, pt: u8) -> Option<Map<'a>>
        requires { pt < 128 }

        ensures { option_map map_said result ≡ map_at self.now.maps pt }
    {
        self.maps[pt as usize]
    }

    /// The text of the media parameters of a payload type, which is empty where the section has
    /// none.
    pub fn parameters(&self, pt: u8) -> &'a [u8]
        requires { pt < 128 }

        ensures { result.now ≡ option_map_or (λ f. f.text) (format_at self.now.formats pt) [] }
    {
        match self.formats[pt as usize] {
            Some(format) => format.text,
            None => &[],
        }
    }

    /// What the lines of a section say.
    fn of(audio: &Audio<'a>) -> Attributes<'a>
        ensures { Says result (section_in audio.now) }
    {
        let mut told = Attributes {
            maps: [None; 128],
            formats: [None; 128],
            ptime: None,
            maxptime: None,
        };
        told.hear(&audio.media);
        let mut behind = audio.behind;
        while let Some(line) = behind.next_attribute() {
            told.hear(&line);
        }
        told
    }

    /// What a line says more.
    fn hear(&mut self, line: &Line<'a>)
        ensures { Hears self.old self.new (line_of line.now) }
    {
        keep_map(&mut self.maps, line);
        keep_format(&mut self.formats, line);
        self.ptime = self.ptime.or(line.ptime());
        self.maxptime = self.maxptime.or(line.maxptime());
    }
}

/// Keeps the map that a line says, unless there is one of its payload type.
fn keep_map<'a>(maps: &mut [Option<Map<'a>>; 128], line: &Line<'a>)
    ensures { (pt : ℕ) → pt < 128 → map_at maps.new pt ≡ option_or (map_at maps.old pt)
        (passing (map_for pt) (said map_kind (line_of line.now))) }
{
    if let Some(map) = line.map() {
        let place = map.pt as usize;
        maps[place] = maps[place].or(Some(map));
    }
}

/// Keeps the text of parameters that a line says, unless there is one of its payload type.
fn keep_format<'a>(formats: &mut [Option<Format<'a>>; 128], line: &Line<'a>)
    ensures { (pt : ℕ) → pt < 128 → format_at formats.new pt ≡ option_or (format_at formats.old pt)
        (passing (format_for pt) (said format_kind (line_of line.now))) }
{
    if let Some(format) = line.format() {
        let place = format.pt as usize;
        formats[place] = formats[place].or(Some(format));
    }
}
