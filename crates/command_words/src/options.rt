ghost use Rattle.std.specs.Prelude.{◌≡◌, ◌<◌, [], IfSome, true};
ghost use Rattle.std.specs.Prelude.{bytes_eq, codes, length, option_map, unwrap_or};
ghost use Rattle.amr_mode.specs.Members.{members};
ghost use Rattle.media_params.specs.Fmtp.{bits_of, parameters};
ghost use Rattle.spec_media.specs.Params.{AreParameters};
ghost use Rattle.spec_media.specs.Reading.{modes_of};
ghost use Rattle.spec_modes.specs.ModeSets.{IsModeSet, greatest, has};
ghost use Rattle.spec_words.specs.Given.{are_allowed, codec_of, is_value, modes_or_all};
ghost use Rattle.spec_words.specs.Given.{number_at, number_or, number_or_default};
ghost use Rattle.spec_words.specs.Given.{parameters_at, text_at};
ghost use Rattle.spec_words.specs.Table.{OneMode, modes, show, start};
ghost use Rattle.spec_words.specs.Words.{texts, pairs};
ghost use Rattle.command_words.specs.Built.{built};
ghost use Rattle.command_words.specs.Options.{HasModes};
ghost use Rattle.command_words.specs.Rows.{HasDefault, IsWithin, given_in, row_of};

use crate::table::{CODEC, FMTP, MODES, Row, SHOW, START, is_allowed};
use crate::values::{BITS, read_codec, read_number};
use crate::words::{all_differ, value_of};
use amr_frame::Codec;
use amr_mode::ModeSet;
use media_params::{Fmtp, read_fmtp, read_modes};

/// The options behind a command, and the codec among them.
#[derive(Clone, Copy)]
pub struct Options<'a> {
    pub codec: Codec,
    pub words: &'a [String],
}

impl<'a> Options<'a> {
    /// The options that the words behind a command are. They are none where the codec is missing,
    /// the last option has no value, an option is unknown, not of the command or stands twice, or a
    /// value isn't one of its option's.
    pub fn of(command: &str, words: &'a [String]) -> Option<Options<'a>>
        ensures codec { option_map (λ options. options.codec) result
            ≡ codec_of built command.now (texts words.now) }
        ensures given { IfSome result (λ options. given_in options ≡ pairs (texts words.now)) }
        ensures modes { IfSome result (λ options. HasModes options.codec (given_in options)) }
    {
        let codec = read_codec(value_of(words, CODEC.name)?)?;
        let options = Options { codec, words };
        if words.len() % 2 == 0 && options.are_allowed(command) && all_differ(words) {
            Some(options)
        } else {
            None
        }
    }

    /// Whether a command may have each of the options with its value.
    fn are_allowed(&self, command: &str) -> bool
        ensures { result ≡ are_allowed built command.now self.now.codec (given_in self.now) }
    {
        let mut rest = self.words;
        while let [name, value, more @ ..] = rest {
            if !is_allowed(command, self, name.as_str(), value.as_str()) {
                return false;
            }
            rest = more;
        }
        true
    }

    /// The media parameters behind the option of a row, those of the empty text where it is absent.
    pub fn fmtp(&self, row: &Row) -> Option<Fmtp>
        ensures read { option_map parameters result
            ≡ parameters_at self.now.codec (row_of row.now) (given_in self.now) }
        ensures valid { IfSome result (λ f. AreParameters self.now.codec (parameters f)) }
    {
        let text = value_of(self.words, row.name).unwrap_or("");
        read_fmtp(self.codec, text.as_bytes()).ok()
    }

    /// The modes that are wanted, all of the codec where none are given.
    pub fn modes(&self) -> ModeSet
        requires { HasModes self.now.codec (given_in self.now) }
        ensures modes { members result ≡ modes_or_all self.now.codec
            (option_map (modes_of self.now.codec) (text_at modes (given_in self.now))) }
        ensures is_set { IsModeSet self.now.codec (members result) }
    {
        let Some(text) = value_of(self.words, MODES.name) else {
            return ModeSet::all(self.codec);
        };
        let Some(set) = read_modes(self.codec, text.as_bytes()) else {
            unreachable!()
        };
        set
    }

    /// Whether a text is the number of a mode that the media parameters leave.
    pub fn leaves(&self, text: &str) -> bool
        ensures { result ≡ is_value self.now.codec (given_in self.now) OneMode text.now }
    {
        let Some(fmtp) = self.fmtp(&FMTP) else {
            return false;
        };
        let Some(mode) = read_number(text) else {
            return false;
        };
        is_among(&modes_left(self.codec, &fmtp), mode)
    }

    /// The mode that a listing starts at: the one that is given, or the greatest of these.
    pub fn start(&self, modes: &ModeSet) -> u8
        requires some { 0 < length (members modes.now) }
        requires left { IfSome (number_at start (given_in self.now))
            (λ n. has (members modes.now) n ≡ true) }

        ensures value { result
            ≡ number_or (greatest (members modes.now)) start (given_in self.now) }
        ensures among { has (members modes.now) result ≡ true }
    {
        match self.number(&START) {
            Some(mode) => mode as u8,
            None => modes.greatest(),
        }
    }

    /// Whether a listing shows the bits of the frames.
    pub fn shows_bits(&self) -> bool
        ensures { result
            ≡ bytes_eq (unwrap_or (text_at show (given_in self.now)) []) (codes "bits") }
    {
        value_of(self.words, SHOW.name).unwrap_or("") == BITS
    }

    /// The number behind the option of a row, where the option is given.
    pub fn number(&self, row: &Row) -> Option<u64>
        ensures value { result ≡ number_at (row_of row.now) (given_in self.now) }
        ensures within { IfSome result (IsWithin (row_of row.now)) }
    {
        row.values.number(value_of(self.words, row.name)?)
    }

    /// The number behind the option of a row, or the default of the row where the option is absent.
    pub fn number_or_default(&self, row: &Row) -> u64
        requires { HasDefault (row_of row.now) }
        ensures value { result ≡ number_or_default (row_of row.now) (given_in self.now) }
        ensures within { IsWithin (row_of row.now) result }
    {
        let Some(default) = row.default else {
            unreachable!()
        };
        self.number(row).unwrap_or(default)
    }
}

/// The modes that media parameters leave: all of the codec where they name none.
pub fn modes_left(codec: Codec, fmtp: &Fmtp) -> ModeSet
    ensures bits { result ≡ record { bits = bits_of codec fmtp.now.modes } }
    ensures modes { members result ≡ modes_or_all codec (parameters fmtp.now).modes }
{
    match fmtp.modes {
        Some(set) => set,
        None => ModeSet::all(codec),
    }
}

/// Whether a number is one of these modes.
fn is_among(modes: &ModeSet, mode: u64) -> bool
    ensures { result ≡ has (members modes.now) mode }
{
    mode < 16 && modes.has(mode as u8)
}
