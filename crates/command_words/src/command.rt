ghost use Rattle.std.specs.Prelude.{◌≡◌, ◌≤◌, IfSome, Some, option_map};
ghost use Rattle.amr_mode.specs.Members.{members};
ghost use Rattle.command_words.specs.Asked.{AreConvertible, AreListed, AreSendable, AreTried};
ghost use Rattle.command_words.specs.Asked.{AreWanted, AreWithin, HasValues, answer_words};
ghost use Rattle.command_words.specs.Asked.{asked_in, convert_words, list_words, record_words};
ghost use Rattle.command_words.specs.Asked.{stream_words, trial_words};
ghost use Rattle.command_words.specs.Built.{built, commands};
ghost use Rattle.command_words.specs.Options.{HasModes};
ghost use Rattle.command_words.specs.Rows.{given_in};
ghost use Rattle.media_params.specs.Fmtp.{AreShort, parameters};
ghost use Rattle.spec_jobs.specs.Jobs.{asked_by, asked_of};
ghost use Rattle.spec_jobs.specs.Plans.{group_of};
ghost use Rattle.spec_media.specs.Params.{AreParameters};
ghost use Rattle.spec_modes.specs.ModeSets.{IsModeSet};
ghost use Rattle.spec_words.specs.Given.{parameters_at};
ghost use Rattle.spec_words.specs.Table.{fmtp as fmtp_row};
ghost use Rattle.spec_words.specs.Words.{texts};

use crate::options::{Options, modes_left};
use crate::table::{
    ANSWER, BLOCKS, CHANNELS, CMR, CONVERT, COUNT, CRC, FMTP, INTERLEAVING, LENGTH, LIMIT, LIST,
    MAX_BLOCKS, OFFER_LIMIT, PORT, PT, REACH, RECORD, REPEAT, SEED, SEQ, SKIP, SORTING, SSRC,
    STREAM, STRICT, TO_FMTP, TO_PT, TRIAL, TS, WINDOW,
};
use amr_frame::Codec;
use amr_mode::ModeSet;
use media_params::Fmtp;

/// What the words ask of `record`, each in the range of its option. Whether the window has room for the blocks of a
/// payload isn't tested here.
#[derive(Clone, Copy, Debug, PartialEq, Eq)]
pub struct RecordWords {
    pub codec: Codec,
    /// The frames of one block, from 1 to 6.
    pub channels: u8,
    /// The media parameters of the payloads.
    pub fmtp: Fmtp,
    /// The one payload type that is read, from 0 to 127, or any.
    pub pt: Option<u8>,
    /// The most octets that are read, from 1 to 1,099,511,627,776.
    pub limit: u64,
    /// The window in blocks, from 1 to 4096.
    pub window: u16,
    /// How many blocks ahead a packet may lie, from 1 to 45,000.
    pub reach: u32,
    /// The most blocks in a payload, from 1 to 64.
    pub max_blocks: u8,
    /// Payloads that no sender by the standard sends are refused.
    pub strict: bool,
}

/// What the words ask of `stream`, each in the range of its option. Whether the codec has the mode
/// that is requested, and whether the format has room for the blocks of a packet or a group, isn't
/// tested here.
#[derive(Clone, Copy, Debug, PartialEq, Eq)]
pub struct StreamWords {
    pub codec: Codec,
    /// The frames of one block, from 1 to 6.
    pub channels: u8,
    /// The media parameters of the payloads.
    pub fmtp: Fmtp,
    /// The most octets that are read, from 1 to 1,099,511,627,776.
    pub limit: u64,
    /// The new blocks of a packet, from 1 to 64.
    pub blocks: u8,
    /// The packets of an interleaving group, from 1, which is no interleaving, to 16.
    pub length: u8,
    /// The blocks of a packet that were sent before, from 0 to 63.
    pub repeat: u8,
    /// Packets without a frame are left out.
    pub skip_empty: bool,
    /// The codec mode request of each packet, from 0 to 15, which is none.
    pub cmr: u8,
    /// The payload type of the packets, from 0 to 127.
    pub pt: u8,
    /// The source of the packets.
    pub ssrc: u32,
    /// The sequence number of the first packet.
    pub seq: u16,
    /// The timestamp of the first packet, in ticks of the codec's clock.
    pub ts: u32,
}

/// What the words ask of `convert`: of what is received, and of what is sent of it.
#[derive(Clone, Copy, Debug, PartialEq, Eq)]
pub struct ConvertWords {
    pub received: RecordWords,
    pub sent: StreamWords,
}

/// What the words ask of `answer`, each in the range of its option.
#[derive(Clone, Copy, Debug, PartialEq, Eq)]
pub struct AnswerWords {
    pub codec: Codec,
    /// The frames of one block, from 1 to 6.
    pub channels: u8,
    /// The modes that may be sent, of the codec.
    pub modes: ModeSet,
    /// Whether frames may have CRCs.
    pub crc: bool,
    /// Whether the octets of frames may stand in the robust order.
    pub sorting: bool,
    /// The most blocks in an interleaving group, 0 where payloads may not be interleaved.
    pub interleaving: u16,
    /// The port of the answer's media line, from 1 on.
    pub port: u16,
    /// The most octets of the offer that are read, from 1 to 65,536.
    pub limit: u64,
}

/// What the words ask of `list`, each in the range of its option.
#[derive(Clone, Copy, Debug, PartialEq, Eq)]
pub struct ListWords {
    pub codec: Codec,
    /// The frames of one block, from 1 to 6.
    pub channels: u8,
    /// The media parameters of the payloads.
    pub fmtp: Fmtp,
    /// The modes of the mode desk: those of the media parameters, all of the codec where they name
    /// none.
    pub modes: ModeSet,
    /// The mode that the desk starts at, one of these.
    pub start: u8,
    /// The one payload type whose payloads are read, from 0 to 127, or any.
    pub pt: Option<u8>,
    /// The most blocks in a payload, from 1 to 64.
    pub max_blocks: u8,
    /// Payloads that no sender by the standard sends are refused.
    pub strict: bool,
    /// The bits of the frames are listed too.
    pub show_bits: bool,
    /// The most octets that are read, from 1 to 1,099,511,627,776.
    pub limit: u64,
}

/// What the words ask of `trial`, each in the range of its option: how what is made is sent, and
/// how what is delivered of it is received.
#[derive(Clone, Copy, Debug, PartialEq, Eq)]
pub struct TrialWords {
    /// The blocks that are made, from 0 to 100,000.
    pub count: u32,
    /// The number that is drawn from.
    pub seed: u32,
    pub sent: StreamWords,
    pub received: RecordWords,
}

/// A command with the values of its options.
#[derive(Clone, Copy, Debug, PartialEq, Eq)]
pub enum Command {
    /// Writes a log of packets as a storage file.
    Record(RecordWords),
    /// Writes a storage file as a log of packets.
    Stream(StreamWords),
    /// Writes a log of packets as a log of packets in another format.
    Convert(ConvertWords),
    /// Answers an offer.
    Answer(AnswerWords),
    /// Lists the packets of a log.
    List(ListWords),
    /// Makes speech, loses some of it, and records the rest.
    Trial(TrialWords),
}

/// Reads the words of the command line, the first of which is the command. There is no job where there is no word, the
/// command is unknown, the codec is missing, the last option has no value, an option is unknown, not of the command or
/// stands twice, or a value isn't one of its option's.
pub fn read_command(words: &[String]) -> Option<Command>
    ensures job { option_map asked_in result ≡ asked_by commands built (texts words.now) }
    ensures within { IfSome result HasValues }
{
    let (command, rest) = words.split_first()?;
    let options = Options::of(command.as_str(), rest)?;
    asked(command.as_str(), &options)
}

/// What a command with these options asks.
fn asked(command: &str, options: &Options<'_>) -> Option<Command>
    requires modes { HasModes options.now.codec (given_in options.now) }
    ensures job { option_map asked_in result
        ≡ asked_of commands command.now (given_in options.now) options.now.codec }
    ensures within { IfSome result HasValues }
{
    let fmtp = options.fmtp(&FMTP)?;
    match command {
        RECORD => Some(Command::Record(record(options, fmtp))),
        STREAM => Some(Command::Stream(stream(options, fmtp))),
        CONVERT => {
            let to = options.fmtp(&TO_FMTP)?;
            Some(Command::Convert(convert(options, fmtp, to)))
        }
        ANSWER => Some(Command::Answer(answer(options, options.modes()))),
        LIST => Some(Command::List(list(options, fmtp))),
        TRIAL => {
            let count = options.number(&COUNT)?;
            Some(Command::Trial(trial(options, fmtp, count)))
        }
        _ => None,
    }
}

/// What these options ask of `record`, beside these media parameters.
fn record(options: &Options<'_>, fmtp: Fmtp) -> RecordWords
    ensures values { result ≡ record_words options.now.codec (given_in options.now) fmtp }
    ensures within { AreWithin result }
    ensures short { AreShort fmtp.modes }
{
    let window = options.number(&WINDOW).unwrap_or(group_of(&fmtp).max(256));
    RecordWords {
        codec: options.codec,
        channels: options.number_or_default(&CHANNELS) as u8,
        fmtp,
        pt: options.number(&PT).map(|pt| pt as u8),
        limit: options.number_or_default(&LIMIT),
        window: window as u16,
        reach: options.number_or_default(&REACH) as u32,
        max_blocks: options.number(&MAX_BLOCKS).unwrap_or(window.min(64)) as u8,
        strict: options.number_or_default(&STRICT) == 1,
    }
}

/// The most blocks of a group that are used, 0 where there are no groups.
fn group_of(fmtp: &Fmtp) -> u64
    ensures blocks { result ≡ group_of (parameters fmtp.now) }
    ensures most { result ≤ 1024 }
{
    match fmtp.interleaving {
        Some(blocks) => u64::from(blocks).min(1024),
        None => 0,
    }
}

/// What these options ask of `stream`, beside these media parameters.
fn stream(options: &Options<'_>, fmtp: Fmtp) -> StreamWords
    ensures values { result ≡ stream_words options.now.codec (given_in options.now) fmtp }
    ensures within { AreSendable result }
    ensures short { AreShort fmtp.modes }
{
    StreamWords {
        codec: options.codec,
        channels: options.number_or_default(&CHANNELS) as u8,
        fmtp,
        limit: options.number_or_default(&LIMIT),
        blocks: options.number_or_default(&BLOCKS) as u8,
        length: options.number_or_default(&LENGTH) as u8,
        repeat: options.number_or_default(&REPEAT) as u8,
        skip_empty: options.number_or_default(&SKIP) == 1,
        cmr: options.number_or_default(&CMR) as u8,
        pt: options.number(&PT).unwrap_or(96) as u8,
        ssrc: options.number_or_default(&SSRC) as u32,
        seq: options.number_or_default(&SEQ) as u16,
        ts: options.number_or_default(&TS) as u32,
    }
}

/// What these options ask of `convert`, beside the media parameters of what is received, and those
/// of what is sent.
fn convert(options: &Options<'_>, fmtp: Fmtp, to: Fmtp) -> ConvertWords
    ensures values { result ≡ convert_words options.now.codec (given_in options.now) fmtp to }
    ensures within { AreConvertible result }
    ensures short { AreShort fmtp.modes × AreShort to.modes }
{
    let sent = stream(options, to);
    ConvertWords {
        received: record(options, fmtp),
        sent: StreamWords {
            pt: options.number_or_default(&TO_PT) as u8,
            ..sent
        },
    }
}

/// What these options ask of `answer`, beside these modes.
fn answer(options: &Options<'_>, modes: ModeSet) -> AnswerWords
    requires { IsModeSet options.now.codec (members modes) }

    ensures values { result ≡ answer_words options.now.codec (given_in options.now) modes }
    ensures within { AreWanted result }
{
    AnswerWords {
        codec: options.codec,
        channels: options.number_or_default(&CHANNELS) as u8,
        modes,
        crc: options.number_or_default(&CRC) == 1,
        sorting: options.number_or_default(&SORTING) == 1,
        interleaving: options.number_or_default(&INTERLEAVING) as u16,
        port: options.number_or_default(&PORT) as u16,
        limit: options.number_or_default(&OFFER_LIMIT),
    }
}

/// What these options ask of `list`, beside the media parameters that they give.
fn list(options: &Options<'_>, fmtp: Fmtp) -> ListWords
    requires read { parameters_at options.now.codec fmtp_row (given_in options.now)
        ≡ Some (parameters fmtp) }
    requires valid { AreParameters options.now.codec (parameters fmtp) }
    requires modes { HasModes options.now.codec (given_in options.now) }

    ensures values { result ≡ list_words options.now.codec (given_in options.now) fmtp }
    ensures within { AreListed result }
    ensures short { AreShort fmtp.modes }
{
    let modes = modes_left(options.codec, &fmtp);
    ListWords {
        codec: options.codec,
        channels: options.number_or_default(&CHANNELS) as u8,
        fmtp,
        modes,
        start: options.start(&modes),
        pt: options.number(&PT).map(|pt| pt as u8),
        max_blocks: options.number(&MAX_BLOCKS).unwrap_or(64) as u8,
        strict: options.number_or_default(&STRICT) == 1,
        show_bits: options.shows_bits(),
        limit: options.number_or_default(&LIMIT),
    }
}

/// What these options ask of `trial` with so many blocks, beside these media parameters.
fn trial(options: &Options<'_>, fmtp: Fmtp, count: u64) -> TrialWords
    requires { count ≤ 100000 }

    ensures values { result
        ≡ trial_words options.now.codec (given_in options.now) fmtp count }
    ensures within { AreTried result }
    ensures short { AreShort fmtp.modes }
{
    let sent = stream(options, fmtp);
    let received = record(options, fmtp);
    TrialWords {
        count: count as u32,
        seed: options.number_or_default(&SEED) as u32,
        sent: StreamWords { pt: 96, ..sent },
        received: RecordWords {
            pt: None,
            ..received
        },
    }
}
