ghost use Rattle.std.specs.Prelude.{◌≡◌};
ghost use Rattle.std.specs.List.{list_any};
ghost use Rattle.command_words.specs.Options.{is_allowed};
ghost use Rattle.command_words.specs.Rows.{given_in, row_of};
ghost use Rattle.spec_words.specs.Given.{allows, is_of};

use crate::options::Options;
use crate::values::Values;

/// A row of the table: an option, and what it may be.
#[derive(Clone, Copy)]
pub struct Row {
    pub name: &'static str,
    pub values: Values,
    /// The number where the option is absent, if that is the same whatever else is given.
    pub default: Option<u64>,
    /// The names of the commands that take the option.
    pub commands: &'static [&'static str],
}

/// The command that writes a log of packets as a storage file.
pub const RECORD: &str = "record";

/// The command that writes a storage file as a log of packets.
pub const STREAM: &str = "stream";

/// The command that writes a log of packets as a log of packets in another format.
pub const CONVERT: &str = "convert";

/// The command that answers an offer.
pub const ANSWER: &str = "answer";

/// The command that lists the packets of a log.
pub const LIST: &str = "list";

/// The command that makes speech, loses some of it, and records the rest.
pub const TRIAL: &str = "trial";

/// The codec, which has to be given.
pub const CODEC: Row = Row {
    name: "--codec",
    values: Values::Codecs,
    default: None,
    commands: &[ANSWER, RECORD, STREAM, CONVERT, LIST, TRIAL],
};

/// The frames of one block.
pub const CHANNELS: Row = Row {
    name: "--channels",
    values: Values::Numbers {
        least: 1,
        greatest: 6,
    },
    default: Some(1),
    ..CODEC
};

/// The media parameters of the payloads that are read or sent, as a text.
pub const FMTP: Row = Row {
    name: "--fmtp",
    values: Values::Parameters,
    default: None,
    commands: &[RECORD, STREAM, CONVERT, LIST, TRIAL],
};

/// The media parameters of the payloads that are sent of others, as a text.
pub const TO_FMTP: Row = Row {
    name: "--to-fmtp",
    commands: &[CONVERT],
    ..FMTP
};

/// The one payload type that is read, or that is sent. Its default depends on the command.
pub const PT: Row = Row {
    name: "--pt",
    values: Values::Numbers {
        least: 0,
        greatest: 127,
    },
    default: None,
    commands: &[RECORD, CONVERT, LIST, STREAM],
};

/// The payload type of the packets that are sent of others.
pub const TO_PT: Row = Row {
    name: "--to-pt",
    default: Some(96),
    commands: &[CONVERT],
    ..PT
};

/// The most octets of a log or a file that are read.
pub const LIMIT: Row = Row {
    name: "--limit",
    values: Values::Numbers {
        least: 1,
        greatest: 1_099_511_627_776,
    },
    default: Some(1_099_511_627_776),
    commands: &[RECORD, STREAM, CONVERT, LIST],
};

/// The window, in blocks. Its default depends on the groups.
pub const WINDOW: Row = Row {
    name: "--window",
    values: Values::Numbers {
        least: 1,
        greatest: 4096,
    },
    default: None,
    commands: &[RECORD, CONVERT, TRIAL],
};

/// How many blocks ahead a packet may lie.
pub const REACH: Row = Row {
    name: "--reach",
    values: Values::Numbers {
        least: 1,
        greatest: 45_000,
    },
    default: Some(45_000),
    ..WINDOW
};

/// The most blocks in a payload. Its default depends on the command, and on the window.
pub const MAX_BLOCKS: Row = Row {
    name: "--max-blocks",
    values: Values::Numbers {
        least: 1,
        greatest: 64,
    },
    default: None,
    commands: &[RECORD, CONVERT, LIST],
};

/// Whether payloads that no sender by the standard sends are refused: 1 where they are.
pub const STRICT: Row = Row {
    name: "--strict",
    values: Values::Numbers {
        least: 0,
        greatest: 1,
    },
    default: Some(0),
    ..MAX_BLOCKS
};

/// What is listed of a payload: its frames, or their bits too. The frames where it is absent.
pub const SHOW: Row = Row {
    name: "--show",
    values: Values::Shows,
    default: None,
    commands: &[LIST],
};

/// The mode that the mode desk of a listing starts at. The greatest of those that the media
/// parameters leave where it is absent.
pub const START: Row = Row {
    name: "--start",
    values: Values::OneMode,
    ..SHOW
};

/// The source of the packets.
pub const SSRC: Row = Row {
    name: "--ssrc",
    values: Values::Numbers {
        least: 0,
        greatest: 4_294_967_295,
    },
    default: Some(0),
    commands: &[STREAM, CONVERT],
};

/// The timestamp of the first packet.
pub const TS: Row = Row {
    name: "--ts",
    ..SSRC
};

/// The sequence number of the first packet.
pub const SEQ: Row = Row {
    name: "--seq",
    values: Values::Numbers {
        least: 0,
        greatest: 65_535,
    },
    ..SSRC
};

/// The codec mode request of each packet.
pub const CMR: Row = Row {
    name: "--cmr",
    values: Values::Numbers {
        least: 0,
        greatest: 15,
    },
    default: Some(15),
    ..SSRC
};

/// The new blocks of a packet.
pub const BLOCKS: Row = Row {
    name: "--blocks",
    values: Values::Numbers {
        least: 1,
        greatest: 64,
    },
    default: Some(1),
    commands: &[STREAM, CONVERT, TRIAL],
};

/// The packets of an interleaving group.
pub const LENGTH: Row = Row {
    name: "--length",
    values: Values::Numbers {
        least: 1,
        greatest: 16,
    },
    ..BLOCKS
};

/// The blocks of a packet that were sent before.
pub const REPEAT: Row = Row {
    name: "--repeat",
    values: Values::Numbers {
        least: 0,
        greatest: 63,
    },
    default: Some(0),
    ..BLOCKS
};

/// Whether packets without a frame are left out: 1 where they are.
pub const SKIP: Row = Row {
    name: "--skip",
    values: Values::Numbers {
        least: 0,
        greatest: 1,
    },
    ..REPEAT
};

/// The most octets of an offer that are read.
pub const OFFER_LIMIT: Row = Row {
    name: "--limit",
    values: Values::Numbers {
        least: 1,
        greatest: 65_536,
    },
    default: Some(65_536),
    commands: &[ANSWER],
};

/// The modes that are wanted, as a list. All of the codec are where it is absent.
pub const MODES: Row = Row {
    name: "--modes",
    values: Values::ModeLists,
    default: None,
    ..OFFER_LIMIT
};

/// Whether frames may have CRCs: 1 where they may.
pub const CRC: Row = Row {
    name: "--crc",
    values: Values::Numbers {
        least: 0,
        greatest: 1,
    },
    default: Some(1),
    ..OFFER_LIMIT
};

/// Whether the octets of frames may stand in the robust order: 1 where they may.
pub const SORTING: Row = Row {
    name: "--sorting",
    ..CRC
};

/// The most blocks in an interleaving group, 0 where payloads may not be interleaved.
pub const INTERLEAVING: Row = Row {
    name: "--interleaving",
    values: Values::Numbers {
        least: 0,
        greatest: 65_535,
    },
    default: Some(65_535),
    ..OFFER_LIMIT
};

/// The port of the answer's media line.
pub const PORT: Row = Row {
    name: "--port",
    values: Values::Numbers {
        least: 1,
        greatest: 65_535,
    },
    default: Some(9),
    ..OFFER_LIMIT
};

/// The blocks that a trial makes, which have to be given.
pub const COUNT: Row = Row {
    name: "--count",
    values: Values::Numbers {
        least: 0,
        greatest: 100_000,
    },
    default: None,
    commands: &[TRIAL],
};

/// The number that a trial draws from.
pub const SEED: Row = Row {
    name: "--seed",
    values: Values::Numbers {
        least: 0,
        greatest: 4_294_967_295,
    },
    default: Some(0),
    ..COUNT
};

/// All rows.
const TABLE: [Row; 29] = [
    CODEC,
    CHANNELS,
    FMTP,
    TO_FMTP,
    PT,
    TO_PT,
    LIMIT,
    WINDOW,
    REACH,
    MAX_BLOCKS,
    STRICT,
    BLOCKS,
    LENGTH,
    REPEAT,
    SKIP,
    CMR,
    SSRC,
    SEQ,
    TS,
    SHOW,
    START,
    OFFER_LIMIT,
    MODES,
    CRC,
    SORTING,
    INTERLEAVING,
    PORT,
    COUNT,
    SEED,
];

impl Row {
    /// Whether a command may have this option with this value by this row.
    fn allows(&self, command: &str, options: &Options<'_>, name: &str, value: &str) -> bool
        ensures { result ≡ allows command.now options.now.codec (given_in options.now)
            (record { option = name.now; value = value.now }) (row_of self.now) }
    {
        self.name == name && self.is_of(command) && self.values.has(options, value)
    }

    /// Whether a command takes the option of this row.
    fn is_of(&self, command: &str) -> bool
        ensures { result ≡ is_of command.now (row_of self.now) }
    {
        self.commands.contains(&command)
    }
}

/// Whether a command may have this option with this value beside the others: a row of the table says so.
pub fn is_allowed(command: &str, options: &Options<'_>, name: &str, value: &str) -> bool
    ensures { result ≡ is_allowed command.now options.now.codec (given_in options.now)
        (record { option = name.now; value = value.now }) }
{
    one_allows(&TABLE, command, options, name, value)
}

/// Whether one of these rows says so.
fn one_allows(rows: &[Row], command: &str, options: &Options<'_>, name: &str, value: &str) -> bool
    ensures { result ≡ list_any (λ r. allows command.now options.now.codec (given_in options.now)
        (record { option = name.now; value = value.now }) (row_of r)) rows.now }
{
    rows.iter()
        .any(|row| row.allows(command, options, name, value))
}
