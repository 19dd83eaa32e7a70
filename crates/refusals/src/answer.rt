// Why an offered payload type isn't taken, and the names of the reasons.
ghost use Rattle.std.specs.Prelude.{◌≡◌, ◌≤◌, length};
ghost use Rattle.refusals.specs.Names.{why_name};

/// Why an offered payload type isn't taken, in the order in which the reasons are tested.
#[derive(Clone, Copy, Debug, Default, PartialEq, Eq)]
pub enum Why {
    /// Its codec isn't the wanted one.
    #[default]
    Codec,
    /// Its number of channels isn't the wanted one.
    Channels,
    /// It has frame CRCs, and none are wanted.
    Crc,
    /// It has robust sorting, and none is wanted.
    Sorting,
    /// Its interleaving groups have more blocks than are wanted.
    Interleaving,
    /// Its mode set isn't within the wanted one.
    Modes,
}

impl Why {
    /// The name of a reason, of at most 12 octets.
    pub fn name(self) -> &'static str
        ensures name { result.now ≡ why_name self }
        ensures short { length result.now ≤ 12 }
    {
        match self {
            Why::Codec => "codec",
            Why::Channels => "channels",
            Why::Crc => "crc",
            Why::Sorting => "sorting",
            Why::Interleaving => "interleaving",
            Why::Modes => "modes",
        }
    }
}

/// An offered payload type that isn't taken.
#[derive(Clone, Copy, Debug, Default, PartialEq, Eq)]
pub struct RefusedType {
    /// The payload type, from 0 to 127.
    pub pt: u8,
    pub why: Why,
}
