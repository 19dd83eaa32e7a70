// The media parameters and their names.
ghost use Rattle.std.specs.Prelude.{◌≡◌, ◌≤◌, length};
ghost use Rattle.refusals.specs.Names.{param_name};

/// The media parameters that are read (RFC 4867, 8.1 and 8.2), in the order in which they are
/// printed.
#[derive(Clone, Copy, Debug, PartialEq, Eq)]
pub enum Param {
    /// `octet-align`
    OctetAlign,
    /// `mode-set`
    ModeSet,
    /// `mode-change-period`
    Period,
    /// `mode-change-capability`
    Capability,
    /// `mode-change-neighbor`
    Neighbor,
    /// `crc`
    Crc,
    /// `robust-sorting`
    Sorting,
    /// `interleaving`
    Interleaving,
    /// `max-red`
    MaxRed,
}

impl Param {
    /// The name of a parameter, of at most 22 octets.
    pub fn name(self) -> &'static str
        ensures name { result.now ≡ param_name self }
        ensures short { length result.now ≤ 22 }
    {
        match self {
            Param::OctetAlign => "octet-align",
            Param::ModeSet => "mode-set",
            Param::Period => "mode-change-period",
            Param::Capability => "mode-change-capability",
            Param::Neighbor => "mode-change-neighbor",
            Param::Crc => "crc",
            Param::Sorting => "robust-sorting",
            Param::Interleaving => "interleaving",
            Param::MaxRed => "max-red",
        }
    }
}
