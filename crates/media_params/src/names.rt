// The names of the parameters.
ghost use Rattle.std.specs.Prelude.{◌≡◌, find, map, option_map};
ghost use Rattle.media_params.specs.Named.{is_called, row_called};
ghost use Rattle.spec_media.specs.Params.{row_for};

use refusals::Param;

/// The parameters of the table, in the order in which they are printed.
const TABLE: [Param; 9] = [
    Param::OctetAlign,
    Param::ModeSet,
    Param::Period,
    Param::Capability,
    Param::Neighbor,
    Param::Crc,
    Param::Sorting,
    Param::Interleaving,
    Param::MaxRed,
];

/// The parameter of this name, in capital or small letters.
pub fn param_called(name: &[u8]) -> Option<Param>
    ensures { option_map row_for result ≡ row_called name.now }
{
    first_called(&TABLE, name)
}

/// The first of these parameters that has this name.
fn first_called(params: &[Param], name: &[u8]) -> Option<Param>
    ensures { option_map row_for result ≡ find (is_called name.now) (map row_for params.now) }
{
    let mut rest = params;
    while let [param, more @ ..] = rest {
        if param.name().as_bytes().eq_ignore_ascii_case(name) {
            return Some(*param);
        }
        rest = more;
    }
    None
}
