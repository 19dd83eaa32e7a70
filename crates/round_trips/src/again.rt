ghost use Rattle.std.specs.Prelude.{◌≡◌, length};
ghost use Rattle.amr_bits.specs.Bits.{bits_of};
ghost use Rattle.amr_toc.specs.Cleared.{cleared};
ghost use Rattle.amr_toc.specs.Viewed.{format_of, octets_of, viewed};
ghost use Rattle.round_trips.specs.Undamaged.{IsUndamaged};
ghost use Rattle.spec_payload.specs.Grammar.{layout, text};
ghost use Rattle.spec_payload.specs.Reading.{checks_at};
ghost use Rattle.spec_payload.specs.Values.{IsValue};

use amr_toc::{PayloadView, are_octets};

/// What a view shows can be written in its format, and where none of its frames is damaged this gives as many
/// octets as were read, the same but for the free bits, which are 0 (RFC 4867, 4.3 and 4.4). Says so, and
/// does nothing.
pub fn writes_what_was_read(view: &PayloadView<'_>)
    ensures carried { IsValue (format_of view.now) (viewed view.now) }
    ensures size { IsUndamaged view.now
        → length (text (format_of view.now) (viewed view.now)) ≡ length (octets_of view.now) }
    ensures bits { IsUndamaged view.now → bits_of (text (format_of view.now) (viewed view.now))
        ≡ cleared (layout (format_of view.now) (viewed view.now)
        (checks_at (format_of view.now) (octets_of view.now))) (bits_of (octets_of view.now)) }
{
    are_octets(view.octets());
}
