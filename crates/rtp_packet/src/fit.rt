// That the fields of a header fit their places: what the types say of them. Each call says so, and
// does nothing.
ghost use Rattle.std.specs.Prelude.{◌≡◌, ◌≤◌, ◌<◌, ◌^◌, ℕ, length, option_map, IfSome};
ghost use Rattle.std.specs.List.{AllByRecursion};
ghost use Rattle.amr_bits.specs.Bits.{AreOctets};
ghost use Rattle.rtp_packet.specs.Fields.{AreFields, FitsExtension};
ghost use Rattle.rtp_packet.specs.View.{extension_of};
ghost use Rattle.rtp_packet.specs.Written.{packet_of, AreWritable, IsWords};

use crate::fields::RtpFields;

/// Each field fits its place.
pub(crate) fn fit_places(fields: &RtpFields<'_>, payload: &[u8])
    requires fields { AreWritable fields.now }
    ensures { AreFields (packet_of fields.now payload.now) }
{
    numbers_fit(
        fields.sequence,
        fields.timestamp,
        fields.ssrc,
        fields.padding,
    );
    are_numbers(fields.sources);
    extension_fits(fields.extension);
    are_octets(payload);
}

/// The numbers of the fixed header and the padding.
fn numbers_fit(sequence: u16, timestamp: u32, ssrc: u32, padding: u8)
    ensures { (sequence < 2 ^ 16) × (timestamp < 2 ^ 32) × (ssrc < 2 ^ 32) × (padding < 256) }
{}

/// Contributing sources.
fn are_numbers(sources: &[u32])
    ensures { AllByRecursion (λ s. s < 2 ^ 32) sources.now }
{}

/// Octets.
pub(crate) fn are_octets(octets: &[u8])
    ensures { AreOctets octets.now }
{}

/// An extension.
fn extension_fits(extension: Option<(u16, &[u8])>)
    requires { IfSome extension (λ e. IsWords e.1.now) }
    ensures { IfSome (option_map (λ e. extension_of e.0 e.1.now) extension.entry) FitsExtension }
{
    match extension {
        None => {}
        Some((_, words)) => are_octets(words),
    }
}
