// What plain packets mean, as the contract of a function that does nothing.
ghost use Rattle.std.specs.Prelude.{ℕ, List};
ghost use Rattle.amr_frame.specs.declared.profile.Profile.{Profile};
ghost use Rattle.plain_packet.specs.Plain.{CarriesPlain, IsHeard, IsPlain};

/// A plain packet is an RTP packet, its payload is one of each format that carries such, and a
/// session hears it where its payload type is asked for.
pub fn plain_packets_are_heard()
    ensures { (p : Profile) (octets : List ℕ) → CarriesPlain p → IsPlain p.codec octets
        → IsHeard p octets }
{}
