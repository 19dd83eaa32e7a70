ghost use Rattle.spec_packet.specs.Rtp.{IsPacket};
ghost use Rattle.spec_packet.specs.RtpReading.{packet_at, rtp_refusal};
ghost use Rattle.spec_packet.specs.declared.refusal.RtpRefusal.TheVariants as why;
ghost use Rattle.spec_session.specs.Session.{FarAhead, OffGrid, OtherSource};
ghost use Rattle.std.specs.Prelude.{◌++◌, ◌∷◌, ◌≡◌, None, Some, [], pos};
ghost use Rattle.worked_rows.specs.Words.{packed, rtp, seven, verdict_after, zeros};

/// The first rule of RFC 3550, 5.1 and 5.3.1, that a packet breaks.
pub fn refused_headers()
    ensures h1 { rtp_refusal (zeros 11) ≡ Some (why.Short 11) }
    ensures h2 { rtp_refusal (0x40 ∷ 0x60 ∷ zeros 10) ≡ Some (why.Version 1) }
    ensures h3 { rtp_refusal (0x81 ∷ 0x60 ∷ zeros 10) ≡ Some why.Sources }
    ensures h4 { rtp_refusal (0x90 ∷ 0x60 ∷ zeros 10) ≡ Some why.Extension }
    ensures h5_no_octet { rtp_refusal (0xA0 ∷ 0x60 ∷ zeros 10) ≡ Some why.Padding }
    ensures h5_of_none { rtp_refusal (0xA0 ∷ 0x60 ∷ zeros 11) ≡ Some why.Padding }
{}

/// A packet with a contributing source, an extension and padding has the layout of its fields.
pub fn whole_headers()
    ensures { let octets = 0xB1 ∷ 0x60 ∷ zeros 14 ++ 0xBE ∷ 0xDE ∷ 0x00 ∷ 0x01 ∷ zeros 4 ++ seven
        ++ 1 ∷ 2 ∷ 3 ∷ 4 ∷ [] in (rtp_refusal octets ≡ None) × ((packet_at octets).payload ≡ seven)
        × ((packet_at octets).sources ≡ 0 ∷ [])
        × ((packet_at octets).padding ≡ 4) × IsPacket (packet_at octets) octets }
{}

/// Why a later packet isn't accepted.
pub fn refused_places()
    ensures s1 { verdict_after packed (rtp 0 0 0 seven) (rtp 1 160 1 seven)
        ≡ Some (OtherSource 0 1) }
    ensures s2 { verdict_after packed (rtp 0 0xFFFF_FFC0 0 seven) (rtp 1 0x61 0 seven)
        ≡ Some (OffGrid (pos 161)) }
    ensures s3 { verdict_after packed (rtp 0 0 0 seven) (rtp 1 7200160 0 seven)
        ≡ Some (FarAhead (pos 0) (pos 45001)) }
{}
