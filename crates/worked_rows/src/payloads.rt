ghost use Rattle.amr_bits.specs.Bits.{bits_of};
ghost use Rattle.amr_bits.specs.Layout.{fits};
ghost use Rattle.amr_frame.specs.declared.codec.Codec.TheVariants.{AmrWb};
ghost use Rattle.spec_payload.specs.Grammar.{layout, text};
ghost use Rattle.spec_payload.specs.Reading.{payload_refusal, value_at};
ghost use Rattle.spec_payload.specs.Strict.{refusal_in};
ghost use Rattle.spec_payload.specs.declared.refusal.PayloadRefusal.TheVariants as why;
ghost use Rattle.std.specs.Prelude.{◌++◌, ◌∷◌, ◌≡◌, None, Some, [], true};
ghost use Rattle.worked_rows.specs.Words.{aligned, interleaved, packed, seven, zeros};

/// The first rule that a table of contents breaks (RFC 4867, 4.3.2 and 4.4.2), with what it names.
pub fn refused_tables()
    ensures p4_at_once { payload_refusal packed (0xF3 ∷ []) ≡ Some (why.TocUnended 0) }
    ensures p4_later { payload_refusal aligned (0xF0 ∷ 0xFC ∷ []) ≡ Some (why.TocUnended 1) }
    ensures p5 { payload_refusal packed (0xF4 ∷ 0xC0 ∷ []) ≡ Some (why.ReservedType 0 9) }
    ensures p5_wideband { payload_refusal (record packed { codec = AmrWb }) (0xF5 ∷ 0x40 ∷ [])
        ≡ Some (why.ReservedType 0 10) }
    ensures p6 { payload_refusal (record packed { max_blocks = 1 }) (0xFF ∷ 0xDF ∷ [])
        ≡ Some why.TooManyBlocks }
    ensures p7 { payload_refusal (record aligned { channels = 2 }) (0xF0 ∷ 0xFC ∷ 0xFC ∷ 0x7C ∷ [])
        ≡ Some (why.ChannelRest 3) }
{}

/// The first rule that a payload breaks otherwise, with what it names: in its header, and by how
/// long it is.
pub fn refused_payloads()
    ensures p1 { payload_refusal packed [] ≡ Some why.Empty }
    ensures p2 { payload_refusal (interleaved 4) (0xF0 ∷ []) ≡ Some why.HeaderShort }
    ensures p3 { payload_refusal (interleaved 4) (0xF0 ∷ 0x12 ∷ 0xC4 ∷ 0x44 ∷ zeros 10)
        ≡ Some (why.IndexAboveLength 1 2) }
    ensures p8 { payload_refusal (interleaved 3) (0xF0 ∷ 0x10 ∷ 0xC4 ∷ 0x44 ∷ zeros 10)
        ≡ Some (why.GroupTooLarge 2 2) }
    ensures p9 { payload_refusal packed (0xF2 ∷ 0x40 ∷ zeros 17) ≡ Some (why.BodyShort 20 19) }
    ensures p10 { payload_refusal packed (seven ++ 0 ∷ []) ≡ Some (why.BodyLong 32 33) }
    ensures pad_bits_free { payload_refusal packed (0xF3 ∷ 0xC0 ∷ zeros 29 ++ 0x03 ∷ []) ≡ None }
{}

/// Payloads have the layout of their value, and the canonical one is its text.
pub fn canonical_payloads()
    ensures packed_layout { fits (layout packed (value_at packed seven) []) (bits_of seven) ≡ true }
    ensures pad_bits_free { fits (layout packed (value_at packed seven) [])
        (bits_of (0xF3 ∷ 0xC0 ∷ zeros 29 ++ 0x03 ∷ []))
        ≡ true }
    ensures packed_text { text packed (value_at packed (0xF3 ∷ 0xC0 ∷ zeros 29 ++ 0x03 ∷ []))
        ≡ seven }
    ensures checked_layout { let p = record aligned { crc = true } in
        let octets = 0xF5 ∷ 0x3D ∷ 0x1C ∷ zeros 10 ++ 0x80 ∷ zeros 19 ++ 0x0F ∷ [] in
        fits (layout p (value_at p octets) (0x1C ∷ [])) (bits_of octets) ≡ true }
    ensures checked_text { let p = record aligned { crc = true } in
        let octets = 0xF5 ∷ 0x3D ∷ 0x1C ∷ zeros 10 ++ 0x80 ∷ zeros 19 ++ 0x0F ∷ [] in
        text p (value_at p octets) ≡ 0xF0 ∷ 0x3C ∷ 0x1D ∷ zeros 10 ++ 0x80 ∷ zeros 20 }
    ensures interleaved_text { text (interleaved 4)
        (value_at (interleaved 4) (0xF0 ∷ 0x11 ∷ 0xC4 ∷ 0x44 ∷ zeros 10))
        ≡ 0xF0 ∷ 0x11 ∷ 0xC4 ∷ 0x44 ∷ zeros 10 }
{}

/// What strict formats refuse besides, with what it names, and what they take; another format takes it all.
pub fn strict_payloads()
    ensures canonical { refusal_in (record packed { strict = true }) seven ≡ None }
    ensures p11_pad { refusal_in (record packed { strict = true })
        (0xF3 ∷ 0xC0 ∷ zeros 29 ++ 0x03 ∷ []) ≡ Some (why.NotCanonical 31) }
    ensures p11_check { refusal_in (record aligned { crc = true; strict = true })
        (0xF0 ∷ 0x3C ∷ 0x1C ∷ zeros 10 ++ 0x80 ∷ zeros 20) ≡ Some (why.NotCanonical 2) }
    ensures p12 { refusal_in (record packed { strict = true }) (0x93 ∷ 0xC0 ∷ zeros 30)
        ≡ Some (why.RequestOutside 9) }
    ensures p11_before_p12 { refusal_in (record packed { strict = true })
        (0x93 ∷ 0xC0 ∷ zeros 29 ++ 0x03 ∷ []) ≡ Some (why.NotCanonical 31) }
    ensures p13 { refusal_in (record packed { strict = true; modes = 5 }) seven
        ≡ Some (why.ModeOutside 0 7) }
    ensures sid_of_few_modes { refusal_in (record packed { strict = true; modes = 5 })
        (0xF4 ∷ 0x40 ∷ zeros 5) ≡ None }
    ensures not_strict { refusal_in (record packed { modes = 5 })
        (0x93 ∷ 0xC0 ∷ zeros 29 ++ 0x03 ∷ []) ≡ None }
{}
