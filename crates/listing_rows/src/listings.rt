ghost use Rattle.amr_frame.specs.declared.codec.Codec.TheVariants.{AmrWb};
ghost use Rattle.listing_rows.specs.Words.{line, listed, listing_of, meaning, one, stepping};
ghost use Rattle.run_report.specs.declared.end.RunEnd.TheVariants.{Done, LimitReached, LogCut};
ghost use Rattle.spec_listing.specs.Listing.{listing};
ghost use Rattle.std.specs.Prelude.{◌++◌, ◌∷◌, ◌≡◌, ◌^◌, Some, [], codes, true};
ghost use Rattle.worked_rows.specs.Words.{aligned, interleaved, packed, rec, rtp, seven, zeros};

/// How packets are listed: null, refused, of another type than the asked one, and with their
/// fields.
pub fn listed_packets()
    ensures null { listing (listing_of packed) ([] ∷ [] ∷ []) ≡ codes "0 0 null\n1 0 null\n" }
    ensures h1 { listed packed (zeros 11) ≡ codes "0 11 refused=H1 have=11\n" }
    ensures h2 { listed packed (0x40 ∷ 0x60 ∷ zeros 10) ≡ codes "0 12 refused=H2 got=1\n" }
    ensures h3 { listed packed (0x81 ∷ 0x60 ∷ zeros 10) ≡ codes "0 12 refused=H3\n" }
    ensures h4 { listed packed (0x90 ∷ 0x60 ∷ zeros 10) ≡ codes "0 12 refused=H4\n" }
    ensures h5 { listed packed (0xA0 ∷ 0x60 ∷ zeros 10) ≡ codes "0 12 refused=H5\n" }
    ensures other_type { listing (record (listing_of packed) { asked = Some 97 }) (one seven ∷ [])
        ≡ line 0 44 (codes "refused=type\n") }
    ensures fields { listed packed
        (0x80 ∷ 0xE1 ∷ 0x01 ∷ 0x02 ∷ 0x00 ∷ 0x01 ∷ 0x00 ∷ 0x00 ∷ 0xDE ∷ 0xAD ∷ 0xBE ∷ 0x0F ∷ [])
        ≡ codes "0 12 pt=97 m=1 seq=258 ts=65536 ssrc=deadbe0f refused=P1\n" }
{}

/// How payloads are listed: what they say.
pub fn listed_payloads()
    ensures one_frame { listed packed (one seven)
        ≡ line 0 44 (codes "cmr=15 mode=7 stride=1 index=0 blocks=1 frames=7/1\n") }
    ensures of_a_group { listed (interleaved 4) (one (0xF0 ∷ 0x11 ∷ 0xC4 ∷ 0x40 ∷ zeros 10))
        ≡ line 0 26 (codes "cmr=15 mode=7 stride=2 index=1 blocks=2 frames=8/1,8/0\n") }
    ensures two_channels { listed (record packed { channels = 2 }) (one (0xFC ∷ 0x5F ∷ zeros 5))
        ≡ line 0 19 (codes "cmr=15 mode=7 stride=1 index=0 blocks=1 frames=8/1,15/1\n") }
    ensures damaged { listed (record aligned { crc = true })
        (one (0xF0 ∷ 0x3C ∷ 0x1C ∷ zeros 10 ++ 0x80 ∷ zeros 20))
        ≡ line 0 46 (codes "cmr=15 mode=7 stride=1 index=0 blocks=1 frames=7/1!\n") }
    ensures damaged_with_q_0 { listed (record aligned { crc = true })
        (one (0xF0 ∷ 0xFC ∷ 0x38 ∷ 0x1C ∷ zeros 10 ++ 0x80 ∷ zeros 20))
        ≡ line 0 47 (codes "cmr=15 mode=7 stride=1 index=0 blocks=2 frames=15/1,7/0!\n") }
    ensures bits { listing (record (listing_of (record aligned { codec = AmrWb })) { bits = true })
        (one (0x20 ∷ 0xFC ∷ 0x4C ∷ 0xAB ∷ 0x00 ∷ 0x0C ∷ 0xFF ∷ 0x10 ∷ []) ∷ [] ∷ [])
        ≡ line 0 20 (codes "cmr=2 mode=2 stride=1 index=0 blocks=2 frames=15/1,9/1\n")
        ++ codes "bits 1 ab000cff10\n1 0 null\n" }
    ensures fill_bits { listing (record (listing_of aligned) { bits = true })
        (one (0xF0 ∷ 0x44 ∷ 0xAB ∷ 0x00 ∷ 0x0C ∷ 0xFF ∷ 0x11 ∷ []) ∷ [])
        ≡ line 0 19 (codes "cmr=15 mode=7 stride=1 index=0 blocks=1 frames=8/1\n")
        ++ codes "bits 0 ab000cff10\n" }
{}

/// How payloads are listed that are refused: by which rule, with its numbers.
pub fn listed_refusals()
    ensures p2 { listed (interleaved 4) (one (0xF0 ∷ []))
        ≡ line 0 13 (codes "refused=P2\n") }
    ensures p3 { listed (interleaved 4) (one (0xF0 ∷ 0x12 ∷ 0xC4 ∷ 0x44 ∷ zeros 10))
        ≡ line 0 26 (codes "refused=P3 ill=1 ilp=2\n") }
    ensures p4 { listed aligned (one (0xF0 ∷ 0xFC ∷ []))
        ≡ line 0 14 (codes "refused=P4 entries=1\n") }
    ensures p5 { listed packed (one (0xF4 ∷ 0xC0 ∷ []))
        ≡ line 0 14 (codes "refused=P5 entry=0 ft=9\n") }
    ensures p6 { listed (record packed { max_blocks = 1 }) (one (0xFF ∷ 0xDF ∷ []))
        ≡ line 0 14 (codes "refused=P6\n") }
    ensures p7 { listed (record aligned { channels = 2 }) (one (0xF0 ∷ 0xFC ∷ 0xFC ∷ 0x7C ∷ []))
        ≡ line 0 16 (codes "refused=P7 entries=3\n") }
    ensures p8 { listed (interleaved 3) (one (0xF0 ∷ 0x10 ∷ 0xC4 ∷ 0x44 ∷ zeros 10))
        ≡ line 0 26 (codes "refused=P8 blocks=2 length=2\n") }
    ensures p9 { listed packed (one (0xF2 ∷ 0x40 ∷ zeros 17))
        ≡ line 0 31 (codes "refused=P9 need=20 have=19\n") }
    ensures p10 { listed packed (one (seven ++ 0 ∷ []))
        ≡ line 0 45 (codes "refused=P10 need=32 have=33\n") }
{}

/// The modes that are listed. The desk hears the requests of the payloads that are read, and
/// makes a step at each.
pub fn listed_modes()
    ensures neighbours { listing (stepping 1)
        (one (0x03 ∷ 0xC0 ∷ zeros 30) ∷ one seven ∷ one seven ∷ [])
        ≡ line 0 44 (codes "cmr=0 mode=5 stride=1 index=0 blocks=1 frames=7/1\n")
        ++ line 1 44 (codes "cmr=15 mode=2 stride=1 index=0 blocks=1 frames=7/1\n")
        ++ line 2 44 (codes "cmr=15 mode=0 stride=1 index=0 blocks=1 frames=7/1\n") }
    ensures every_other { listing (stepping 2)
        (one (0x03 ∷ 0xC0 ∷ zeros 30) ∷ one seven ∷ one seven ∷ [])
        ≡ line 0 44 (codes "cmr=0 mode=5 stride=1 index=0 blocks=1 frames=7/1\n")
        ++ line 1 44 (codes "cmr=15 mode=5 stride=1 index=0 blocks=1 frames=7/1\n")
        ++ line 2 44 (codes "cmr=15 mode=2 stride=1 index=0 blocks=1 frames=7/1\n") }
    ensures no_step_at_refused { listing (stepping 1)
        (one (0x03 ∷ 0xC0 ∷ zeros 31) ∷ one seven ∷ [])
        ≡ line 0 45 (codes "refused=P10 need=32 have=33\n")
        ++ line 1 44 (codes "cmr=15 mode=7 stride=1 index=0 blocks=1 frames=7/1\n") }
{}

/// What is listed of an input, and how that ends.
pub fn ends_of_listings()
    ensures whole { (meaning (2 ^ 40)).out (rec 0 0 seven)
        ≡ line 0 44 (codes "cmr=15 mode=7 stride=1 index=0 blocks=1 frames=7/1\n") }
    ensures cut_short { (meaning (2 ^ 40)).out (zeros 3) ≡ codes "0 0 null\n" }
    ensures cut_end { (meaning (2 ^ 40)).end (zeros 3) ≡ LogCut 1 }
    ensures limit { (meaning 2).out (zeros 3) ≡ codes "0 0 null\n" }
    ensures limit_end { (meaning 2).end (zeros 3) ≡ LimitReached }
    ensures done { (meaning 2).end (zeros 2) ≡ Done }
{}
