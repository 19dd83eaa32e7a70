ghost use Rattle.sending_rows.specs.Sends.{blocks, grouping, silence, stored_silence};
ghost use Rattle.spec_packet.specs.Log.{framed};
ghost use Rattle.spec_sending.specs.Groups.{GroupPlace, block_at_place, place_of_block};
ghost use Rattle.spec_sending.specs.Portions.{begun_portions, portions};
ghost use Rattle.spec_stream.specs.Streaming.{output_of};
ghost use Rattle.std.specs.Prelude.{◌++◌, ◌∷◌, ◌≡◌, List, [], length, ℕ};
ghost use Rattle.worked_rows.specs.Words.{file, magic, packed, plan, rec, seven, zeros};

/// One frame for a packet; the marker is set where speech begins.
pub fn streamed_frames()
    ensures one { output_of (plan packed) 100 (magic ++ 0x3C ∷ zeros 31)
        ≡ framed (0x80 ∷ 0xE0 ∷ zeros 10 ++ seven) }
    ensures recorded_again { file packed (output_of (plan packed) 100 (magic ++ 0x3C ∷ zeros 31))
        ≡ magic ++ 0x3C ∷ zeros 31 }
{}

/// A whole group of four blocks goes as two packets, and the rest behind it as one (RFC 4867,
/// 4.4.1).
pub fn groups_and_rest()
    ensures log { output_of grouping 100 (magic ++ stored_silence ++ stored_silence
        ++ stored_silence ++ stored_silence ++ stored_silence)
        ≡ rec 0 0 (0xF0 ∷ 0x10 ∷ 0xC4 ∷ 0x44 ∷ zeros 10)
        ++ rec 1 160 (0xF0 ∷ 0x11 ∷ 0xC4 ∷ 0x44 ∷ zeros 10)
        ++ rec 2 640 (0xF0 ∷ 0x00 ∷ 0x44 ∷ zeros 5) }
    ensures first_record { rec 0 0 (0xF0 ∷ 0x10 ∷ 0xC4 ∷ 0x44 ∷ zeros 10)
        ≡ 0x00 ∷ 0x1A ∷ 0x80 ∷ 0x60 ∷ zeros 10 ++ 0xF0 ∷ 0x10 ∷ 0xC4 ∷ 0x44 ∷ zeros 10 }
    ensures begun { length (begun_portions grouping 5) ≡ 2 }
    ensures long_rest { portions grouping 7
        ≡ record { first = 0; stride = 2; index = 0; count = 2 }
        ∷ record { first = 1; stride = 2; index = 1; count = 2 }
        ∷ record { first = 4; stride = 1; index = 0; count = 2 }
        ∷ record { first = 6; stride = 1; index = 0; count = 1 } ∷ [] }
{}

/// Block 13 of groups of three packets of two blocks is in the third group, in its second packet,
/// the first block there.
pub fn places_in_groups()
    ensures there { place_of_block 2 3 13 ≡ record { group = 2; packet = 1; block = 0 } }
    ensures back { block_at_place 2 3 (record { group = 2; packet = 1; block = 1 }) ≡ 16 }
{}
