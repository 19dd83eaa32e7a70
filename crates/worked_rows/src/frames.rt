ghost use Rattle.amr_bits.specs.Bits.{bits_of, number, part};
ghost use Rattle.amr_frame.specs.Frames.{IsBlock, no_data};
ghost use Rattle.amr_frame.specs.Profiles.{profile_fault};
ghost use Rattle.amr_frame.specs.declared.codec.Codec.TheVariants.{Amr};
ghost use Rattle.amr_frame.specs.declared.profile.ProfileFault.TheVariants as fault;
ghost use Rattle.spec_payload.specs.FrameCrc.{crc_of};
ghost use Rattle.spec_payload.specs.RobustOrder.{place, robust_order};
ghost use Rattle.spec_session.specs.Quality.{quality};
ghost use Rattle.std.specs.Prelude.{◌++◌, ◌∷◌, ◌≡◌, None, Some, [], false, true};
ghost use Rattle.std.specs.declared.cmp.Ordering.TheVariants.{Equal, Less};
ghost use Rattle.worked_rows.specs.Words.{aligned, frame, interleaved, packed, zeros};

/// The first rule that a format breaks.
pub fn valid_formats()
    ensures plain { profile_fault packed ≡ None }
    ensures b1 { profile_fault (record packed { channels = 7 }) ≡ Some fault.Channels }
    ensures b2 { profile_fault (record packed { crc = true }) ≡ Some fault.NeedsAlignment }
    ensures b3 { profile_fault (interleaved 0) ≡ Some fault.Interleaving }
    ensures b4 { profile_fault (record aligned { max_blocks = 65 }) ≡ Some fault.MaxBlocks }
    ensures b13 { profile_fault (record packed { modes = 256 }) ≡ Some fault.Modes }
    ensures first_of_two { profile_fault (record packed { channels = 0; max_blocks = 0 })
        ≡ Some fault.Channels }
{}

/// A block of two channels: a silence descriptor, and nothing.
pub fn blocks_of_two_channels()
    ensures { IsBlock Amr 2 (frame 8 39 (zeros 5) ∷ no_data ∷ []) }
{}

/// The CRC of 81 bits of which one is set: the last but zero, and none of them.
pub fn frame_crcs()
    ensures last_bit { number (crc_of (part 0 81 (bits_of (zeros 10 ++ 0x80 ∷ [])))) ≡ 0x1D }
    ensures no_bit { number (crc_of (part 0 81 (bits_of (zeros 10 ++ 0x40 ∷ [])))) ≡ 0x00 }
    ensures no_bits { number (crc_of []) ≡ 0x00 }
{}

/// The octets of frames of two and three octets, and of a frame without bits between them, in the
/// robust order.
pub fn robust_orders()
    ensures two { robust_order (2 ∷ 3 ∷ [])
        ≡ place 0 0 ∷ place 0 1 ∷ place 1 0 ∷ place 1 1 ∷ place 2 1 ∷ [] }
    ensures one_empty { robust_order (2 ∷ 0 ∷ 1 ∷ []) ≡ place 0 0 ∷ place 0 2 ∷ place 1 0 ∷ [] }
{}

/// Frames from the least to the greatest.
pub fn frames_by_quality()
    ensures absent_is_least { quality Amr None (Some (record no_data { q = false })) ≡ Less }
    ensures no_data { quality Amr (Some (record no_data { q = false })) (Some no_data) ≡ Less }
    ensures damaged_speech { quality Amr (Some no_data)
        (Some (record (frame 7 244 (zeros 31)) { q = false })) ≡ Less }
    ensures sid { quality Amr (Some (record (frame 7 244 (zeros 31)) { q = false }))
        (Some (frame 8 39 (zeros 5))) ≡ Less }
    ensures good_speech { quality Amr (Some (frame 8 39 (zeros 5))) (Some (frame 2 118 (zeros 15)))
        ≡ Less }
    ensures higher_type { quality Amr (Some (frame 2 118 (zeros 15)))
        (Some (frame 7 244 (zeros 31))) ≡ Less }
    ensures greater_bits { quality Amr (Some (frame 7 244 (zeros 31)))
        (Some (frame 7 244 (zeros 30 ++ 0x10 ∷ []))) ≡ Less }
    ensures same { quality Amr (Some (frame 7 244 (zeros 31))) (Some (frame 7 244 (zeros 31)))
        ≡ Equal }
{}
