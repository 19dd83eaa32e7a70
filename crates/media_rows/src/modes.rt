ghost use Rattle.amr_frame.specs.declared.codec.Codec.TheVariants.{Amr, AmrWb};
ghost use Rattle.media_rows.specs.Words.{modes_told, quick, slow};
ghost use Rattle.spec_modes.specs.Desk.{mode_after};
ghost use Rattle.spec_modes.specs.ModeSets.{IsModeSet, all_modes, greatest, has, modes_among, modes_in, within};
ghost use Rattle.spec_modes.specs.Requests.{request_in};
ghost use Rattle.spec_modes.specs.declared.request.Request.TheVariants as request;
ghost use Rattle.std.specs.Prelude.{◌∷◌, ◌≡◌, [], false, true};

/// Sets of speech modes: in rising order, each mode once.
pub fn mode_sets()
    ensures all { all_modes Amr ≡ 0 ∷ 1 ∷ 2 ∷ 3 ∷ 4 ∷ 5 ∷ 6 ∷ 7 ∷ [] }
    ensures all_wideband { all_modes AmrWb ≡ 0 ∷ 1 ∷ 2 ∷ 3 ∷ 4 ∷ 5 ∷ 6 ∷ 7 ∷ 8 ∷ [] }
    ensures rising { modes_among Amr (7 ∷ 0 ∷ 0 ∷ []) ≡ 0 ∷ 7 ∷ [] }
    ensures bits { modes_in 0xA5 ≡ 0 ∷ 2 ∷ 5 ∷ 7 ∷ [] }
    ensures is_set { IsModeSet Amr (modes_in 0xA5) }
    ensures of_wideband_alone { modes_among Amr (modes_in 0x101) ≡ 0 ∷ [] }
    ensures within { within (0 ∷ 2 ∷ []) (modes_in 0xA5) ≡ true }
    ensures not_within { within (0 ∷ 1 ∷ []) (modes_in 0xA5) ≡ false }
    ensures greatest { greatest (modes_in 0xA5) ≡ 7 }
{}

/// Codec mode requests (RFC 4867, 4.3.1).
pub fn requests()
    ensures mode { request_in Amr 7 ≡ request.Mode 7 }
    ensures sid { request_in Amr 8 ≡ request.Ignored }
    ensures wideband { request_in AmrWb 8 ≡ request.Mode 8 }
    ensures none { request_in Amr 15 ≡ request.None }
{}

/// The modes that a desk of the set 0, 2, 5, 7 answers, step by step.
pub fn desks()
    ensures neighbours { modes_told (quick true) (0 ∷ 15 ∷ 15 ∷ []) ≡ 5 ∷ 2 ∷ 0 ∷ [] }
    ensures every_other_step { modes_told (slow true) (0 ∷ 15 ∷ 15 ∷ []) ≡ 5 ∷ 5 ∷ 2 ∷ [] }
    ensures at_once { modes_told (quick false) (0 ∷ 15 ∷ []) ≡ 0 ∷ 0 ∷ [] }
    ensures at_most { modes_told (quick false) (4 ∷ 1 ∷ 6 ∷ []) ≡ 2 ∷ 0 ∷ 5 ∷ [] }
    ensures upwards { modes_told (quick true) (0 ∷ 0 ∷ 7 ∷ 15 ∷ []) ≡ 5 ∷ 2 ∷ 5 ∷ 7 ∷ [] }
    ensures ignored { modes_told (quick true) (9 ∷ 15 ∷ []) ≡ 7 ∷ 7 ∷ [] }
    ensures last { mode_after (quick true) (0 ∷ 15 ∷ 15 ∷ []) ≡ 0 }
{}
