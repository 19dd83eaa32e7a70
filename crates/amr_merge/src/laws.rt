ghost use Rattle.std.specs.Cmp.{IsTotalOrder};
ghost use Rattle.std.specs.List.{AllByRecursion};
ghost use Rattle.std.specs.Prelude.{◌≡◌, List, None, Option};
ghost use Rattle.std.specs.declared.cmp.Ordering.TheVariants.{Equal};
ghost use Rattle.amr_frame.specs.Frames.{Frame};
ghost use Rattle.amr_frame.specs.declared.codec.Codec.{Codec};
ghost use Rattle.amr_merge.specs.Members.{StandsIn};
ghost use Rattle.spec_session.specs.Quality.{best, better, quality};

/// Quality is a total order of frames, absent ones among them, and only equal frames compare as equal.
pub fn orders_by_quality()
    ensures total { (codec : Codec) → IsTotalOrder (quality codec) }
    ensures equal { (codec : Codec) (a b : Option Frame) → quality codec a b ≡ Equal → a ≡ b }
{}

/// The better of two frames is the greater in a total order whose least is the absent frame.
pub fn better_is_the_greater()
    ensures associative { (codec : Codec) (a b c : Option Frame)
        → better codec (better codec a b) c ≡ better codec a (better codec b c) }
    ensures commutative { (codec : Codec) (a b : Option Frame)
        → better codec a b ≡ better codec b a }
    ensures idempotent { (codec : Codec) (a : Option Frame) → better codec a a ≡ a }
    ensures absent_first { (codec : Codec) (a : Option Frame) → better codec None a ≡ a }
    ensures absent_last { (codec : Codec) (a : Option Frame) → better codec a None ≡ a }
{}

/// Two lists of frames have the same best where each frame of either stands in the other.
pub fn the_same_frames_have_the_same_best()
    ensures { (codec : Codec) (xs ys : List Frame)
        → AllByRecursion (λ (x : Frame). StandsIn x ys) xs
        → AllByRecursion (λ (y : Frame). StandsIn y xs) ys → best codec xs ≡ best codec ys }
{}
