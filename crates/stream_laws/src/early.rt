ghost use Rattle.spec_sending.specs.Plans.{IsPlan};
ghost use Rattle.spec_sending.specs.declared.plan.SendPlan.{SendPlan};
ghost use Rattle.spec_stream.specs.Streaming.{early_of, output_of};
ghost use Rattle.std.specs.Prelude.{◌++◌, ◌≡◌, ◌≤◌, List, length, ℕ};

/// What is out once some octets of a file were read is a front of what is put out in the end,
/// however the file goes on, and of what is out once more were read.
pub fn what_goes_out_early_stays()
    ensures whole { (s : SendPlan) (limit : ℕ) (read more : List ℕ) → IsPlan s → length read ≤ limit
        → (rest : List ℕ) × (output_of s limit (read ++ more) ≡ early_of s read ++ rest) }
    ensures early { (s : SendPlan) (read more : List ℕ) → IsPlan s
        → (rest : List ℕ) × (early_of s (read ++ more) ≡ early_of s read ++ rest) }
{}
