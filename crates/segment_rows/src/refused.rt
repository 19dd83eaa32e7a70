ghost use Rattle.segment_rows.specs.Words.{at, counts, file, off_grid, sizes, stored, wide};
ghost use Rattle.std.specs.Prelude.{◌++◌, ◌∷◌, ◌≡◌, []};
ghost use Rattle.worked_rows.specs.Words.{magic};

/// Refused packets that don't come in sequence begin no segment.
pub fn packets_out_of_sequence()
    ensures gap { file (at 0 0 ++ at 1 161 ++ at 3 321) ≡ magic ++ stored }
    ensures gap_counts { counts wide (at 0 0 ++ at 1 161 ++ at 3 321)
        ≡ record { place = 2; late = 0; copies = 0; blocks = 1 } }
    ensures one_alone { sizes (at 0 0 ++ at 1 161) ≡ 1 ∷ [] }
    ensures repeated { sizes (at 0 0 ++ at 1 161 ++ at 1 321) ≡ 1 ∷ [] }
    ensures accepted_between { sizes (at 0 0 ++ at 1 161 ++ at 1 160 ++ at 2 321) ≡ 2 ∷ [] }
    ensures behind_one_that_began { sizes (off_grid ++ at 3 482) ≡ 1 ∷ 1 ∷ [] }
{}
