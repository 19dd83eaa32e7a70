ghost use Rattle.segment_rows.specs.Words.{at, narrow, next, off_grid, out, wide};
ghost use Rattle.spec_segments.specs.Segments.{Within};
ghost use Rattle.spec_session.specs.Session.{FarAhead, OffGrid};
ghost use Rattle.std.specs.Prelude.{◌++◌, ◌≡◌, Some, pos};

/// A refusal has the numbers of the last segment.
pub fn what_is_refused()
    ensures first_segment { next (at 0 0) 1 161 ≡ Some (Within (OffGrid (pos 161))) }
    ensures last_segment { next off_grid 9 323 ≡ Some (Within (OffGrid (pos 2))) }
    ensures too_far { next off_grid 9 7200481 ≡ Some (Within (FarAhead (pos 0) (pos 45001))) }
{}

/// The old segment goes out whole when a new one begins; the new one by its own horizon.
pub fn what_goes_out()
    ensures before { out wide (at 0 0 ++ at 1 161) ≡ 0 }
    ensures begun { out wide off_grid ≡ 1 }
    ensures wide_window { out wide (off_grid ++ at 3 481) ≡ 1 }
    ensures narrow_window { out narrow (off_grid ++ at 3 481) ≡ 2 }
{}
