ghost use Rattle.segment_rows.specs.Words.{at, counts, file, narrow, off_grid, past_reach, sizes, stored, two_sources, wide};
ghost use Rattle.spec_packet.specs.Log.{framed};
ghost use Rattle.std.specs.Prelude.{◌++◌, ◌∷◌, ◌≡◌, []};
ghost use Rattle.worked_rows.specs.Words.{magic, rtp, seven};

/// The second of two refused packets in sequence begins a segment; the first of them isn't in the
/// file.
pub fn segments_begin()
    ensures off_grid { file off_grid ≡ magic ++ stored ++ stored }
    ensures off_grid_counts { counts wide off_grid
        ≡ record { place = 1; late = 0; copies = 0; blocks = 2 } }
    ensures past_reach { file past_reach ≡ magic ++ stored ++ stored }
    ensures past_reach_counts { counts wide past_reach
        ≡ record { place = 1; late = 0; copies = 0; blocks = 2 } }
    ensures wrapped { file (at 0 0 ++ at 65535 161 ++ at 0 321) ≡ magic ++ stored ++ stored }
    ensures wrapped_counts { counts wide (at 0 0 ++ at 65535 161 ++ at 0 321)
        ≡ record { place = 1; late = 0; copies = 0; blocks = 2 } }
    ensures two_sources { file two_sources ≡ magic ++ stored ++ stored }
    ensures two_sources_counts { counts wide two_sources
        ≡ record { place = 2; late = 0; copies = 0; blocks = 2 } }
    ensures no_packet_between { sizes (at 0 0 ++ at 1 161 ++ framed (7 ∷ []) ++ at 2 321)
        ≡ 1 ∷ 1 ∷ [] }
{}

/// In a segment places count from the packet that began it, and a copy, a late block and the next
/// segment are of that segment alone.
pub fn segments_go_on()
    ensures file { file (off_grid ++ at 3 481) ≡ magic ++ stored ++ stored ++ stored }
    ensures counts { counts wide (off_grid ++ at 3 481)
        ≡ record { place = 1; late = 0; copies = 0; blocks = 3 } }
    ensures copies { counts wide (off_grid ++ at 2 321)
        ≡ record { place = 1; late = 0; copies = 1; blocks = 2 } }
    ensures late { counts narrow (off_grid ++ at 4 641 ++ at 3 481)
        ≡ record { place = 1; late = 1; copies = 0; blocks = 4 } }
    ensures closed { let first = at 0 0 ++ at 1 0 ++ at 2 480 ++ at 3 160 in
        counts narrow (first ++ at 4 161 ++ at 5 321)
        ≡ record { place = 1; late = 1; copies = 1; blocks = 5 } }
    ensures third_segment { sizes (off_grid ++ at 3 481 ++ at 4 642 ++ at 5 802) ≡ 1 ∷ 2 ∷ 1 ∷ [] }
{}
