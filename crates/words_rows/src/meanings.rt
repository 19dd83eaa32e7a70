// What jobs mean.
ghost use Rattle.std.specs.Prelude.{◌≡◌, ◌∷◌, [], codes, true};
ghost use Rattle.refusals.specs.declared.offer.OfferRefusal.TheVariants.{NoAudio};
ghost use Rattle.refusals.specs.declared.store.StoreRefusal.TheVariants.{Magic};
ghost use Rattle.run_report.specs.declared.end.RunEnd.TheVariants.{File, LimitReached, LogCut, Sdp};
ghost use Rattle.run_report.specs.declared.report.CountLines.TheVariants as lines;
ghost use Rattle.spec_jobs.specs.Jobs.{ListLog, meaning_of};
ghost use Rattle.words_rows.specs.Words.{answer_means, conversion_means, desk, eight, listed};
ghost use Rattle.words_rows.specs.Words.{recording_means, stream_means};
ghost use Rattle.worked_rows.specs.Words.{packed};

/// How each job ends on little, and which lines it notes.
pub fn meanings_of_jobs()
    ensures record_cut { recording_means.end (0 ∷ []) ≡ LogCut 1 }
    ensures stream_of_nothing { stream_means.end [] ≡ File Magic }
    ensures stream_out { stream_means.out (codes "#!AMR\n") ≡ [] }
    ensures stream_lines { stream_means.lines ≡ lines.Sending }
    ensures convert_cut { conversion_means.end (0 ∷ []) ≡ LogCut 1 }
    ensures convert_lines { conversion_means.lines ≡ lines.Converting }
    ensures list_limit { (meaning_of (ListLog (listed packed (desk eight 7)) 1)).end
        (0 ∷ 0 ∷ []) ≡ LimitReached }
    ensures answer_to_nothing { answer_means.end [] ≡ Sdp NoAudio }
    ensures answer_reads_first { answer_means.reads_first ≡ true }
{}
