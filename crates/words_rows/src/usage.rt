// Words that give no job.
ghost use Rattle.std.specs.Prelude.{◌++◌, ◌∷◌, ◌≡◌, [], None, codes};
ghost use Rattle.spec_jobs.specs.Jobs.{job_of};
ghost use Rattle.words_rows.specs.Words.{NoJob, NoJobs};

/// Words that begin with no command, or that lack what it needs.
pub fn no_commands()
    ensures no_word { job_of [] ≡ None }
    ensures no_command { NoJobs (codes "--codec AMR" ∷ codes "play --codec AMR"
        ∷ codes "Record --codec AMR" ∷ []) }
    ensures no_codec { NoJob (codes "record") }
    ensures no_count { NoJob (codes "trial --codec AMR") }
{}

/// Words that aren't pairs of the command's options, each once.
pub fn no_pairs()
    ensures joined_by_equals { NoJob (codes "record --codec=AMR") }
    ensures option_twice { NoJobs (codes "record --codec AMR --codec AMR"
        ∷ codes "record --pt 7 --codec AMR --pt 07" ∷ []) }
    ensures of_another_command { NoJobs (codes "record --codec AMR --blocks 2"
        ∷ codes "trial --codec AMR --count 0 --limit 9" ∷ []) }
    ensures strict_sender { NoJobs (codes "stream --codec AMR --strict 0"
        ∷ codes "trial --codec AMR --count 0 --strict 0" ∷ []) }
    ensures of_no_command { NoJob (codes "record --codec AMR --verbose 1") }
    ensures no_last_value { NoJob (codes "record --codec AMR --pt") }
{}

/// Numbers that an option hasn't.
pub fn no_numbers()
    ensures channels { NoJobs (codes "record --codec AMR --channels 0"
        ∷ codes "record --codec AMR --channels 7" ∷ []) }
    ensures signed { NoJob (codes "record --codec AMR --channels +1") }
    ensures fourteen_digits { NoJob (codes "record --codec AMR --pt 00000000000007") }
    ensures too_great { NoJobs (codes "record --codec AMR --window 4097"
        ∷ codes "record --codec AMR --strict 2"
        ∷ codes "answer --codec AMR --limit 65537" ∷ []) }
{}

/// Names, media parameters and modes that an option hasn't.
pub fn no_values()
    ensures names { NoJobs (codes "record --codec amr"
        ∷ codes "list --codec AMR --show all" ∷ []) }
    ensures parameters { NoJob (codes "record --codec AMR --fmtp crc=2") }
    ensures contradiction { NoJob (codes "record --codec AMR --fmtp crc=1;octet-align=0") }
    ensures mode_of_the_other_codec { NoJob (codes "answer --modes 8 --codec AMR") }
    ensures start { NoJobs (codes "list --start 8 --codec AMR"
        ∷ codes "list --start 1 --fmtp mode-set=0,2 --codec AMR" ∷ []) }
{}

/// Plans that aren't valid.
pub fn no_plans()
    ensures group { NoJob (codes "record --codec AMR --window 8 --fmtp interleaving=30") }
    ensures payload { NoJob (codes "record --codec AMR --window 1 --max-blocks 2") }
    ensures repeats_in_groups { NoJob (codes "stream --codec AMR --fmtp interleaving=4 "
        ++ codes "--blocks 1 --length 2 --repeat 1") }
    ensures groups_without_interleaving { NoJobs (codes "stream --codec AMR --length 2"
        ∷ codes "convert --codec AMR --fmtp interleaving=8 --length 2" ∷ []) }
    ensures request { NoJobs (codes "stream --codec AMR --cmr 8"
        ∷ codes "stream --codec AMR-WB --cmr 9" ∷ []) }
    ensures too_many_blocks { NoJob (codes "trial --codec AMR --count 1 --blocks 64 --repeat 1") }
{}
