// Words, and the jobs that they give.
ghost use Rattle.std.specs.Prelude.{◌≡◌, ◌∷◌, ◌++◌, [], Some, codes, true};
ghost use Rattle.spec_jobs.specs.Jobs.{AnswerOffer, ConvertLog, ListLog};
ghost use Rattle.spec_jobs.specs.Jobs.{RecordLog, RunTrial, StreamFile};
ghost use Rattle.words_rows.specs.Words.{Gives, desk, eight, listed, most, tried};
ghost use Rattle.words_rows.specs.Words.{wants, wide, wide_recording, wide_sent};
ghost use Rattle.worked_rows.specs.Words.{interleaved, packed, plan, recording};

/// What a recording goes by. The window is by default the greater of 256 and a group, and a payload
/// has by default no more blocks than the window, whatever the order of the words.
pub fn recordings()
    ensures defaults { Gives (codes "record --codec AMR")
        (RecordLog (recording packed 256) most) }
    ensures window { Gives (codes "record --window 8 --codec AMR")
        (RecordLog (recording (record packed { max_blocks = 8 }) 8) most) }
    ensures group { Gives (codes "record --codec AMR --fmtp interleaving=300")
        (RecordLog (recording (interleaved 300) 300) most) }
    ensures greatest_group { Gives (codes "record --codec AMR --fmtp interleaving=65535")
        (RecordLog (recording (interleaved 65535) 1024) most) }
    ensures one_type { Gives (codes "record --codec AMR --limit 1 --pt 0000000000007")
        (RecordLog (record (recording packed 256) { asked = Some 7 }) 1) }
    ensures strict { Gives (codes "record --strict 1 --codec AMR")
        (RecordLog (recording (record packed { strict = true }) 256) most) }
    ensures not_strict { Gives (codes "record --codec AMR --strict 00")
        (RecordLog (recording packed 256) most) }
    ensures value_like_an_option { Gives (codes "record --codec AMR --fmtp --pt")
        (RecordLog (recording packed 256) most) }
{}

/// What a stream goes by.
pub fn streams()
    ensures defaults { Gives (codes "stream --codec AMR")
        (StreamFile (plan packed) most) }
    ensures request { Gives (codes "stream --cmr 8 --codec AMR-WB")
        (StreamFile (record (plan wide) { cmr = 8 }) most) }
    ensures skipping { Gives (codes "stream --skip 01 --codec AMR --repeat 63 --pt 0")
        (StreamFile (record (plan packed) { repeat = 63; skip_empty = true; pt = 0 }) most) }
    ensures groups { Gives (codes "stream --codec AMR --fmtp interleaving=4 --blocks 2 --length 2")
        (StreamFile (record (plan (interleaved 4)) { blocks = 2; length = 2 }) most) }
{}

/// What a conversion goes by: all its options.
pub fn conversions()
    ensures defaults { Gives (codes "convert --codec AMR")
        (ConvertLog (recording packed 256) (plan packed) most) }
    ensures strict_receiver { Gives (codes "convert --codec AMR --strict 1")
        (ConvertLog (recording (record packed { strict = true }) 256) (plan packed) most) }
    ensures all_options { Gives (codes "convert --codec AMR-WB --channels 2 --fmtp crc=1 "
        ++ codes "--to-fmtp interleaving=8 --pt 97 --to-pt 98 --window 300 --reach 100 "
        ++ codes "--max-blocks 12 --limit 1000 --blocks 2 --length 4 --repeat 0 --skip 1 "
        ++ codes "--cmr 8 --ssrc 1 --ts 3 --seq 2")
        (ConvertLog wide_recording wide_sent 1000) }
{}

/// What a listing goes by.
pub fn listings()
    ensures defaults { Gives (codes "list --codec AMR")
        (ListLog (listed packed (desk eight 7)) most) }
    ensures bits_of_a_type { Gives (codes "list --show bits --pt 97 --codec AMR")
        (ListLog (record (listed packed (desk eight 7)) { asked = Some 97; bits = true }) most) }
    ensures start { Gives (codes "list --start 02 --fmtp mode-set=5,2,5 --codec AMR")
        (ListLog (listed (record packed { modes = 36 }) (desk (2 ∷ 5 ∷ []) 2)) most) }
    ensures strict { Gives (codes "list --strict 1 --codec AMR")
        (ListLog (listed (record packed { strict = true }) (desk eight 7)) most) }
    ensures greatest_start { Gives (codes "list --fmtp mode-set=5,2 --max-blocks 1 --codec AMR")
        (ListLog (listed (record packed { max_blocks = 1; modes = 36 })
        (desk (2 ∷ 5 ∷ []) 5)) most) }
{}

/// What an answer and a trial go by.
pub fn answers_and_trials()
    ensures answer { Gives (codes "answer --codec AMR")
        (AnswerOffer (wants eight) 65536) }
    ensures modes { Gives (codes "answer --modes 2,0,2 --codec AMR --limit 1")
        (AnswerOffer (wants (0 ∷ 2 ∷ [])) 1) }
    ensures port { Gives (codes "answer --codec AMR --port 65535")
        (AnswerOffer (record (wants eight) { port = 65535 }) 65536) }
    ensures trial { Gives (codes "trial --codec AMR --count 0")
        (RunTrial (tried 0 0 packed 256)) }
    ensures window_of_a_trial { Gives (codes "trial --codec AMR --seed 7 --window 8 --count 100000")
        (RunTrial (tried 100000 7 (record packed { max_blocks = 8 }) 8)) }
{}
