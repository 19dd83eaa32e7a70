ghost use Rattle.run_report.specs.Lines.{no_counts};
ghost use Rattle.sending_rows.specs.Sends.{grouping, stored_silence};
ghost use Rattle.spec_run.specs.LogRuns.{records_of};
ghost use Rattle.refusals.specs.declared.store.StoreRefusal.TheVariants as why;
ghost use Rattle.spec_stream.specs.Converting.{counts_from, early_from, log_from};
ghost use Rattle.run_report.specs.Lines.{count_lines, file_line, sent_line};
ghost use Rattle.run_report.specs.declared.end.RunEnd.TheVariants.{Done, File, LimitReached};
ghost use Rattle.run_report.specs.declared.report.CountLines.TheVariants.{Converting};
ghost use Rattle.spec_stream.specs.Streaming.{counts_of, early_of, end_of, output_of};
ghost use Rattle.std.specs.Prelude.{◌++◌, ◌∷◌, ◌≡◌, [], codes};
ghost use Rattle.worked_rows.specs.Words.{aligned, magic, packed, plan, rec, recording, seven, two_channels, zeros};

/// How streaming ends: a fault that the octets within the limit show goes before the limit, one
/// that only their end tells goes behind it.
pub fn streams_end()
    ensures done { end_of (plan packed) 13 (magic ++ stored_silence ++ 0x7C ∷ []) ≡ Done }
    ensures limit { end_of (plan packed) 12 (magic ++ stored_silence ++ 0x7C ∷ []) ≡ LimitReached }
    ensures limit_in_a_frame { end_of (plan packed) 8 (magic ++ stored_silence) ≡ LimitReached }
    ensures empty { end_of (plan packed) 1 [] ≡ File why.Magic }
    ensures one_octet { end_of (plan packed) 1 (0x23 ∷ []) ≡ File why.Magic }
    ensures two_octets { end_of (plan packed) 1 (0x23 ∷ 0x21 ∷ []) ≡ LimitReached }
    ensures other_octet { end_of (plan packed) 1 (0x24 ∷ 0x21 ∷ []) ≡ File why.Magic }
{}

/// What of a file ends streaming: a frame that is cut, a reserved type within the limit, another
/// number of channels.
pub fn refused_streams()
    ensures cut_in_a_frame { end_of (plan packed) 8 (magic ++ 0x3C ∷ 0x00 ∷ [])
        ≡ File (why.Truncated 6) }
    ensures reserved { end_of (plan packed) 7 (magic ++ 0x4C ∷ 0x00 ∷ [])
        ≡ File (why.Reserved 6 9) }
    ensures reserved_past_it { end_of (plan packed) 7 (magic ++ 0x7C ∷ 0x4C ∷ []) ≡ LimitReached }
    ensures other_channels { end_of (plan packed) 100 two_channels ≡ File (why.Channels 2) }
{}

/// What of the packets is out while more octets may follow: those of whole groups; what is put out
/// at the end, also where the file is cut.
pub fn what_goes_out_early()
    ensures group { early_of grouping (magic ++ 0x7C ∷ 0x7C ∷ 0x7C ∷ 0x7C ∷ 0x7C ∷ [])
        ≡ rec 0 0 (0xF0 ∷ 0x10 ∷ 0xFC ∷ 0x7C ∷ []) ++ rec 1 160 (0xF0 ∷ 0x11 ∷ 0xFC ∷ 0x7C ∷ []) }
    ensures less_than_a_group { early_of grouping (magic ++ 0x7C ∷ 0x7C ∷ 0x7C ∷ []) ≡ [] }
    ensures cut_file { output_of (plan packed) 100 (magic ++ 0x7C ∷ 0x3C ∷ 0x00 ∷ [])
        ≡ rec 0 0 (0xF7 ∷ 0xC0 ∷ []) }
    ensures refused_header { output_of (plan packed) 100 (two_channels ++ 0x7C ∷ 0x7C ∷ []) ≡ [] }
{}

/// What a run counts, and its notes: what was read and sent, and why a file is refused.
pub fn notes_of_runs()
    ensures counts { counts_of grouping 100 (magic ++ 0x7C ∷ 0x7C ∷ 0x7C ∷ 0x7C ∷ 0x7C ∷ [])
        ≡ record no_counts { blocks = 5; sent = 3 } }
    ensures sent { sent_line (record no_counts { blocks = 5; sent = 3 })
        ≡ codes "blocks=5 packets=3\n" }
    ensures converted { count_lines Converting
        (record no_counts { packets = 2; blocks = 4; sent = 4 })
        ≡ codes "packets=2 null=0 rtp=0 type=0 payload=0 place=0 late=0 copies=0 blocks=4\n"
        ++ codes "blocks=4 packets=4\n" }
    ensures t1 { file_line why.Magic ≡ codes "refused=T1\n" }
    ensures t2 { file_line (why.Channels 2) ≡ codes "refused=T2 chan=2\n" }
    ensures t3 { file_line (why.Reserved 6 9) ≡ codes "refused=T3 place=6 ft=9\n" }
    ensures t4 { file_line (why.Truncated 6) ≡ codes "refused=T4 place=6\n" }
    ensures t5 { file_line (why.BlockRest 16) ≡ codes "refused=T5 place=16\n" }
{}

/// A log is recorded and what is released of it is sent again, here octet-aligned (RFC 4867, 4.4).
pub fn converted_logs()
    ensures aligned { log_from (recording packed 256) (plan aligned) (records_of 100
        (rec 0 0 seven))
        ≡ 0x00 ∷ 0x2D ∷ 0x80 ∷ 0xE0 ∷ zeros 10 ++ 0xF0 ∷ 0x3C ∷ zeros 31 }
    ensures not_yet { early_from (recording packed 256) (plan aligned) (records_of 100
        (rec 0 0 seven))
        ≡ [] }
    ensures out_of_the_window { early_from (recording packed 1) (plan aligned) (records_of 100
        (rec 0 0 seven ++ rec 1 160 seven))
        ≡ 0x00 ∷ 0x2D ∷ 0x80 ∷ 0xE0 ∷ zeros 10 ++ 0xF0 ∷ 0x3C ∷ zeros 31 }
    ensures counts { counts_from (recording packed 256) (plan aligned) (records_of 200
        (rec 0 0 seven ++ rec 1 480 seven))
        ≡ record no_counts { packets = 2; blocks = 4; sent = 4 } }
{}
