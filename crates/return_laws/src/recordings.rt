ghost use Rattle.amr_frame.specs.Frames.{Frame};
ghost use Rattle.return_laws.specs.Carrying.{CarryAll};
ghost use Rattle.return_laws.specs.Recordings.{ComesBack, IsRecording, RecordsAs, Takes};
ghost use Rattle.return_laws.specs.Recordings.{file_of, left_log};
ghost use Rattle.return_laws.specs.Sessions.{AreSent};
ghost use Rattle.spec_record.specs.Recording.{Recording};
ghost use Rattle.spec_sending.specs.Left.{left};
ghost use Rattle.spec_sending.specs.Sending.{sendings};
ghost use Rattle.spec_sending.specs.declared.plan.SendPlan.{SendPlan};
ghost use Rattle.spec_stream.specs.Streaming.{sent_log};
ghost use Rattle.std.specs.Prelude.{◌≡◌, ◌≤◌, Bool, List, length, ℕ};

/// The log that is sent for blocks is recorded to its end as just the file of these blocks.
pub fn what_is_sent_is_recorded()
    ensures { (r : Recording) (limit : ℕ) (s : SendPlan) (b : List (List Frame)) → IsRecording r
        → AreSent s b → Takes r s → length (sent_log s b) ≤ limit
        → RecordsAs r limit (sent_log s b) (file_of s b) }
{}

/// Where packets carry consecutive blocks, losses are repaired by repeats: if each block is in a
/// packet that is left, the log of those left is recorded to its end as just the file of all
/// blocks.
pub fn what_is_left_is_recorded()
    ensures { (r : Recording) (limit : ℕ) (s : SendPlan) (b : List (List Frame)) (kept : List Bool)
        → IsRecording r → AreSent s b → s.length ≡ 1 → Takes r s
        → CarryAll (length b) (left kept (sendings s b)) → length (left_log s b kept) ≤ limit
        → RecordsAs r limit (left_log s b kept) (file_of s b) }
{}

/// A storage file as it is written, within the limit, is streamed to its end, and recording the log
/// of that gives just this file.
pub fn a_file_comes_back()
    ensures { (r : Recording) (limit most : ℕ) (s : SendPlan) (b : List (List Frame))
        → IsRecording r → AreSent s b → Takes r s → length (file_of s b) ≤ most
        → ComesBack r s limit most (file_of s b) }
{}
