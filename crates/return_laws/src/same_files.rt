ghost use Rattle.return_laws.specs.Ordering.{HoldTheSame, IsInTime};
ghost use Rattle.return_laws.specs.Recordings.{RecordsAs};
ghost use Rattle.return_laws.specs.Strangers.{HasOneSegment, accepted_log};
ghost use Rattle.spec_record.specs.RecordMeaning.{record_meaning};
ghost use Rattle.spec_record.specs.Recording.{Recording};
ghost use Rattle.spec_session.specs.Session.{rules_of};
ghost use Rattle.std.specs.Prelude.{◌≡◌, List, ℕ};

/// Logs that hold the same records, in any order and with any repeats, are recorded as the same
/// file, where in both each well-formed packet is accepted, no block is late, and the places span
/// less than 2^31 ticks.
pub fn logs_in_any_order_are_recorded_the_same()
    ensures { (r : Recording) (limit window reach : ℕ) (log other : List ℕ)
        → r.rules ≡ rules_of r.profile window reach → HoldTheSame limit log other
        → IsInTime r limit log → IsInTime r limit other
        → (record_meaning r limit).out log ≡ (record_meaning r limit).out other }
{}

/// Where no packet but the first begins a segment, the log of the accepted packets alone is
/// recorded to its end as the file of the whole log.
pub fn accepted_packets_are_recorded_the_same()
    ensures { (r : Recording) (limit : ℕ) (log : List ℕ) → HasOneSegment r limit log
        → RecordsAs r limit (accepted_log r limit log) ((record_meaning r limit).out log) }
{}
