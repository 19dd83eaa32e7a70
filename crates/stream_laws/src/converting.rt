ghost use Rattle.spec_record.specs.Recording.{Recording};
ghost use Rattle.spec_run.specs.Meanings.{IsPrefix};
ghost use Rattle.spec_sending.specs.Plans.{IsPlan};
ghost use Rattle.spec_sending.specs.declared.plan.SendPlan.{SendPlan};
ghost use Rattle.spec_stream.specs.Converting.{early_from, log_from};
ghost use Rattle.std.specs.Prelude.{◌++◌, List, ℕ};

/// What of a converted log is out once some records were read is a front of what is put out in the
/// end, whatever records follow, and of what is out once more were read.
pub fn what_is_converted_early_stays()
    ensures whole { (r : Recording) (s : SendPlan) (records more : List (List ℕ)) → IsPlan s
        → IsPrefix (early_from r s records) (log_from r s (records ++ more)) }
    ensures early { (r : Recording) (s : SendPlan) (records more : List (List ℕ)) → IsPlan s
        → IsPrefix (early_from r s records) (early_from r s (records ++ more)) }
{}
