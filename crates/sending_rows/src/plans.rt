ghost use Rattle.amr_frame.specs.declared.codec.Codec.TheVariants.{AmrWb};
ghost use Rattle.amr_frame.specs.declared.profile.ProfileFault.TheVariants as profile_fault;
ghost use Rattle.sending_rows.specs.Sends.{grouping, repeating};
ghost use Rattle.spec_sending.specs.Plans.{IsPlan, plan_fault};
ghost use Rattle.spec_sending.specs.declared.fault.SendFault.TheVariants as fault;
ghost use Rattle.std.specs.Prelude.{◌≡◌, Some};
ghost use Rattle.worked_rows.specs.Words.{interleaved, packed, plan};

/// Plans that break no rule.
pub fn valid_plans()
    ensures repeats { IsPlan repeating }
    ensures groups { IsPlan grouping }
    ensures whole_payload { IsPlan (record (plan packed) { blocks = 1; repeat = 63 }) }
    ensures wideband_mode { IsPlan (record (plan (record packed { codec = AmrWb })) { cmr = 8 }) }
{}

/// The first rule that a plan breaks.
pub fn refused_plans()
    ensures format { plan_fault (record (plan (record packed { channels = 7 })) { pt = 128 })
        ≡ Some (fault.Profile profile_fault.Channels) }
    ensures b7_none { plan_fault (record (plan packed) { blocks = 0 }) ≡ Some fault.Blocks }
    ensures b7_many { plan_fault (record (plan packed) { blocks = 64; repeat = 1 })
        ≡ Some fault.Blocks }
    ensures b11_wideband_mode { plan_fault (record (plan packed) { cmr = 8 }) ≡ Some fault.Request }
    ensures b11_no_mode { plan_fault (record (plan packed) { cmr = 16 }) ≡ Some fault.Request }
    ensures b12 { plan_fault (record (plan packed) { pt = 128 }) ≡ Some fault.Number }
{}

/// The first rule of groups and repeats that a plan breaks.
pub fn refused_groups()
    ensures b8_none { plan_fault (record (plan packed) { length = 0 }) ≡ Some fault.Length }
    ensures b8_many { plan_fault (record (plan (interleaved 64)) { length = 17 })
        ≡ Some fault.Length }
    ensures b8_no_groups { plan_fault (record (plan packed) { length = 2 }) ≡ Some fault.Length }
    ensures b9_group { plan_fault (record (plan (interleaved 4)) { blocks = 3; length = 2 })
        ≡ Some fault.Group }
    ensures b9_packet { plan_fault (record (plan (interleaved 4)) { blocks = 4; repeat = 1 })
        ≡ Some fault.Group }
    ensures b10 { plan_fault (record (plan (interleaved 4)) { blocks = 1; length = 2; repeat = 1 })
        ≡ Some fault.Repeat }
{}
