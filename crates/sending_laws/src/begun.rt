ghost use Rattle.amr_frame.specs.Frames.{Frame};
ghost use Rattle.spec_packet.specs.Rtp.{RtpPacket};
ghost use Rattle.spec_sending.specs.Plans.{IsPlan};
ghost use Rattle.spec_sending.specs.Sending.{begun, sent};
ghost use Rattle.spec_sending.specs.declared.plan.SendPlan.{SendPlan};
ghost use Rattle.std.specs.Prelude.{◌++◌, ◌≡◌, List};

/// What is begun for some blocks is a front of what is sent for these and any that follow them, and
/// of what is begun for those.
pub fn what_is_begun_stays()
    ensures sent { (s : SendPlan) (b more : List (List Frame)) → IsPlan s
        → (rest : List RtpPacket) × (sent s (b ++ more) ≡ begun s b ++ rest) }
    ensures begun { (s : SendPlan) (b more : List (List Frame)) → IsPlan s
        → (rest : List RtpPacket) × (begun s (b ++ more) ≡ begun s b ++ rest) }
{}
