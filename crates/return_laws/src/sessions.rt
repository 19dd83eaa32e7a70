ghost use Rattle.amr_frame.specs.Frames.{Frame};
ghost use Rattle.return_laws.specs.Carrying.{CarryAll};
ghost use Rattle.return_laws.specs.Sessions.{AreSent, Hears, Releases, span};
ghost use Rattle.spec_sending.specs.Left.{left};
ghost use Rattle.spec_sending.specs.Plans.{IsPlan};
ghost use Rattle.spec_sending.specs.Sending.{heard_of, sendings};
ghost use Rattle.spec_sending.specs.declared.plan.SendPlan.{SendPlan};
ghost use Rattle.spec_session.specs.Session.{Rules};
ghost use Rattle.std.specs.Prelude.{◌≡◌, ◌≤◌, Bool, List, length, map};

/// What a session releases of all packets that are sent for blocks are these blocks, one by one,
/// with groups, with repeats and without.
pub fn what_is_sent_comes_back()
    ensures { (rules : Rules) (s : SendPlan) (b : List (List Frame)) → AreSent s b → Hears rules s
        → Releases rules (map (heard_of s b) (sendings s b)) b }
{}

/// Where packets carry consecutive blocks, losses are repaired by repeats: if each block is in a
/// packet that is left, what a session releases of those left are all blocks.
pub fn what_is_left_repairs()
    ensures { (rules : Rules) (s : SendPlan) (b : List (List Frame)) (kept : List Bool)
        → AreSent s b → s.length ≡ 1 → Hears rules s
        → CarryAll (length b) (left kept (sendings s b))
        → Releases rules (map (heard_of s b) (left kept (sendings s b))) b }
{}

/// At most 1024 blocks stand together in a group or in a packet with its repeats, and at most 64
/// where packets carry consecutive blocks: a window and a reach of as many hold them.
pub fn what_stands_together_is_bounded()
    ensures group { (s : SendPlan) → IsPlan s → span s ≤ 1024 }
    ensures packet { (s : SendPlan) → IsPlan s → s.length ≡ 1 → span s ≤ 64 }
{}
