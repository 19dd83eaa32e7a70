ghost use Rattle.segment_laws.specs.Kept.{IsFront, Keeps};
ghost use Rattle.spec_segments.specs.Release.{gone_out, released, released_up_to};
ghost use Rattle.spec_segments.specs.Segments.{accepted, horizon, segments};
ghost use Rattle.spec_session.specs.Packets.{Packet};
ghost use Rattle.spec_session.specs.Session.{Rules};
ghost use Rattle.std.specs.Prelude.{◌++◌, ◌-ℤ◌, ◌≡◌, List, Some, pos, ℤ};

/// A longer session keeps the accepted packets of a shorter one and its closed segments; its last
/// segment goes on with packets accepted at its horizon or later, and further segments may follow.
pub fn a_longer_session_keeps_the_segments()
    ensures segments { (rules : Rules) (h more : List Packet)
        → Keeps rules (segments rules h) (segments rules (h ++ more)) }
    ensures accepted { (rules : Rules) (h more : List Packet)
        → IsFront (accepted rules h) (accepted rules (h ++ more)) }
{}

/// What has gone out stays, also where new segments begin: the release up to the horizon less the
/// window is the front of what is released of every longer list of packets, and of what is released
/// of that list up to its own horizon less the window, even where that horizon is of a later
/// segment.
pub fn what_is_released_of_segments_stays()
    ensures all { (rules : Rules) (h more : List Packet) (z : ℤ) → horizon rules h ≡ Some z
        → IsFront (released_up_to rules h (z -ℤ pos rules.window)) (released rules (h ++ more)) }
    ensures up_to { (rules : Rules) (h more : List Packet) (z z' : ℤ)
        → horizon rules h ≡ Some z → horizon rules (h ++ more) ≡ Some z'
        → IsFront (released_up_to rules h (z -ℤ pos rules.window))
        (released_up_to rules (h ++ more) (z' -ℤ pos rules.window)) }
    ensures gone { (rules : Rules) (h more : List Packet)
        → IsFront (gone_out rules h) (gone_out rules (h ++ more)) }
    ensures gone_of_all { (rules : Rules) (h more : List Packet)
        → IsFront (gone_out rules h) (released rules (h ++ more)) }
    ensures gone_is { (rules : Rules) (h : List Packet) (z : ℤ) → horizon rules h ≡ Some z
        → gone_out rules h ≡ released_up_to rules h (z -ℤ pos rules.window) }
{}
