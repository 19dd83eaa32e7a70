ghost use Rattle.session_laws.specs.Later.{Later};
ghost use Rattle.spec_session.specs.Packets.{Packet};
ghost use Rattle.spec_session.specs.Release.{released, released_up_to};
ghost use Rattle.spec_session.specs.Session.{Accepted, Rules, accepted, horizon};
ghost use Rattle.std.specs.List.{AllByRecursion};
ghost use Rattle.std.specs.Prelude.{◌++◌, ◌-ℤ◌, ◌≡◌, List, Some, pos, ℤ};
ghost use Rattle.amr_frame.specs.Frames.{Frame};

/// A longer session keeps the accepted packets of a shorter one, and those after it come at its horizon or later.
pub fn a_longer_session_keeps_the_copies()
    ensures { (rules : Rules) (h more : List Packet) (z : ℤ) → horizon rules h ≡ Some z
        → (later : List Accepted) × (accepted rules (h ++ more) ≡ accepted rules h ++ later)
        × AllByRecursion (Later z) later }
{}

/// What is released up to the horizon less the window stays: it is the front of what is released of
/// every longer list of packets, and of what is released of that list up to its own horizon less the
/// window.
pub fn what_is_released_stays()
    ensures all { (rules : Rules) (h more : List Packet) (z : ℤ) → horizon rules h ≡ Some z
        → (rest : List (List Frame))
        × (released rules (h ++ more) ≡ released_up_to rules h (z -ℤ pos rules.window) ++ rest) }
    ensures up_to { (rules : Rules) (h more : List Packet) (z z' : ℤ)
        → horizon rules h ≡ Some z → horizon rules (h ++ more) ≡ Some z'
        → (rest : List (List Frame))
        × (released_up_to rules (h ++ more) (z' -ℤ pos rules.window)
        ≡ released_up_to rules h (z -ℤ pos rules.window) ++ rest) }
{}
