ghost use Rattle.spec_segments.specs.Segments.{accepted, segments};
ghost use Rattle.spec_session.specs.Packets.{Packet};
ghost use Rattle.spec_session.specs.Session.{Accepted, Rules};
ghost use Rattle.std.specs.List.{AllByRecursion};
ghost use Rattle.std.specs.Prelude.{◌++◌, ◌∷◌, ◌≡◌, ◌≢◌, List, []};

/// All segments of a session are of the source of its first packet, and a packet of another source
/// leaves them as they are.
pub fn a_session_has_one_source()
    ensures source { (rules : Rules) (x : Packet) (h : List Packet)
        → AllByRecursion (λ (a : Accepted). a.packet.ssrc ≡ x.ssrc) (accepted rules (x ∷ h)) }
    ensures others { (rules : Rules) (x y : Packet) (h : List Packet) → y.ssrc ≢ x.ssrc
        → segments rules ((x ∷ h) ++ y ∷ []) ≡ segments rules (x ∷ h) }
{}
