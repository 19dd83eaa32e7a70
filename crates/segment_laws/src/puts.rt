ghost use Rattle.spec_segments.specs.Release.{gone_out, released, released_closed};
ghost use Rattle.spec_segments.specs.Segments.{Begins, Within, segments, verdict};
ghost use Rattle.spec_session.specs.Packets.{Packet};
ghost use Rattle.spec_session.specs.Release.{gone_of};
ghost use Rattle.spec_session.specs.Session.{Accept, Accepted, Rules, Verdict, taken};
ghost use Rattle.std.specs.Prelude.{◌++◌, ◌∷◌, ◌≡◌, List, []};

/// What has gone out behind one more packet: what the last segment has out with it, where that
/// accepts it; all of the old segments, and what the new one has out, where it begins one; and no
/// more where it is refused.
pub fn what_one_more_packet_puts_out()
    ensures accepted { (rules : Rules) (h : List Packet) (x : Packet) (a : Accepted)
        → let s = segments rules h in verdict rules s x ≡ Within (Accept a)
        → gone_out rules (h ++ x ∷ [])
        ≡ released_closed rules s ++ gone_of rules (s.last ++ a ∷ []) }
    ensures begun { (rules : Rules) (h : List Packet) (x : Packet) (a : Accepted)
        → verdict rules (segments rules h) x ≡ Begins a
        → gone_out rules (h ++ x ∷ []) ≡ released rules h ++ gone_of rules (a ∷ []) }
    ensures refused { (rules : Rules) (h : List Packet) (x : Packet) (v : Verdict)
        → verdict rules (segments rules h) x ≡ Within v → taken v ≡ []
        → gone_out rules (h ++ x ∷ []) ≡ gone_out rules h }
{}
