ghost use Rattle.segment_laws.specs.Judged.{Makes};
ghost use Rattle.spec_segments.specs.Segments.{SegmentVerdict, Segments, verdict};
ghost use Rattle.spec_session.specs.Packets.{Packet};
ghost use Rattle.spec_session.specs.Session.{Accepted, Rules};
ghost use Rattle.std.specs.Prelude.{◌∷◌, ◌≡◌, ◌↔◌, List};

/// Behind a session that has begun a packet fits the last segment, begins another, or is refused as
/// of another source, off the grid or too far ahead, each exactly where its cause holds.
pub fn a_verdict_has_its_cause()
    ensures { (rules : Rules) (s : Segments) (start : Accepted) (joined : List Accepted)
        (x : Packet) (w : SegmentVerdict) → s.last ≡ start ∷ joined
        → (verdict rules s x ≡ w) ↔ Makes rules s start joined x w }
{}
