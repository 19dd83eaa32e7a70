ghost use Rattle.segment_laws.specs.One.{IsAlone};
ghost use Rattle.segment_laws.specs.Placed.{IsSegment};
ghost use Rattle.spec_segments.specs.Segments.{all_of, segments};
ghost use Rattle.spec_session.specs.Packets.{Packet};
ghost use Rattle.spec_session.specs.Session.{Rules};
ghost use Rattle.std.specs.List.{AllByRecursion};
ghost use Rattle.std.specs.Prelude.{List};

/// In each segment the packet that began it has place 0, and each later one has exactly one place,
/// by the timestamp of that packet and near the horizon of those accepted in the segment before.
pub fn a_packet_has_one_place_in_its_segment()
    ensures { (rules : Rules) (h : List Packet)
        → AllByRecursion (IsSegment rules) (all_of (segments rules h)) }
{}

/// Each segment is a session of its own: of its packets alone all are accepted, where they stand in
/// it.
pub fn a_segment_is_a_session()
    ensures { (rules : Rules) (h : List Packet)
        → AllByRecursion (IsAlone rules) (all_of (segments rules h)) }
{}
