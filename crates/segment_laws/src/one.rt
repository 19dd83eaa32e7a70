ghost use Rattle.segment_laws.specs.One.{IsOneSegment, NoneBegins, without_refused};
ghost use Rattle.segment_laws.specs.One.{in_segments, in_session};
ghost use Rattle.spec_session.specs.Packets.{Packet};
ghost use Rattle.spec_session.specs.Session as session;
ghost use Rattle.spec_session.specs.Session.{Rules};
ghost use Rattle.std.specs.Prelude.{◌↔◌, ◌≡◌, List, length};

/// There is one segment exactly where no packet but the first begins one.
pub fn one_segment_is_where_none_begins()
    ensures { (rules : Rules) (h : List Packet) → IsOneSegment rules h ↔ NoneBegins rules h }
{}

/// Where no packet but the first begins a segment, all is as if there were no segments: what is
/// accepted, what is released, what has gone out, and the counts.
pub fn one_segment_is_a_session()
    ensures { (rules : Rules) (h : List Packet) → IsOneSegment rules h
        → in_segments rules h ≡ in_session rules h }
{}

/// Where all packets are accepted without segments, none but the first begins one.
pub fn accepted_packets_are_one_segment()
    ensures { (rules : Rules) (h : List Packet) → length (session.accepted rules h) ≡ length h
        → IsOneSegment rules h }
{}

/// Where no packet but the first begins a segment, the accepted packets alone are one segment too,
/// and what is accepted, released and counted of them is what it is of all packets.
pub fn refused_packets_change_nothing()
    ensures one { (rules : Rules) (h : List Packet) → IsOneSegment rules h
        → IsOneSegment rules (without_refused rules h) }
    ensures same { (rules : Rules) (h : List Packet) → IsOneSegment rules h
        → in_segments rules (without_refused rules h) ≡ in_segments rules h }
{}
