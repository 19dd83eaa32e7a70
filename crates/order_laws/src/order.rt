ghost use Rattle.order_laws.specs.Order.{AllAccepted, AllInTime, AreMovedBy};
ghost use Rattle.order_laws.specs.Order.{HaveTheSame, HaveWholeBlocks};
ghost use Rattle.spec_segments.specs.Release.{released};
ghost use Rattle.spec_segments.specs.Segments.{accepted};
ghost use Rattle.spec_session.specs.Packets.{Packet};
ghost use Rattle.spec_session.specs.Session.{Rules};
ghost use Rattle.std.specs.Prelude.{◌≡◌, List, ℤ};

/// The same packets in any order and with any repeats have the same places but for one constant,
/// where in both orders each is accepted and the places span less than 2^31 ticks. Blocks may be
/// late.
pub fn another_order_moves_all_places_alike()
    ensures { (rules : Rules) (h k : List Packet) → HaveTheSame h k
        → AllAccepted rules h → AllAccepted rules k
        → (d : ℤ) × AreMovedBy d (accepted rules h) (accepted rules k) }
{}

/// The same packets of whole blocks, in any order and with any repeats, release the same blocks,
/// where in both orders each is accepted, no block is late, and the places span less than 2^31
/// ticks.
pub fn another_order_releases_the_same()
    ensures { (rules : Rules) (h k : List Packet) → HaveTheSame h k
        → HaveWholeBlocks rules h → AllInTime rules h → AllInTime rules k
        → released rules h ≡ released rules k }
{}
