ghost use Rattle.order_laws.specs.Example.{first, frame, other, rules};
ghost use Rattle.order_laws.specs.Order.{AllInTime, HaveTheSame, HaveWholeBlocks};
ghost use Rattle.spec_segments.specs.Release.{released};
ghost use Rattle.spec_segments.specs.Segments.{accepted};
ghost use Rattle.spec_session.specs.Session.{Accepted};
ghost use Rattle.std.specs.Prelude.{◌∷◌, ◌≡◌, [], map, negsuc, pos, true, false};

/// Two orders that the laws speak of, worked out by hand: the second begins with a later packet, so
/// that its places are one less, and has a worse copy first.
pub fn orders_by_example()
    ensures same { HaveTheSame first other }
    ensures whole { HaveWholeBlocks rules first }
    ensures first { AllInTime rules first }
    ensures other { AllInTime rules other }
    ensures first_places { map (λ (a : Accepted). a.place) (accepted rules first)
        ≡ pos 0 ∷ pos 1 ∷ pos 1 ∷ [] }
    ensures other_places { map (λ (a : Accepted). a.place) (accepted rules other)
        ≡ pos 0 ∷ negsuc 0 ∷ pos 0 ∷ negsuc 0 ∷ [] }
    ensures released { released rules other ≡ (frame false ∷ []) ∷ (frame true ∷ []) ∷ [] }
{}
