ghost use Rattle.amr_frame.specs.Tables.{ticks};
ghost use Rattle.amr_frame.specs.declared.codec.Codec.{Codec};
ghost use Rattle.spec_session.specs.Places.{IsPlaceOf, place_near};
ghost use Rattle.std.specs.Prelude.{◌≡◌, Some, ℕ, ℤ};

/// A timestamp has at most one place near a horizon, and it is the one that is computed.
pub fn a_packet_has_one_place()
    ensures unique { (codec : Codec) (origin timestamp : ℕ) (horizon u v : ℤ)
        → IsPlaceOf (ticks codec) origin timestamp horizon u
        → IsPlaceOf (ticks codec) origin timestamp horizon v → u ≡ v }
    ensures found { (codec : Codec) (origin timestamp : ℕ) (horizon u : ℤ)
        → place_near (ticks codec) origin timestamp horizon ≡ Some u
        → IsPlaceOf (ticks codec) origin timestamp horizon u }
    ensures only { (codec : Codec) (origin timestamp : ℕ) (horizon u : ℤ)
        → IsPlaceOf (ticks codec) origin timestamp horizon u
        → place_near (ticks codec) origin timestamp horizon ≡ Some u }
{}
