ghost use Rattle.std.specs.Prelude.{◌≡◌, ◌↔◌, List, false, length, true, ℕ};
ghost use Rattle.amr_bits.specs.Bits.{AreOctets, bits_of};
ghost use Rattle.amr_frame.specs.declared.profile.Profile.{Profile};
ghost use Rattle.amr_frame.specs.Profiles.{IsValid};
ghost use Rattle.amr_payload.specs.Checks.{own_checks};
ghost use Rattle.amr_payload.specs.Taken.{HasModes, IsTaken};
ghost use Rattle.amr_toc.specs.Cleared.{cleared};
ghost use Rattle.amr_toc.specs.declared.view.PayloadView.{PayloadView};
ghost use Rattle.amr_toc.specs.Told.{IsRead, IsRefused};
ghost use Rattle.amr_toc.specs.Viewed.{format_of, is_damaged, octets_of};
ghost use Rattle.spec_payload.specs.Grammar.{IsPayload, layout, text};
ghost use Rattle.spec_payload.specs.Values.{IsValue, Value};
ghost use Rattle.spec_payload.specs.declared.refusal.PayloadRefusal.{PayloadRefusal};

/// The canonical octets of a value are a payload of it in each valid format, with the CRCs of its frames,
/// so that none is damaged; and they are a payload of no other value, and with no other CRCs.
pub fn says_what_is_written()
    ensures payload { (p : Profile) (v : Value) → IsValid p → IsValue p v
        → IsPayload p v (own_checks p v) (text p v) }
    ensures value { (p : Profile) (v w : Value) (checks : List ℕ) → IsValid p → IsValue p v
        → IsPayload p w checks (text p v) → w ≡ v }
    ensures checks { (p : Profile) (v w : Value) (checks : List ℕ) → IsValid p → IsValue p v
        → IsPayload p w checks (text p v) → checks ≡ own_checks p v }
{}

/// The canonical octets of what a payload says, where none of its frames is damaged, are as many as its
/// own, and the same but for the free bits, which are 0.
pub fn writes_what_is_said()
    ensures size { (p : Profile) (v : Value) (octets : List ℕ) → IsValid p
        → IsPayload p v (own_checks p v) octets → length (text p v) ≡ length octets }
    ensures bits { (p : Profile) (v : Value) (octets : List ℕ) → IsValid p
        → IsPayload p v (own_checks p v) octets
        → bits_of (text p v) ≡ cleared (layout p v (own_checks p v)) (bits_of octets) }
{}

/// The canonical octets of a value aren't refused in any valid format, and what is read of them is the
/// value. No frame of a view of them is damaged.
pub fn reads_what_was_written()
    ensures accepted { (p : Profile) (v : Value) (why : PayloadRefusal) → IsValid p → IsValue p v
        → IsRefused p (text p v) why → ⊥ }
    ensures value { (p : Profile) (v w : Value) → IsValid p → IsValue p v → IsRead p (text p v) w
        → w ≡ v }
    ensures undamaged { (view : PayloadView) (v : Value) (k : ℕ) → IsValid (format_of view)
        → IsValue (format_of view) v → octets_of view ≡ text (format_of view) v
        → is_damaged view k ≡ false }
{}

/// The canonical octets of a value are read as it in each valid format; in a strict one, where what it requests and
/// carries are modes of the format.
pub fn takes_what_was_written()
    ensures { (p : Profile) (v : Value) → IsValid p → IsValue p v
        → (p.strict ≡ true → HasModes p v) → IsTaken p (text p v) v }
{}

/// In a strict format two payloads that are read have the same value exactly where they have the same octets.
pub fn strict_values_have_one_payload()
    ensures { (p : Profile) (v w : Value) (octets others : List ℕ) → IsValid p → p.strict ≡ true
        → AreOctets octets → AreOctets others → IsTaken p octets v → IsTaken p others w
        → (v ≡ w) ↔ (octets ≡ others) }
{}
