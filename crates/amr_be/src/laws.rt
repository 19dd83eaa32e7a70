ghost use Rattle.std.specs.Prelude.{◌≡◌, List, [], false, length, ℕ};
ghost use Rattle.amr_bits.specs.Bits.{bits_of};
ghost use Rattle.amr_frame.specs.declared.profile.Profile.{Profile};
ghost use Rattle.amr_frame.specs.Profiles.{IsValid};
ghost use Rattle.amr_toc.specs.Cleared.{cleared};
ghost use Rattle.amr_toc.specs.declared.view.PayloadView.{PayloadView};
ghost use Rattle.amr_toc.specs.Told.{IsRead, IsRefused};
ghost use Rattle.amr_toc.specs.Viewed.{format_of, is_damaged};
ghost use Rattle.spec_payload.specs.declared.refusal.PayloadRefusal.{PayloadRefusal};
ghost use Rattle.spec_payload.specs.Grammar.{IsPayload, layout, text};
ghost use Rattle.spec_payload.specs.Values.{IsValue, Value};

/// The canonical octets of a value are a payload of it, which isn't refused, and what is read of them is
/// the value. No frame of such a view is damaged.
pub fn reads_what_was_written()
    ensures payload { (p : Profile) (v : Value) → IsValid p → p.octet_aligned ≡ false → IsValue p v
        → IsPayload p v [] (text p v) }
    ensures accepted { (p : Profile) (v : Value) (why : PayloadRefusal) → IsValid p
        → p.octet_aligned ≡ false → IsValue p v → IsRefused p (text p v) why → ⊥ }
    ensures value { (p : Profile) (v w : Value) → IsValid p → p.octet_aligned ≡ false → IsValue p v
        → IsRead p (text p v) w → w ≡ v }
    ensures undamaged { (view : PayloadView) (k : ℕ) → IsValid (format_of view)
        → (format_of view).octet_aligned ≡ false → is_damaged view k ≡ false }
{}

/// What is read of octets can be written, and gives as many octets, the same but for the free bits, which
/// are 0.
pub fn writes_what_was_read()
    ensures carried { (p : Profile) (v : Value) (octets : List ℕ) → IsValid p
        → p.octet_aligned ≡ false → IsRead p octets v → IsValue p v }
    ensures size { (p : Profile) (v : Value) (octets : List ℕ) → IsValid p → p.octet_aligned ≡ false
        → IsRead p octets v → length (text p v) ≡ length octets }
    ensures bits { (p : Profile) (v : Value) (octets : List ℕ) → IsValid p → p.octet_aligned ≡ false
        → IsRead p octets v → bits_of (text p v) ≡ cleared (layout p v []) (bits_of octets) }
{}
