ghost use Rattle.std.specs.Prelude.{◌≡◌, false, true, ℕ};
ghost use Rattle.amr_frame.specs.declared.profile.Profile.{Profile};
ghost use Rattle.amr_frame.specs.Profiles.{IsValid};
ghost use Rattle.amr_toc.specs.declared.view.PayloadView.{PayloadView};
ghost use Rattle.amr_toc.specs.Told.{IsRead, IsRefused};
ghost use Rattle.amr_toc.specs.Viewed.{format_of, is_damaged, octets_of};
ghost use Rattle.spec_payload.specs.Grammar.{text};
ghost use Rattle.spec_payload.specs.Values.{IsValue, Value};
ghost use Rattle.spec_payload.specs.declared.refusal.PayloadRefusal.{PayloadRefusal};

/// The canonical octets of a value in an octet-aligned format aren't refused, and what is read of them is
/// the value. No frame of a view of them is damaged.
pub fn reads_what_was_written()
    ensures accepted { (p : Profile) (v : Value) (why : PayloadRefusal) → IsValid p
        → p.octet_aligned ≡ true → IsValue p v → IsRefused p (text p v) why → ⊥ }
    ensures value { (p : Profile) (v w : Value) → IsValid p → p.octet_aligned ≡ true → IsValue p v
        → IsRead p (text p v) w → w ≡ v }
    ensures undamaged { (view : PayloadView) (v : Value) (k : ℕ) → IsValid (format_of view)
        → (format_of view).octet_aligned ≡ true → IsValue (format_of view) v
        → octets_of view ≡ text (format_of view) v → is_damaged view k ≡ false }
{}
