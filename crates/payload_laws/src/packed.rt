ghost use Rattle.std.specs.Prelude.{◌≡◌, ◌↔◌, ◌⊎◌, IsSome, List, None, Ok, [], false, ℕ};
ghost use Rattle.amr_frame.specs.Profiles.{IsValid};
ghost use Rattle.amr_frame.specs.declared.profile.Profile.{Profile};
ghost use Rattle.spec_payload.specs.Grammar.{IsPayload};
ghost use Rattle.spec_payload.specs.Reading.{payload_refusal, read_as, value_at};
ghost use Rattle.spec_payload.specs.Values.{Value};

/// The reading by places and the grammar of bandwidth-efficient payloads (RFC 4867, 4.3) agree, in both
/// directions. They carry no CRC, so this holds of any numbers.
pub fn reads_packed_grammar()
    ensures accepted { (p : Profile) (v : Value) (checks octets : List ℕ) → IsValid p
        → p.octet_aligned ≡ false → IsPayload p v checks octets → payload_refusal p octets ≡ None }
    ensures value { (p : Profile) (v : Value) (checks octets : List ℕ) → IsValid p
        → p.octet_aligned ≡ false → IsPayload p v checks octets → value_at p octets ≡ v }
    ensures only { (p : Profile) (octets : List ℕ) → IsValid p → p.octet_aligned ≡ false
        → payload_refusal p octets ≡ None → IsPayload p (value_at p octets) [] octets }
{}

/// Octets are read as a value exactly where the bandwidth-efficient grammar has them with that value.
pub fn reads_exactly_packed_grammar()
    ensures { (p : Profile) (v : Value) (octets : List ℕ) → IsValid p → p.octet_aligned ≡ false
        → (read_as p octets ≡ Ok v) ↔ IsPayload p v [] octets }
{}

/// Octets are either in the bandwidth-efficient grammar, with the value that is read by places, or they
/// have a first refusal, and never both.
pub fn packed_is_read_or_refused()
    ensures either { (p : Profile) (octets : List ℕ) → IsValid p → p.octet_aligned ≡ false
        → IsPayload p (value_at p octets) [] octets ⊎ IsSome (payload_refusal p octets) }
    ensures never_both { (p : Profile) (v : Value) (checks octets : List ℕ) → IsValid p
        → p.octet_aligned ≡ false → IsPayload p v checks octets → IsSome (payload_refusal p octets)
        → ⊥ }
{}
