ghost use Rattle.std.specs.Prelude.{◌≡◌, ◌↔◌, ◌⊎◌, IsSome, List, None, Ok, ℕ};
ghost use Rattle.amr_bits.specs.Bits.{AreOctets};
ghost use Rattle.amr_frame.specs.Profiles.{IsValid};
ghost use Rattle.amr_frame.specs.declared.profile.Profile.{Profile};
ghost use Rattle.payload_laws.specs.Seen.{IsSeenAs};
ghost use Rattle.spec_payload.specs.Grammar.{IsPayload};
ghost use Rattle.spec_payload.specs.Reading.{checks_at, payload_refusal, read_as, value_at};
ghost use Rattle.spec_payload.specs.Values.{Value};

/// In each valid format, bandwidth-efficient or octet-aligned (RFC 4867, 4.3 and 4.4), with and without
/// CRCs, sorting and interleaving, the reading by places and the grammar agree, in both directions. A CRC
/// is read as the number of its octet, so where CRCs are read the list is known to be one of octets.
pub fn reads_its_grammar()
    ensures accepted { (p : Profile) (v : Value) (checks octets : List ℕ)
        → IsValid p → IsPayload p v checks octets → payload_refusal p octets ≡ None }
    ensures value { (p : Profile) (v : Value) (checks octets : List ℕ)
        → IsValid p → AreOctets octets → IsPayload p v checks octets → value_at p octets ≡ v }
    ensures checks { (p : Profile) (v : Value) (checks octets : List ℕ)
        → IsValid p → AreOctets octets → IsPayload p v checks octets → checks_at p octets ≡ checks }
    ensures only { (p : Profile) (octets : List ℕ) → IsValid p → AreOctets octets
        → payload_refusal p octets ≡ None
        → IsPayload p (value_at p octets) (checks_at p octets) octets }
{}

/// In each valid format octets are read as a value exactly where the grammar has them with a value and
/// CRCs that are seen as this value.
pub fn reads_exactly_its_grammar()
    ensures { (p : Profile) (w : Value) (octets : List ℕ)
        → IsValid p → AreOctets octets → (read_as p octets ≡ Ok w) ↔ IsSeenAs p w octets }
{}

/// In each valid format octets are either in the grammar, with the value and the CRCs that are read by
/// places, or they have a first refusal, and never both.
pub fn is_read_or_refused()
    ensures either { (p : Profile) (octets : List ℕ) → IsValid p → AreOctets octets
        → IsPayload p (value_at p octets) (checks_at p octets) octets
        ⊎ IsSome (payload_refusal p octets) }
    ensures never_both { (p : Profile) (v : Value) (checks octets : List ℕ)
        → IsValid p → IsPayload p v checks octets → IsSome (payload_refusal p octets) → ⊥ }
{}
