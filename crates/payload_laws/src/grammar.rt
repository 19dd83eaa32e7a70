ghost use Rattle.std.specs.Prelude.{◌≡◌, List, ℕ};
ghost use Rattle.amr_frame.specs.Profiles.{IsValid};
ghost use Rattle.amr_frame.specs.declared.profile.Profile.{Profile};
ghost use Rattle.spec_payload.specs.Grammar.{IsPayload};
ghost use Rattle.spec_payload.specs.Values.{Value};

/// The grammar of payloads is unambiguous in each valid format, bandwidth-efficient or octet-aligned,
/// with and without CRCs, sorting and interleaving: octets have at most one value and at most one list
/// of CRCs.
pub fn has_one_value()
    ensures value { (p : Profile) (v w : Value) (checks others octets : List ℕ) → IsValid p
        → IsPayload p v checks octets → IsPayload p w others octets → v ≡ w }
    ensures checks { (p : Profile) (v w : Value) (checks others octets : List ℕ) → IsValid p
        → IsPayload p v checks octets → IsPayload p w others octets → checks ≡ others }
{}
