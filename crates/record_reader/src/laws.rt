// Laws of records, each the contract of a function that does nothing.
ghost use Rattle.amr_bits.specs.Bits.{AreOctets};
ghost use Rattle.spec_packet.specs.Log as log;
ghost use Rattle.spec_packet.specs.Records.{IsCut, cut};
ghost use Rattle.std.specs.Prelude.{◌≡◌, ◌+◌, ◌≤◌, List, ℕ, drop, map};

/// Octets are in exactly one way records and less than a record behind them, wherever in its head
/// the length of a record stands.
pub fn octets_have_one_cut()
    ensures exists { (head at : ℕ) (octets : List ℕ) → at + 2 ≤ head → AreOctets octets
        → IsCut head at octets (cut head at octets).records (cut head at octets).rest }
    ensures unique { (head at : ℕ) (octets : List ℕ) (records : List (List ℕ)) (rest : List ℕ)
        → at + 2 ≤ head
        → IsCut head at octets records rest
        → ((cut head at octets).records ≡ records) × ((cut head at octets).rest ≡ rest) }
{}

/// Octets are in exactly one way a log of packets and less than a record behind it (RFC 4571, 2).
/// Its packets are those of the records with a head of 2 octets and the length at octet 0.
pub fn a_log_has_one_cut()
    ensures exists { (octets : List ℕ) → AreOctets octets
        → log.IsCut octets (log.cut octets).packets (log.cut octets).rest }
    ensures unique { (octets : List ℕ) (packets : List (List ℕ)) (rest : List ℕ)
        → log.IsCut octets packets rest
        → ((log.cut octets).packets ≡ packets) × ((log.cut octets).rest ≡ rest) }
    ensures packets { (octets : List ℕ)
        → (log.cut octets).packets ≡ map (drop 2) (cut 2 0 octets).records }
    ensures rest { (octets : List ℕ) → (log.cut octets).rest ≡ (cut 2 0 octets).rest }
{}
