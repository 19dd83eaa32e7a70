// What readers and writers hold of one another and of the definitions: each law is the contract of
// a function that does nothing.
ghost use Rattle.std.specs.Prelude.{◌≡◌, ◌↔◌, List, None, Ok, ℕ};
ghost use Rattle.rtp_packet.specs.declared.next.Next.{Next};
ghost use Rattle.rtp_packet.specs.Cause.{Tells, IsSameAnswer};
ghost use Rattle.amr_bits.specs.Bits.{AreOctets};
ghost use Rattle.rtp_packet.specs.Fields.{AreFields, IsPaddedByZeros};
ghost use Rattle.rtp_packet.specs.Written.{written};
ghost use Rattle.spec_packet.specs.Rtp.{IsPacket, RtpPacket};
ghost use Rattle.spec_packet.specs.RtpReading.{rtp_of, rtp_refusal, packet_at};

/// Octets and what the limit allows of them are the cause of one answer: so each comes exactly where
/// its cause holds.
pub fn octets_tell_one_answer()
    ensures { (octets : List ℕ) (room : ℕ) (next other : Next) → Tells octets room next
        → Tells octets room other → IsSameAnswer next other }
{}

/// Reading what is written gives the same packet (RFC 3550, 5.1): each packet whose fields fit their
/// places.
pub fn reads_what_is_written()
    ensures { (p : RtpPacket) → AreFields p → rtp_of (written p) ≡ Ok p }
{}

/// Writing what is read gives the same octets, where the padding octets but the last are 0 (RFC
/// 3550, 5.1).
pub fn writes_what_is_read()
    ensures { (octets : List ℕ) → AreOctets octets → rtp_refusal octets ≡ None
        → IsPaddedByZeros octets → written (packet_at octets) ≡ octets }
{}

/// Octets are a packet of the grammar exactly where no rule for reading them is broken, and then with
/// one value of the fields, which is the one that is read (RFC 3550, 5.1 and 5.3.1).
pub fn reads_its_grammar()
    ensures accepted { (p : RtpPacket) (octets : List ℕ) → AreOctets octets → IsPacket p octets
        → rtp_refusal octets ≡ None }
    ensures fields { (p : RtpPacket) (octets : List ℕ) → AreOctets octets → IsPacket p octets
        → packet_at octets ≡ p }
    ensures only { (octets : List ℕ) → AreOctets octets → rtp_refusal octets ≡ None
        → IsPacket (packet_at octets) octets }
    ensures exact { (p : RtpPacket) (octets : List ℕ) → AreOctets octets
        → (rtp_of octets ≡ Ok p) ↔ IsPacket p octets }
    ensures one { (p q : RtpPacket) (octets : List ℕ) → AreOctets octets → IsPacket p octets
        → IsPacket q octets → p ≡ q }
{}
