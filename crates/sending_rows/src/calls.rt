ghost use Rattle.sending_rows.specs.Sends.{call, five_of_eight, four_of_six, long_call, read_back, repaired, repeating, without_three};
ghost use Rattle.spec_packet.specs.Rtp.{RtpPacket};
ghost use Rattle.spec_sending.specs.Portions.{Portion};
ghost use Rattle.spec_sending.specs.Sending.{begun, carried, sendings, sent};
ghost use Rattle.std.specs.Prelude.{◌++◌, ◌∷◌, ◌≡◌, [], false, length, map, replicate, true, ℕ};
ghost use Rattle.worked_rows.specs.Words.{packed, plan};

/// How many packets a call sends, with and without those of NO_DATA alone.
pub fn calls_with_repeats()
    ensures all { length (sent repeating call) ≡ 8 }
    ensures skipped { length (sent (record repeating { skip_empty = true }) call) ≡ 6 }
    ensures begun { length (begun (record (plan packed) { blocks = 3 }) call) ≡ 2 }
    ensures long { length (sendings repeating long_call) ≡ 79 }
    ensures long_skipped { length (sendings (record repeating { skip_empty = true }) long_call)
        ≡ 73 }
{}

/// Lost packets whose blocks another packet carries leave the call as it was.
pub fn calls_repaired()
    ensures heard { repaired repeating five_of_eight call ≡ call }
    ensures read { read_back repeating five_of_eight call ≡ call }
    ensures skipped { read_back (record repeating { skip_empty = true }) four_of_six call ≡ call }
    ensures long { repaired repeating (without_three 79) long_call ≡ long_call }
{}

/// Markers, sequence numbers, timestamps, and how many blocks each packet carries. Packets that are
/// left out aren't counted; only empty blocks at the end of a packet are left out of it.
pub fn fields_of_packets()
    ensures markers { map (λ (p : RtpPacket). p.marker) (sent (plan packed) call)
        ≡ true ∷ false ∷ false ∷ false ∷ false ∷ false ∷ false ∷ true ∷ [] }
    ensures repeated_markers { map (λ (p : RtpPacket). p.marker) (sent repeating call)
        ≡ true ∷ true ∷ false ∷ false ∷ false ∷ false ∷ false ∷ false ∷ [] }
    ensures sequences { let s = record repeating { skip_empty = true; seq = 0xFFFE } in
        map (λ (p : RtpPacket). p.sequence) (sent s call)
        ≡ 0xFFFE ∷ 0xFFFF ∷ 0 ∷ 1 ∷ 2 ∷ 3 ∷ [] }
    ensures timestamps { let s = record repeating { skip_empty = true; ts = 0xFFFF_FFFF } in
        map (λ (p : RtpPacket). p.timestamp) (sent s call)
        ≡ 0xFFFF_FFFF ∷ 0xFFFF_FFFF ∷ 159 ∷ 319 ∷ 799 ∷ 959 ∷ [] }
    ensures trimmed { let s = record repeating { skip_empty = true } in
        map (λ (x : ℕ × Portion). length (carried s call x.1)) (sendings s call) ≡ 1 ∷ 2 ∷ 2
        ∷ 1 ∷ 2 ∷ 2 ∷ [] }
{}
