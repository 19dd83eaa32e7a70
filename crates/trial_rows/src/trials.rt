ghost use Rattle.spec_trial.specs.Delivery.{Held, Lost, Once, Twice, fates};
ghost use Rattle.spec_trial.specs.Draws.{after, drawn};
ghost use Rattle.spec_trial.specs.Trials.{summary};
ghost use Rattle.std.specs.Prelude.{◌++◌, ◌/◌, ◌∷◌, ◌≡◌, ◌^◌, [], codes};
ghost use Rattle.trial_rows.specs.Words.{five, line, one_held, trial, types};

/// The first draw of the number 0.
pub fn draws()
    ensures state { after 0 1 ≡ 0x1405_7B7E_F767_814F }
    ensures upper_bits { after 0 1 / 2 ^ 33 ≡ 0x0A02_BDBF }
    ensures sixteen { drawn (after 0 1) 16 ≡ 15 }
{}

/// What becomes of packets.
pub fn deliveries()
    ensures held { line (1 ∷ 2 ∷ 3 ∷ []) (Held ∷ Once ∷ Once ∷ []) ≡ one_held (2 ∷ 1 ∷ 3 ∷ []) }
    ensures held_behind_two { line (1 ∷ 2 ∷ 3 ∷ []) (Held ∷ Twice ∷ Once ∷ [])
        ≡ record (one_held (2 ∷ 2 ∷ 1 ∷ 3 ∷ [])) { doubled = 1 } }
    ensures stays_held { line (1 ∷ 2 ∷ 3 ∷ []) (Held ∷ Lost ∷ Once ∷ [])
        ≡ record (one_held (3 ∷ 1 ∷ [])) { lost = 1 } }
    ensures one_at_a_time { line (1 ∷ 2 ∷ 3 ∷ []) (Held ∷ Held ∷ Held ∷ [])
        ≡ record (one_held (2 ∷ 1 ∷ 3 ∷ [])) { held = 2 } }
    ensures at_the_end { line (1 ∷ 2 ∷ []) (Once ∷ Held ∷ []) ≡ one_held (1 ∷ 2 ∷ []) }
{}

/// A trial of no block: the file is its header.
pub fn empty_trials()
    ensures summary { summary (trial 0 0)
        ≡ codes "made=0 sent=0 lost=0 doubled=0 held=0\n"
        ++ codes "packets=0 null=0 rtp=0 type=0 payload=0 place=0 late=0 copies=0 blocks=0\n"
        ++ codes "file=6 sum=302\n" }
    ensures any_number { summary (trial 0 7) ≡ summary (trial 0 0) }
{}

/// A trial of five blocks: packet 0 is held and delivered behind packet 1, which is delivered
/// twice, and packet 2 is lost.
pub fn five_blocks()
    ensures types { types five ≡ (0 ∷ []) ∷ (1 ∷ []) ∷ (15 ∷ []) ∷ (4 ∷ []) ∷ (8 ∷ []) ∷ [] }
    ensures fates { fates 4410 5 ≡ Held ∷ Twice ∷ Lost ∷ Once ∷ Once ∷ [] }
    ensures summary { summary five
        ≡ codes "made=5 sent=5 lost=1 doubled=1 held=1\n"
        ++ codes "packets=5 null=0 rtp=0 type=0 payload=0 place=0 late=0 copies=1 blocks=5\n"
        ++ codes "file=60 sum=6367\n" }
{}
