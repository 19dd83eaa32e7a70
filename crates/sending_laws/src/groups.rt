ghost use Rattle.spec_sending.specs.Groups.{GroupPlace, IsGroupPlace, block_at_place, place_of_block};
ghost use Rattle.spec_sending.specs.Portions.{turn_at};
ghost use Rattle.spec_sending.specs.declared.plan.SendPlan.{SendPlan};
ghost use Rattle.std.specs.Prelude.{◌≡◌, ◌≤◌, ◌+◌, ◌*◌, ◌/◌, ◌%◌, ℕ};

/// In groups of l packets of n blocks each place has its block and each block its place, so that
/// every block is in exactly one packet (RFC 4867, 4.4.1).
pub fn places_and_blocks_are_inverse()
    ensures there { (n l : ℕ) (p : GroupPlace) → IsGroupPlace n l p
        → place_of_block n l (block_at_place n l p) ≡ p }
    ensures back { (n l m : ℕ) → 1 ≤ n → 1 ≤ l → block_at_place n l (place_of_block n l m) ≡ m }
    ensures is_place { (n l m : ℕ) → 1 ≤ n → 1 ≤ l → IsGroupPlace n l (place_of_block n l m) }
{}

/// Block k of packet i of all whole groups is the one at that place: packet i % l of group i / l.
pub fn packets_carry_their_places()
    ensures { (s : SendPlan) (i k : ℕ) → (turn_at s i).first + k * (turn_at s i).stride
        ≡ block_at_place s.blocks s.length
        (record { group = i / s.length; packet = i % s.length; block = k }) }
{}
