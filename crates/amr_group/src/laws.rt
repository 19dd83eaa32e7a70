// Laws of groups, each the contract of a function that does nothing.
ghost use Rattle.std.specs.Prelude.{◌≡◌, ◌≤◌, ℕ};
ghost use Rattle.spec_sending.specs.Groups.{GroupPlace, IsGroupPlace, block_at_place};

/// Each block is in exactly one packet of one group, and there once.
pub fn each_block_is_in_one_packet()
    ensures some { (n l m : ℕ) → 1 ≤ n → 1 ≤ l
        → (p : GroupPlace) × IsGroupPlace n l p × (block_at_place n l p ≡ m) }
    ensures alone { (n l : ℕ) (p q : GroupPlace) → IsGroupPlace n l p → IsGroupPlace n l q
        → block_at_place n l p ≡ block_at_place n l q → p ≡ q }
{}
