ghost use Rattle.amr_frame.specs.declared.profile.Profile.{Profile};
ghost use Rattle.order_laws.specs.Order.{AllInTime, HaveTheSame, HaveWholeBlocks};
ghost use Rattle.spec_record.specs.Recording.{Recording, file_of, heard};
ghost use Rattle.spec_session.specs.Packets.{packets_of};
ghost use Rattle.spec_session.specs.Session.{rules_of};
ghost use Rattle.std.specs.Prelude.{◌≡◌, List, Option, ℕ};

/// The packets among records have whole blocks, whatever the records are.
pub fn records_hold_whole_blocks()
    ensures { (p : Profile) (asked : Option ℕ) (window reach : ℕ) (records : List (List ℕ))
        → HaveWholeBlocks (rules_of p window reach) (packets_of p asked records) }
{}

/// The same records in any order and with any repeats give the same file, where in both orders each
/// well-formed packet is accepted, no block is late, and the places span less than 2^31 ticks.
pub fn another_order_is_recorded_the_same()
    ensures { (r : Recording) (window reach : ℕ) (records others : List (List ℕ))
        → r.rules ≡ rules_of r.profile window reach → HaveTheSame records others
        → AllInTime r.rules (heard r records) → AllInTime r.rules (heard r others)
        → file_of r records ≡ file_of r others }
{}
