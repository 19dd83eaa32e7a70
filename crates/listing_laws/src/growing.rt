ghost use Rattle.spec_listing.specs.Listing.{Listing, listing};
ghost use Rattle.spec_run.specs.Meanings.{IsPrefix};
ghost use Rattle.std.specs.Prelude.{◌++◌, List, ℕ};

/// The listing of some records is a front of that of more: a line depends on no record behind its
/// own, and once out it stays.
pub fn a_listing_grows()
    ensures { (l : Listing) (records more : List (List ℕ))
        → IsPrefix (listing l records) (listing l (records ++ more)) }
{}
