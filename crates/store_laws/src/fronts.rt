ghost use Rattle.amr_frame.specs.Frames.{Frame};
ghost use Rattle.amr_frame.specs.declared.codec.Codec.{Codec};
ghost use Rattle.spec_store.specs.StorageReading.{blocks_in, shown_refusal, store_refusal};
ghost use Rattle.refusals.specs.declared.store.StoreRefusal.{StoreRefusal};
ghost use Rattle.std.specs.Prelude.{◌++◌, ◌≡◌, ◌≤◌, List, Some, ℕ};

/// What the front of a file shows is why the whole file is refused, whatever follows the front.
pub fn what_is_shown_stays()
    ensures { (codec : Codec) (channels : ℕ) (file more : List ℕ) (why : StoreRefusal)
        → shown_refusal codec channels file ≡ Some why
        → store_refusal codec channels (file ++ more) ≡ Some why }
{}

/// The whole blocks of the front of a file are a front of those of the whole file.
pub fn whole_blocks_stay()
    ensures { (codec : Codec) (channels : ℕ) (file more : List ℕ) → 1 ≤ channels
        → (rest : List (List Frame))
        × (blocks_in codec channels (file ++ more) ≡ blocks_in codec channels file ++ rest) }
{}
