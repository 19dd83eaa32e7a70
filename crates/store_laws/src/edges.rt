// A file that isn't refused, and what stands behind it.
ghost use Rattle.amr_frame.specs.declared.codec.Codec.{Codec};
ghost use Rattle.spec_store.specs.StorageReading.{blocks_in, cut_refusal, frame_in, shown_refusal, store_refusal, unit_type};
ghost use Rattle.amr_frame.specs.First.{first, when};
ghost use Rattle.amr_frame.specs.Tables.{is_reserved};
ghost use Rattle.refusals.specs.declared.store.StoreRefusal.TheVariants as why;
ghost use Rattle.std.specs.Prelude.{◌++◌, ◌∷◌, ◌≡◌, ◌≤◌, ◌<◌, ◌+◌, [], length, List, map, nat_lt, true, None, Some, ℕ};
ghost use Rattle.store_laws.specs.Units.{AreUnits, IsPart};

/// Behind a file that isn't refused, as many whole frames as there are channels make a file that
/// isn't refused, with one block more, which has these frames.
pub fn a_block_behind_a_file_is_read()
    ensures { (codec : Codec) (channels : ℕ) (file block : List ℕ) (units : List (List ℕ))
        → 1 ≤ channels → store_refusal codec channels file ≡ None → AreUnits codec units block
        → length units ≡ channels
        → (store_refusal codec channels (file ++ block) ≡ None)
        × (blocks_in codec channels (file ++ block)
        ≡ blocks_in codec channels file ++ map (frame_in codec) units ∷ []) }
{}

/// Behind a file that isn't refused, fewer whole frames than there are channels and less than a frame
/// show no refusal and make no block. Where the file ends there, it ends inside the frame, or else
/// inside the block, at the place where that begins.
pub fn a_part_of_a_block_shows_nothing()
    ensures shown { (codec : Codec) (channels : ℕ) (file block rest : List ℕ)
        → (units : List (List ℕ)) → store_refusal codec channels file ≡ None
        → AreUnits codec units block → IsPart codec rest
        → shown_refusal codec channels (file ++ (block ++ rest)) ≡ None }
    ensures blocks { (codec : Codec) (channels : ℕ) (file block rest : List ℕ)
        → (units : List (List ℕ)) → 1 ≤ channels → store_refusal codec channels file ≡ None
        → AreUnits codec units block → length units < channels → IsPart codec rest
        → blocks_in codec channels (file ++ (block ++ rest)) ≡ blocks_in codec channels file }
    ensures end { (codec : Codec) (channels : ℕ) (file block rest : List ℕ)
        → (units : List (List ℕ)) → 1 ≤ channels → store_refusal codec channels file ≡ None
        → AreUnits codec units block → length units < channels → IsPart codec rest
        → cut_refusal codec channels (file ++ (block ++ rest))
        ≡ first (when (nat_lt 0 (length rest)) (why.Truncated (length file + length block))
        ∷ when (nat_lt 0 (length units)) (why.BlockRest (length file)) ∷ []) }
{}

/// Behind a file that isn't refused and whole frames of types that there are, an octet that begins a
/// frame of a reserved type shows that refusal, with its place, whatever follows.
pub fn a_reserved_type_is_named_at_its_place()
    ensures { (codec : Codec) (channels : ℕ) (file block more : List ℕ)
        → (units : List (List ℕ)) (octet : ℕ) → store_refusal codec channels file ≡ None
        → AreUnits codec units block → is_reserved codec (unit_type (octet ∷ [])) ≡ true
        → shown_refusal codec channels (file ++ (block ++ octet ∷ more))
        ≡ Some (why.Reserved (length file + length block) (unit_type (octet ∷ []))) }
{}
