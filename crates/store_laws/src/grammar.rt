ghost use Rattle.amr_bits.specs.Bits.{AreOctets};
ghost use Rattle.amr_frame.specs.Frames.{Frame, IsBlock};
ghost use Rattle.amr_frame.specs.declared.codec.Codec.{Codec};
ghost use Rattle.spec_store.specs.StorageFile.{storage_file};
ghost use Rattle.spec_store.specs.StorageGrammar.{IsFile};
ghost use Rattle.std.specs.List.{AllByRecursion};
ghost use Rattle.spec_store.specs.StorageReading.{blocks_in, store_refusal};
ghost use Rattle.std.specs.Prelude.{◌≡◌, ◌≤◌, ◌<◌, List, None, ℕ};

/// A file in the grammar of storage files is not refused, and its blocks are the grammar's (RFC
/// 4867, 5).
pub fn reads_the_grammar()
    ensures { (codec : Codec) (channels : ℕ) (blocks : List (List Frame)) (file : List ℕ)
        → 1 ≤ channels → channels < 16 → AreOctets file → IsFile codec channels blocks file
        → (store_refusal codec channels file ≡ None) × (blocks_in codec channels file ≡ blocks) }
{}

/// A file that is not refused is in the grammar, with the blocks that are read.
pub fn reads_exactly_the_grammar()
    ensures { (codec : Codec) (channels : ℕ) (file : List ℕ) → 1 ≤ channels
        → store_refusal codec channels file ≡ None
        → IsFile codec channels (blocks_in codec channels file) file }
{}

/// A storage file as it is written is in the grammar, with the blocks that it was written for.
pub fn what_is_written_is_read()
    ensures file { (codec : Codec) (channels : ℕ) (blocks : List (List Frame)) → channels < 16
        → AllByRecursion (IsBlock codec channels) blocks
        → IsFile codec channels blocks (storage_file codec channels blocks) }
    ensures read { (codec : Codec) (channels : ℕ) (blocks : List (List Frame)) → 1 ≤ channels
        → channels < 16 → AllByRecursion (IsBlock codec channels) blocks
        → (store_refusal codec channels (storage_file codec channels blocks) ≡ None)
        × (blocks_in codec channels (storage_file codec channels blocks) ≡ blocks) }
{}
