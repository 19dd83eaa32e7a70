ghost use Rattle.amr_frame.specs.declared.codec.Codec.TheVariants.{Amr, AmrWb};
ghost use Rattle.spec_store.specs.StorageFile.{header, storage_file};
ghost use Rattle.spec_store.specs.StorageGrammar.{IsFileBy, Single};
ghost use Rattle.spec_store.specs.StorageReading.{blocks_in, store_refusal};
ghost use Rattle.refusals.specs.declared.store.StoreRefusal.TheVariants as why;
ghost use Rattle.std.specs.Prelude.{◌++◌, ◌∷◌, ◌≡◌, None, Some, []};
ghost use Rattle.worked_rows.specs.Words.{magic, two_channels, zeros};

/// The headers of storage files (RFC 4867, 5.1 and 5.2).
pub fn headers()
    ensures one { header Amr 1 ≡ magic }
    ensures two { header Amr 2 ≡ two_channels }
    ensures wideband { header AmrWb 1
        ≡ 0x23 ∷ 0x21 ∷ 0x41 ∷ 0x4D ∷ 0x52 ∷ 0x2D ∷ 0x57 ∷ 0x42 ∷ 0x0A ∷ [] }
{}

/// A file is that of the blocks that it is read as; P and fill bits are ignored.
pub fn stored_frames()
    ensures read_back { let file = magic ++ 0x3C ∷ zeros 31 ++ 0x44 ∷ zeros 5 in
        storage_file Amr 1 (blocks_in Amr 1 file) ≡ file }
    ensures free_bits { let file = magic ++ 0xC7 ∷ zeros 4 ++ 0x01 ∷ [] in
        storage_file Amr 1 (blocks_in Amr 1 file) ≡ magic ++ 0x44 ∷ zeros 5 }
    ensures layout { let file = magic ++ 0xC7 ∷ zeros 4 ++ 0x01 ∷ [] in
        IsFileBy Amr 1 Single (blocks_in Amr 1 file) file }
{}

/// The first unit of a file that is at fault.
pub fn refused_files()
    ensures t1_short { store_refusal Amr 1 (0x23 ∷ 0x21 ∷ 0x41 ∷ 0x4D ∷ 0x52 ∷ [])
        ≡ Some why.Magic }
    ensures t1_other_codec { store_refusal Amr 1 (header AmrWb 1) ≡ Some why.Magic }
    ensures t2 { store_refusal Amr 1 (two_channels ++ 0x44 ∷ zeros 5 ++ 0x7C ∷ [])
        ≡ Some (why.Channels 2) }
    ensures t3 { store_refusal Amr 1 (magic ++ 0x4C ∷ []) ≡ Some (why.Reserved 6 9) }
    ensures t4 { store_refusal Amr 1 (magic ++ 0x3C ∷ 0x00 ∷ []) ≡ Some (why.Truncated 6) }
    ensures t5 { store_refusal Amr 2 (two_channels ++ 0x7C ∷ []) ≡ Some (why.BlockRest 16) }
    ensures none { store_refusal Amr 2 (two_channels ++ 0x7C ∷ 0x7C ∷ []) ≡ None }
{}
