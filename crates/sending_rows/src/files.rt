ghost use Rattle.amr_frame.specs.declared.codec.Codec.TheVariants.{Amr, AmrWb};
ghost use Rattle.amr_frame.specs.Frames.{no_data};
ghost use Rattle.sending_rows.specs.Sends.{blocks, multi_magic, silence, small_file, small_pair, stored_silence};
ghost use Rattle.spec_store.specs.StorageFile.{header};
ghost use Rattle.spec_store.specs.StorageGrammar.{IsFileBy, Multi, Single};
ghost use Rattle.spec_store.specs.StorageReading.{blocks_in, shown_refusal, store_refusal};
ghost use Rattle.refusals.specs.declared.store.StoreRefusal.TheVariants as why;
ghost use Rattle.std.specs.List.{range_with_len};
ghost use Rattle.std.specs.Prelude.{◌++◌, ◌∷◌, ◌≡◌, List, None, Some, [], length, map, replicate, take, ℕ};
ghost use Rattle.worked_rows.specs.Words.{magic, two_channels, zeros};

/// Octets in the grammar of files: P and fill bits are free, and so are 28 bits of the channel
/// description; the multichannel magic number may stand before one channel (RFC 4867, 5.1 to 5.3).
pub fn free_places()
    ensures one_channel { IsFileBy Amr 1 Single (blocks (silence ∷ []))
        (magic ++ 0xC7 ∷ zeros 4 ++ 0x01 ∷ []) }
    ensures description { IsFileBy Amr 2 Multi ((silence ∷ no_data ∷ []) ∷ [])
        (multi_magic ++ 0xFF ∷ 0xFF ∷ 0xFF ∷ 0xF2 ∷ stored_silence ++ 0x7C ∷ []) }
    ensures described { store_refusal Amr 2
        (multi_magic ++ 0xFF ∷ 0xFF ∷ 0xFF ∷ 0xF2 ∷ stored_silence ++ 0x7C ∷ []) ≡ None }
    ensures multi_of_one { IsFileBy Amr 1 Multi (blocks (no_data ∷ []))
        (multi_magic ++ 0 ∷ 0 ∷ 0 ∷ 1 ∷ 0x7C ∷ []) }
    ensures read_as_one { blocks_in Amr 1 (multi_magic ++ 0 ∷ 0 ∷ 0 ∷ 1 ∷ 0x7C ∷ [])
        ≡ blocks (no_data ∷ []) }
{}

/// A file cut behind each of its octets: inside the magic number, the description, a frame, or a
/// block.
pub fn cut_files()
    ensures one_channel { map (λ k. store_refusal Amr 1 (take k small_file)) (range_with_len 0 14)
        ≡ replicate 6 (Some why.Magic) ++ None
        ∷ replicate 5 (Some (why.Truncated 6)) ++ None ∷ None ∷ [] }
    ensures blocks { map (λ k. length (blocks_in Amr 1 (take k small_file))) (range_with_len 0 14)
        ≡ replicate 12 0 ++ 1 ∷ 2 ∷ [] }
    ensures two_channels { map (λ k. store_refusal Amr 2 (take k small_pair)) (range_with_len 0 24)
        ≡ replicate 12 (Some why.Magic) ++ replicate 4 (Some (why.Truncated 12)) ++ None
        ∷ replicate 5 (Some (why.Truncated 16)) ++ Some (why.BlockRest 16) ∷ None ∷ [] }
    ensures nothing_shown { map (λ k. shown_refusal Amr 2 (take k small_pair)) (range_with_len 0 24)
        ≡ replicate 24 None }
    ensures wideband_description { store_refusal AmrWb 2 (take 17 (header AmrWb 2))
        ≡ Some (why.Truncated 15) }
{}

/// What octets show whatever follows them, and what only their end tells.
pub fn files_that_show_a_fault()
    ensures other_octet { shown_refusal Amr 1 (0x24 ∷ []) ≡ Some why.Magic }
    ensures front_of_a_magic { shown_refusal Amr 1 (take 8 two_channels) ≡ None }
    ensures other_magic { shown_refusal Amr 1 (take 6 (header AmrWb 1)) ≡ Some why.Magic }
    ensures single_for_two { shown_refusal Amr 2 magic ≡ Some (why.Channels 1) }
    ensures description { shown_refusal Amr 1 two_channels ≡ Some (why.Channels 2) }
    ensures no_channel { shown_refusal Amr 1 (take 15 two_channels ++ 0xF0 ∷ [])
        ≡ Some (why.Channels 0) }
    ensures reserved { shown_refusal Amr 1 (magic ++ 0x7C ∷ 0x4C ∷ []) ≡ Some (why.Reserved 7 9) }
    ensures inside_a_frame { shown_refusal Amr 1 (magic ++ 0x3C ∷ 0x00 ∷ []) ≡ None }
    ensures first_of_two { store_refusal Amr 1 (magic ++ 0x7C ∷ 0x4C ∷ 0x3C ∷ [])
        ≡ Some (why.Reserved 7 9) }
{}

/// The whole blocks before the first unit at fault: none where the header is at fault.
pub fn blocks_before_a_fault()
    ensures other_channels { blocks_in Amr 1 small_pair ≡ [] }
    ensures other_codec { blocks_in Amr 1 (header AmrWb 1 ++ 0x7C ∷ []) ≡ [] }
    ensures reserved { blocks_in Amr 1 (magic ++ stored_silence ++ 0x4C ∷ 0x7C ∷ [])
        ≡ blocks (silence ∷ []) }
    ensures reserved_in_a_block { blocks_in Amr 2 (two_channels ++ 0x7C ∷ 0x4C ∷ 0x7C ∷ []) ≡ [] }
    ensures cut_in_a_block { blocks_in Amr 2 (two_channels ++ 0x7C ∷ 0x7C ∷ 0x7C ∷ [])
        ≡ (no_data ∷ no_data ∷ []) ∷ [] }
{}
