ghost use Rattle.amr_frame.specs.declared.codec.Codec.TheVariants.{AmrWb};
ghost use Rattle.spec_packet.specs.Log.{framed};
ghost use Rattle.std.specs.List.{range_with_len};
ghost use Rattle.std.specs.Prelude.{◌++◌, ◌∷◌, ◌≡◌, [], true};
ghost use Rattle.worked_rows.specs.Words.{aligned, file, file_in, interleaved, magic, packed, rec, rtp, seven, two_channels, zeros};

/// Bandwidth-efficient payloads (RFC 4867, 4.3).
pub fn packed_payloads()
    ensures empty_log { file packed [] ≡ magic }
    ensures one_frame { file packed (rec 0 0 seven) ≡ magic ++ 0x3C ∷ zeros 31 }
    ensures pad_bits_set { file packed (rec 0 0 (0xF3 ∷ 0xC0 ∷ zeros 29 ++ 0x03 ∷ []))
        ≡ magic ++ 0x3C ∷ zeros 31 }
    ensures octet_too_long { file packed (rec 0 0 (seven ++ 0 ∷ [])) ≡ magic }
    ensures type_4 { file packed (rec 0 0 (0xF2 ∷ 0x40 ∷ zeros 18)) ≡ magic ++ 0x24 ∷ zeros 19 }
    ensures wideband_sid { file (record packed { codec = AmrWb }) (rec 0 0 (0xF4 ∷ 0xC0 ∷ zeros 5))
        ≡ 0x23 ∷ 0x21 ∷ 0x41 ∷ 0x4D ∷ 0x52 ∷ 0x2D ∷ 0x57 ∷ 0x42 ∷ 0x0A ∷ 0x4C ∷ zeros 5 }
    ensures two_channels_in_a_block { file (record packed { channels = 2 })
        (rec 0 0 (0xFC ∷ 0x5F ∷ zeros 5))
        ≡ two_channels ++ 0x44 ∷ zeros 5 ++ 0x7C ∷ [] }
    ensures two_blocks { file packed (rec 0 0 (0xFF ∷ 0xDF ∷ [])) ≡ magic ++ 0x7C ∷ 0x7C ∷ [] }
    ensures extended_header { file packed
        (framed (0xB1 ∷ 0x60 ∷ zeros 14 ++ 0xBE ∷ 0xDE ∷ 0x00 ∷ 0x01 ∷ zeros 4
        ++ seven ++ zeros 3 ++ 0x04 ∷ []))
        ≡ magic ++ 0x3C ∷ zeros 31 }
{}

/// Octet-aligned payloads (RFC 4867, 4.4): interleaved, with CRCs, and in the robust order.
pub fn aligned_payloads()
    ensures half_a_group { file (interleaved 4) (rec 0 0 (0xF0 ∷ 0x10 ∷ 0xC4 ∷ 0x44 ∷ zeros 10))
        ≡ magic ++ 0x44 ∷ zeros 5 ++ 0x7C ∷ 0x44 ∷ zeros 5 }
    ensures whole_group { file (interleaved 4) (rec 0 0 (0xF0 ∷ 0x10 ∷ 0xC4 ∷ 0x44 ∷ zeros 10)
        ++ rec 1 160 (0xF0 ∷ 0x11 ∷ 0xC4 ∷ 0x44 ∷ zeros 10))
        ≡ magic ++ 0x44 ∷ zeros 5 ++ 0x44 ∷ zeros 5 ++ 0x44 ∷ zeros 5 ++ 0x44 ∷ zeros 5 }
    ensures right_crc { file (record aligned { crc = true })
        (rec 0 0 (0xF0 ∷ 0x3C ∷ 0x1D ∷ zeros 10 ++ 0x80 ∷ zeros 20))
        ≡ magic ++ 0x3C ∷ zeros 10 ++ 0x80 ∷ zeros 20 }
    ensures wrong_crc { file (record aligned { crc = true })
        (rec 0 0 (0xF0 ∷ 0x3C ∷ 0x1C ∷ zeros 10 ++ 0x80 ∷ zeros 20))
        ≡ magic ++ 0x38 ∷ zeros 10 ++ 0x80 ∷ zeros 20 }
    ensures crc_of_class_a { file (record aligned { crc = true })
        (rec 0 0 (0xF0 ∷ 0x3C ∷ 0x00 ∷ zeros 10 ++ 0x40 ∷ zeros 20))
        ≡ magic ++ 0x3C ∷ zeros 10 ++ 0x40 ∷ zeros 20 }
    ensures sorted { let tail = range_with_len 105 25 ++ 0xF0 ∷ [] in
        file (record aligned { sorting = true })
        (rec 0 0 (0xF0 ∷ 0xC4 ∷ 0x3C ∷ 10 ∷ 100 ∷ 11 ∷ 101 ∷ 12 ∷ 102 ∷ 13 ∷ 103 ∷ 14 ∷ 104 ∷ tail))
        ≡ magic ++ 0x44 ∷ 10 ∷ 11 ∷ 12 ∷ 13 ∷ 14 ∷ 0x3C ∷ 100 ∷ 101 ∷ 102 ∷ 103 ∷ 104 ∷ tail }
{}

/// Where packets stand, and the frame times between them.
pub fn places_and_gaps()
    ensures gap { file packed (rec 0 0 seven ++ rec 0 480 seven)
        ≡ magic ++ 0x3C ∷ zeros 31 ++ 0x7C ∷ 0x7C ∷ 0x3C ∷ zeros 31 }
    ensures wrapped { file packed (rec 0 0xFFFF_FFC0 seven ++ rec 0 0x60 seven)
        ≡ magic ++ 0x3C ∷ zeros 31 ++ 0x3C ∷ zeros 31 }
    ensures off_the_grid { file packed (rec 0 0xFFFF_FFC0 seven ++ rec 0 0x61 seven)
        ≡ magic ++ 0x3C ∷ zeros 31 }
    ensures too_far_ahead { file packed (rec 0 0 seven ++ rec 1 7200160 seven)
        ≡ magic ++ 0x3C ∷ zeros 31 }
    ensures after_too_far { file packed (rec 0 0 seven ++ rec 1 7200160 seven ++ rec 2 160 seven)
        ≡ magic ++ 0x3C ∷ zeros 31 ++ 0x3C ∷ zeros 31 }
    ensures other_source { file packed (rec 0 0 seven ++ framed (rtp 1 160 1 seven))
        ≡ magic ++ 0x3C ∷ zeros 31 }
    ensures reordered { file_in packed 3
        (rec 2 320 (0xF1 ∷ 0x40 ∷ zeros 14) ++ rec 0 0 seven ++ rec 1 160 (0xF2 ∷ 0x40 ∷ zeros 18))
        ≡ magic ++ 0x3C ∷ zeros 31 ++ 0x24 ∷ zeros 19 ++ 0x14 ∷ zeros 15 }
    ensures late { file_in packed 1
        (rec 2 320 (0xF1 ∷ 0x40 ∷ zeros 14) ++ rec 0 0 seven ++ rec 1 160 (0xF2 ∷ 0x40 ∷ zeros 18))
        ≡ magic ++ 0x14 ∷ zeros 15 }
{}

/// The best of several copies, in whatever order they come.
pub fn copies_and_order()
    ensures best_last { file packed
        (rec 0 0 (0xF3 ∷ 0x80 ∷ zeros 30) ++ rec 0 0 (0xF4 ∷ 0x40 ∷ zeros 5)
        ++ rec 0 0 (0xF1 ∷ 0x40 ∷ zeros 14))
        ≡ magic ++ 0x14 ∷ zeros 15 }
    ensures best_first { file packed
        (rec 0 0 (0xF1 ∷ 0x40 ∷ zeros 14) ++ rec 0 0 (0xF4 ∷ 0x40 ∷ zeros 5)
        ++ rec 0 0 (0xF3 ∷ 0x80 ∷ zeros 30))
        ≡ magic ++ 0x14 ∷ zeros 15 }
    ensures greater_bits_last { file packed
        (rec 0 0 seven ++ rec 0 0 (0xF3 ∷ 0xC0 ∷ zeros 29 ++ 0x04 ∷ []))
        ≡ magic ++ 0x3C ∷ zeros 30 ++ 0x10 ∷ [] }
    ensures greater_bits_first { file packed
        (rec 0 0 (0xF3 ∷ 0xC0 ∷ zeros 29 ++ 0x04 ∷ []) ++ rec 0 0 seven)
        ≡ magic ++ 0x3C ∷ zeros 30 ++ 0x10 ∷ [] }
{}
