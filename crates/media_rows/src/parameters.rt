ghost use Rattle.amr_frame.specs.declared.codec.Codec.TheVariants.{Amr, AmrWb};
ghost use Rattle.media_rows.specs.Words.{aligned, every, plain};
ghost use Rattle.spec_media.specs.Printing.{printed};
ghost use Rattle.spec_media.specs.Reading.{parameters_of};
ghost use Rattle.refusals.specs.declared.param.Param.TheVariants as param;
ghost use Rattle.refusals.specs.declared.media.FmtpRefusal.TheVariants as why;
ghost use Rattle.std.specs.Prelude.{◌++◌, ◌∷◌, ◌≡◌, Err, Ok, Some, [], codes, true};

/// Texts of media parameters that are read (RFC 4867, 8.1 and 8.2), and what they give.
pub fn accepted_parameters()
    ensures empty { parameters_of Amr [] ≡ Ok plain }
    ensures empty_piece { parameters_of Amr (codes " ; ") ≡ Ok plain }
    ensures capital_and_spaced { parameters_of Amr (codes "CRC = 1")
        ≡ Ok (record aligned { crc = true }) }
    ensures wideband_mode { parameters_of AmrWb (codes "mode-set=8")
        ≡ Ok (record plain { modes = Some (8 ∷ []) }) }
    ensures a_set { parameters_of Amr (codes "mode-set=7,0,0")
        ≡ Ok (record plain { modes = Some (0 ∷ 7 ∷ []) }) }
    ensures alignment_off { parameters_of Amr (codes "octet-align=0; crc=0") ≡ Ok plain }
    ensures unknown { parameters_of Amr (codes "foo; foo=2; max-red=65535")
        ≡ Ok (record plain { max_red = Some 65535 }) }
    ensures leading_zeros { parameters_of Amr (codes "interleaving=00008")
        ≡ Ok (record aligned { interleaving = Some 8 }) }
    ensures all { parameters_of Amr (codes "octet-align=1; mode-set=0,2 ,\t5; "
        ++ codes "mode-change-period=2; mode-change-capability=2; mode-change-neighbor=1; "
        ++ codes "crc=1; robust-sorting=1; interleaving=30; max-red=40")
        ≡ Ok (every 40) }
{}

/// Values that a parameter doesn't have.
pub fn refused_values()
    ensures f2_no_value { parameters_of Amr (codes "crc") ≡ Err (why.BadValue param.Crc) }
    ensures f2_mode { parameters_of Amr (codes "mode-set=8") ≡ Err (why.BadValue param.ModeSet) }
    ensures f2_no_mode { parameters_of Amr (codes "mode-set=0,")
        ≡ Err (why.BadValue param.ModeSet) }
    ensures f2_below { parameters_of Amr (codes "interleaving=0")
        ≡ Err (why.BadValue param.Interleaving) }
    ensures f2_above { parameters_of Amr (codes "max-red=65536") ≡ Err (why.BadValue param.MaxRed) }
    ensures f2_six_digits { parameters_of Amr (codes "max-red=000001")
        ≡ Err (why.BadValue param.MaxRed) }
{}

/// Texts of media parameters that are refused, each by the first rule that it breaks.
pub fn refused_parameters()
    ensures f1 { parameters_of Amr (codes "=1") ≡ Err why.NoName }
    ensures f2_before_f3 { parameters_of Amr (codes "crc=0; crc=2") ≡ Err (why.BadValue param.Crc) }
    ensures f3 { parameters_of Amr (codes "crc=0; crc=1") ≡ Err (why.Repeated param.Crc) }
    ensures f3_other_case { parameters_of Amr (codes "crc=0; CRC=0")
        ≡ Err (why.Repeated param.Crc) }
    ensures leftmost_first { parameters_of Amr (codes "crc=9; =1") ≡ Err (why.BadValue param.Crc) }
    ensures leftmost_f1 { parameters_of Amr (codes "=1; crc=9") ≡ Err why.NoName }
    ensures f4 { parameters_of Amr (codes "crc=1; octet-align=0") ≡ Err why.Contradiction }
    ensures f4_of_groups { parameters_of Amr (codes "octet-align=0; interleaving=4")
        ≡ Err why.Contradiction }
{}

/// Media parameters as they are printed: none at its default, in the order of the table.
pub fn printed_parameters()
    ensures defaults { printed plain ≡ [] }
    ensures aligned { printed aligned ≡ codes "octet-align=1" }
    ensures of_groups { printed (record aligned { interleaving = Some 8 })
        ≡ codes "octet-align=1; interleaving=8" }
    ensures all { printed (every 0)
        ≡ codes "octet-align=1; mode-set=0,2,5; mode-change-period=2; mode-change-capability=2; "
        ++ codes "mode-change-neighbor=1; crc=1; robust-sorting=1; interleaving=30; max-red=0" }
{}
