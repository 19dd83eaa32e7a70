ghost use Rattle.std.specs.Prelude.{◌≡◌, Bool, List};
ghost use Rattle.spec_payload.specs.FrameCrc.{IsCrc, crc_of};

/// Each list of bits has exactly one CRC, and it is the one that `crc_of` computes.
pub fn has_one_crc()
    ensures exists { (a : List Bool) → IsCrc a (crc_of a) }
    ensures unique { (a r s : List Bool) → IsCrc a r → IsCrc a s → r ≡ s }
{}
