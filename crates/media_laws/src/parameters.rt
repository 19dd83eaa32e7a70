ghost use Rattle.amr_frame.specs.declared.codec.Codec.{Codec};
ghost use Rattle.spec_media.specs.Params.{AreParameters, Parameters};
ghost use Rattle.spec_media.specs.Printing.{printed};
ghost use Rattle.spec_media.specs.Reading.{parameters_of};
ghost use Rattle.std.specs.Prelude.{◌≡◌, Ok};

/// What is printed of media parameters is read as the same parameters (RFC 4867, 8.1 and 8.2).
pub fn what_is_printed_is_read()
    ensures { (codec : Codec) (p : Parameters) → AreParameters codec p
        → parameters_of codec (printed p) ≡ Ok p }
{}
