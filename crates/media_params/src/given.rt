// What pieces give of the parameters of the table.
ghost use Rattle.std.specs.Prelude.{◌≡◌, ◌<◌, Some, [], cond, length, nat_eq, option_and_then};
ghost use Rattle.std.specs.Option.{option_copied};
ghost use Rattle.refusals.specs.declared.param.Param.{Param};
ghost use Rattle.media_params.specs.Places.{place};
ghost use Rattle.spec_media.specs.Pieces.{number_in};

use crate::names::param_called;
use crate::pieces::{name_of, value_of};
use crate::values::{is_allowed, read_number};
use amr_frame::Codec;
use refusals::{FmtpRefusal, Param};

/// The value of the first piece with the name of each parameter, where there is one.
#[derive(Clone, Copy)]
pub struct Given<'a> {
    values: [Option<&'a [u8]>; 9],

    ghost nine: { length values ≡ 9 },
}

impl<'a> Given<'a> {
    ghost use Rattle.media_params.specs.Given.{AreAllowed, Holds, Takes, at};
    ghost use Rattle.amr_frame.specs.declared.codec.Codec.{Codec};

    /// What no pieces give.
    pub fn nothing() -> Given<'a>
        ensures holds { Holds result [] }
        ensures allowed { (codec : Codec) → AreAllowed codec result }
    {
        Given { values: [None; 9] }
    }

    /// The value of a parameter, where it was given.
    pub fn value(&self, param: Param) -> Option<&'a [u8]>
        ensures { option_copied result ≡ at self.now param }
    {
        self.values[place(param)]
    }

    /// The number that a parameter was given.
    pub fn number(&self, param: Param) -> Option<u32>
        ensures { result ≡ option_and_then (number_in 5) (at self.now param) }
    {
        match self.value(param) {
            Some(value) => read_number(value),
            None => None,
        }
    }

    /// Takes a piece behind those before it, or refuses it: where it has no name, where it names a parameter and has a value
    /// that the parameter can't have, and where the parameter was given before (F1 to F3).
    pub fn take(&mut self, codec: Codec, piece: &'a [u8]) -> Result<(), FmtpRefusal>
        ensures { Takes codec self.old piece.now self.new result }
    {
        let name = name_of(piece);
        if name.is_empty() {
            return Err(FmtpRefusal::NoName);
        }
        let Some(param) = param_called(name) else {
            return Ok(());
        };
        let value = value_of(piece);
        if !is_allowed(codec, param, value) {
            return Err(FmtpRefusal::BadValue { param });
        }
        if self.value(param).is_some() {
            return Err(FmtpRefusal::Repeated { param });
        }
        self.put(param, value);
        Ok(())
    }

    /// Gives a parameter a value.
    fn put(&mut self, param: Param, value: &'a [u8])
        ensures { (q : Param) → at self.new q
            ≡ cond (nat_eq (place q) (place param)) (Some value.now) (at self.old q) }
    {
        self.values[place(param)] = Some(value);
    }
}

/// The place of a parameter in the table.
fn place(param: Param) -> usize
    ensures place { result ≡ place param }
    ensures below { result < 9 }
{
    match param {
        Param::OctetAlign => 0,
        Param::ModeSet => 1,
        Param::Period => 2,
        Param::Capability => 3,
        Param::Neighbor => 4,
        Param::Crc => 5,
        Param::Sorting => 6,
        Param::Interleaving => 7,
        Param::MaxRed => 8,
    }
}
