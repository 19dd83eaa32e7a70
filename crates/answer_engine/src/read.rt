// Reading a whole input.
ghost use Rattle.answer_engine.specs.Reading.{IsFresh, ReadsWhole};
ghost use Rattle.spec_run.specs.Flows.{read_from};

use amr_io::{Failed, Filled, Inlet, Source};

/// How much of an input was read.
#[derive(Clone, Copy, Debug, PartialEq, Eq)]
pub(crate) enum Whole {
    /// All of it is held.
    All,
    /// It has more octets than the limit.
    OverLimit,
}

/// Reads until the input ends or has more octets than the limit.
///
/// `Failed` comes only where the input's faults rose.
pub(crate) fn read_whole<I: Source>(inlet: &mut Inlet, input: &mut I) -> Result<Whole, Failed>
    requires fresh { IsFresh inlet.old }

    ensures { ReadsWhole inlet.old.limit (read_from I.Source input.old input.new)
        inlet.new.held result }
{
    'reading: loop {
        match inlet.fill(input) {
            Ok(Filled::More { .. }) => {}
            Ok(Filled::End) => return Ok(Whole::All),
            Ok(Filled::OverLimit) => return Ok(Whole::OverLimit),
            Err(failed) => return Err(failed),
        }
    }
}
