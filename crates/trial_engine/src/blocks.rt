// The blocks of a trial.
ghost use Rattle.std.specs.Prelude.{length};
ghost use Rattle.trial_engine.specs.Made.{MakesBlock};

use crate::draws::Draws;
use crate::frames::make_frame;
use amr_frame::{Cell, Codec};

/// The next block of a trial: a frame for each cell, in channel order.
pub(crate) fn make_block(codec: Codec, draws: &mut Draws, cells: &mut [Cell])
    ensures { MakesBlock codec draws.old (length cells.old) cells.new draws.new }
{
    for cell in cells.iter_mut() {
        *cell = make_frame(codec, draws);
    }
}
