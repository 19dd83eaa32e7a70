// What blocks are put to.
ghost use Rattle.std.specs.Prelude.{◌≡◌, ℕ, Bool, List, IsTrue, OnOk, OnErr, is_ok};
ghost use Rattle.amr_io.specs.Fault.{HasCause};

use crate::cell::Cell;
use amr_io::Failed;

/// Where blocks go, each of them the frames of all channels of one frame time.
pub trait BlockSink {
    ghost use Rattle.amr_frame.specs.declared.codec.Codec.{Codec};
    ghost use Rattle.amr_frame.specs.Frames.{Frame};
    ghost use Rattle.amr_frame.specs.Blocks.{IsPresentBlock, frames_of};

    /// The codec of the frames.
    ghost codec: { Self → Codec };

    /// The number of frames in a block.
    ghost channels: { Self → ℕ };

    /// Whether a block may be put.
    ghost ready: { Self → Bool };

    /// How often the outside has failed. It never falls, and stops at 2 ^ 64 - 1.
    ghost faults: { Self → ℕ };

    /// The whole block was put, where the sink tells what it got.
    ghost whole: { Self → List Frame → Self → Type 0 };

    /// A part of the block was put, where the sink tells what it got.
    ghost part: { Self → List Frame → Self → Type 0 };

    /// The second still writes to the object that the first writes to.
    ghost same: { Self → Self → Type 0 };

    /// Puts one block, its cells in channel order.
    ///
    /// `Failed` comes only where `faults` rose. A part of the block may then have been put, and no further block may be.
    fn put_block(&mut self, cells: &[Cell]) -> Result<(), Failed>
        requires ready { IsTrue (ready self.old) }
        requires block { IsPresentBlock (codec self.old) (channels self.old) cells.now }

        ensures whole { OnOk result (whole self.old (frames_of cells.now) self.new) }
        ensures part { OnErr result (part self.old (frames_of cells.now) self.new) }
        ensures ready { ready self.new ≡ is_ok result }
        ensures kept { OnOk result
            ((codec self.new ≡ codec self.old) × (channels self.new ≡ channels self.old)) }

        ensures cause { HasCause (faults self.old) (faults self.new) result }
        ensures same { same self.old self.new };

    /// Each sink writes to the object that it writes to.
    ghost reflexive: { (s : Self) → same s s };

    /// What still writes to the same object through two steps does so through both.
    ghost transitive: { (a b c : Self) → same a b → same b c → same a c };
}
