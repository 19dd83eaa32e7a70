// What octets are written to.
ghost use Rattle.std.specs.Prelude.{◌≡◌, ◌<◌, ◌≤◌, ◌∷◌, ℕ, List, length, take, Option};
ghost use Rattle.amr_io.specs.Fault.{HasCause};
ghost use Rattle.amr_io.specs.Told.{Writes};

use crate::source::Failed;

/// Where octets go.
pub trait Sink {
    /// The octets that the sink got, where it tells them.
    ghost got: { Self → Option (List ℕ) };

    /// What stands beside these octets, as named files, where the sink tells it.
    ghost beside: { Self → Option (List (List ℕ × List ℕ)) };

    /// How often the sink has failed. It never falls, and stops at 2 ^ 64 - 1.
    ghost faults: { Self → ℕ };

    /// The second still writes to the object that the first writes to.
    ghost same: { Self → Self → Type 0 };

    /// Writes some octets from the front of `bytes`, at least one, and answers how many.
    ///
    /// `Failed` comes only where `faults` rose, and what the sink got is then as before.
    fn write(&mut self, bytes: &[u8]) -> Result<usize, Failed>
        requires some { 0 < length bytes.now }

        ensures octets { Writes (got self.old) (got self.new) result bytes.now }
        ensures cause { HasCause (faults self.old) (faults self.new) result }
        ensures beside { beside self.new ≡ beside self.old }
        ensures same { same self.old self.new };

    /// Writes some octets from the front of `head` and the first `count` of `body`, at least one, and answers how many. A
    /// sink with room for all of `body` may copy it as a whole, which is cheaper than a copy of `count` octets.
    ///
    /// `Failed` comes only where `faults` rose, and what the sink got is then as before.
    fn write_headed(&mut self, head: u8, body: &[u8], count: usize) -> Result<usize, Failed>
        requires within { count ≤ length body.now }

        ensures octets { Writes (got self.old) (got self.new) result (head ∷ take count body.now) }
        ensures cause { HasCause (faults self.old) (faults self.new) result }
        ensures beside { beside self.new ≡ beside self.old }
        ensures same { same self.old self.new }
    {
        self.write(&[head])
    }

    /// Each sink writes to the object that it writes to.
    ghost reflexive: { (s : Self) → same s s };

    /// What still writes to the same object through two steps does so through both.
    ghost transitive: { (a b c : Self) → same a b → same b c → same a c };
}
