// The generator of a trial.
ghost use Rattle.std.specs.Prelude.{◌≡◌, ◌≤◌, ◌<◌, ◌^◌};
ghost use Rattle.spec_trial.specs.Draws.{drawn, next};

/// A linear congruential generator of 64 bits, of whose state the upper bits are drawn.
#[derive(Clone, Copy, Debug, PartialEq, Eq)]
pub struct Draws {
    state: u64,
}

impl Draws {
    /// A generator that begins at this number.
    pub fn new(seed: u64) -> Draws
        ensures { result.state ≡ seed }
    {
        Draws { state: seed }
    }

    /// A number below `k`, which is from 1 to 2^31.
    pub fn draw(&mut self, k: u32) -> u32
        requires some { 1 ≤ k }
        requires most { k ≤ 2 ^ 31 }

        ensures state { self.new.state ≡ next self.old.state }
        ensures drawn { result ≡ drawn self.new.state k }
        ensures below { result < k }
    {
        self.state = self
            .state
            .wrapping_mul(6_364_136_223_846_793_005)
            .wrapping_add(1_442_695_040_888_963_407);
        (self.state / 8_589_934_592 % u64::from(k)) as u32
    }
}
