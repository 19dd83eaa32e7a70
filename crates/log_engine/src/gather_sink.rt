// A sink that gathers what is written to it.
ghost use Rattle.std.specs.Prelude.{◌≡◌, ℕ, ◌+◌, ◌-◌, ◌≤◌, ◌<◌, ◌++◌, [], List, length, drop, IfOk, OnOk, OnErr};
ghost use Rattle.std.specs.Io.KnownBytes.{append_known};
ghost use Rattle.amr_io.specs.Fault.{HasCause};
ghost use Rattle.amr_io.specs.Told.{Writes};
ghost use Rattle.log_engine.specs.Tray.{Tray, Grows};
ghost use Rattle.log_engine.specs.Turns.{WaitStep};
ghost use Rattle.std.proofs.Common.{refl, ◌∙◌};
ghost use Rattle.std.proofs.KnownBytes.{Appends-nil, Appends-trans};

use crate::gather::Gather;
use amr_io::{Failed, Sink};

/// A sink that gathers octets before it writes them to another.
#[derive(Drop)]
pub struct GatherSink<'a, O> {
    pub output: &'a mut O,
    pub gather: &'a mut Gather,
}

impl<'a, O: Sink> GatherSink<'a, O> {
    /// A sink over `output`, whose octets wait in `gather` until they are written.
    pub fn new(output: &'a mut O, gather: &'a mut Gather) -> GatherSink<'a, O>
        ensures same_reference { result.output.ghost_name ≡ output.entry.ghost_name }
        ensures now { result.output.now ≡ output.old }
        ensures gather { result.gather.now ≡ gather.old }
        ensures same_gather { result.gather.ghost_name ≡ gather.entry.ghost_name }
    {
        GatherSink { output, gather }
    }

    /// Writes all that waits, and keeps what was put out in all, that which waits included, whatever it answers.
    ///
    /// `Failed` comes only where the output's faults rose.
    pub fn flush(&mut self) -> Result<(), Failed>
        ensures step { WaitStep O.Sink self.old self.new result }
        ensures empty { OnOk result
            ((self.new.gather.now.waiting ≡ []) × (self.new.gather.now.used ≡ 0)) }
    {
        self.gather.flush(self.output)
    }
}

impl<'a, O: Sink> Sink for GatherSink<'a, O> {
    ghost got = { λ s. append_known (O.got s.output.now) s.gather.now.waiting };

    ghost beside = { λ s. O.beside s.output.now };

    ghost faults = { λ s. O.faults s.output.now };

    ghost same = { λ s t. (t.output.ghost_name ≡ s.output.ghost_name)
        × O.same s.output.now t.output.now × Grows (O.got s.output.now) (O.got t.output.now) };

    /// Takes all of `bytes` where there is room for them once what waits is written, and else what the output takes.
    #[inline(always)]
    fn write(&mut self, bytes: &[u8]) -> Result<usize, Failed> {
        if self.gather.free() < bytes.len() {
            self.flush()?;
            if self.gather.room() < bytes.len() {
                return self.output.write(bytes);
            }
        }
        self.gather.push(bytes);
        Ok(bytes.len())
    }

    /// Takes all of them where there is room for `body` as a whole once what waits is written, and else the head.
    #[inline(always)]
    fn write_headed(&mut self, head: u8, body: &[u8], count: usize) -> Result<usize, Failed> {
        if self.gather.free() <= body.len() {
            self.flush()?;
            if self.gather.room() <= body.len() {
                return self.output.write(&[head]);
            }
        }
        self.gather.push_headed(head, body, count);
        Ok(1 + count)
    }

    ghost reflexive = { λ s. (refl, O.reflexive s.output.now, ([], Appends-nil _)) };

    ghost transitive = { λ a b c p q. (
      q.0 ∙ p.0,
      O.transitive _ _ _ p.1 q.1,
      (p.2.0 ++ q.2.0, Appends-trans _ _ _ _ _ p.2.1 q.2.1),
    ) };
}
