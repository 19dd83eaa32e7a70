// What a command does with the records of a log.
ghost use Rattle.std.specs.Prelude.{◌≡◌, ◌+◌, ◌<◌, ◌^◌, ℕ, List, [], ◌∷◌, ◌++◌, OnOk, OnErr};
ghost use Rattle.std.specs.Io.KnownBytes.{Appends};
ghost use Rattle.log_engine.specs.Puts.{CallStep, Puts, PutsPart};
ghost use Rattle.run_report.specs.declared.counts.Counts.{Counts};
ghost use Rattle.spec_run.specs.LogRuns.{RecordsJob};
ghost use Rattle.spec_run.specs.Meanings.{IsPrefix};

use amr_io::{Failed, Sink};

/// What a command does with the records of a log.
///
/// Its job says what is put out for records and what is counted of them; it stays as it is through every call.
pub trait RecordHandler {
    /// What it does with records.
    ghost job: { Self → RecordsJob };

    /// It handled these records.
    ghost stands: { Self → List (List ℕ) → Type 0 };

    /// It hasn't begun.
    ghost fresh: { Self → Type 0 };

    /// It has begun, and handles records: it hasn't ended, and no call failed.
    ghost ready: { Self → Type 0 };

    /// How many records it handled.
    ghost handled: { Self → ℕ };

    /// What it has counted.
    ghost counts: { Self → Counts };

    /// Puts out what comes before all records.
    ///
    /// `Failed` comes only where the output's faults rose. A part of it was then put out.
    fn begin<O: Sink>(&mut self, output: &mut O) -> Result<(), Failed>
        requires fresh { fresh self.old }

        ensures ready { OnOk result (ready self.new × (handled self.new ≡ 0)) }
        ensures done { OnOk result (stands self.new []
            × Appends (O.got output.old) (O.got output.new) ((job self.old).early [])) }
        ensures failed { OnErr result
            (PutsPart (O.got output.old) (O.got output.new) [] ((job self.old).early [])) }
        ensures step { CallStep O.Sink (job self.old) (job self.new) output.old output.new result };

    /// Handles the next record, of at most 2^40, and puts out what it brings.
    ///
    /// `Failed` comes only where the output's faults rose. A part of it was then put out.
    fn handle<O: Sink>(&mut self, packet: &[u8], output: &mut O) -> Result<(), Failed>
        requires ready { ready self.old }
        requires few { handled self.old < 2 ^ 40 }

        ensures ready { OnOk result (ready self.new × (handled self.new ≡ handled self.old + 1)) }
        ensures done { OnOk result ((hs : List (List ℕ)) → stands self.old hs
            → stands self.new (hs ++ packet.now ∷ []) × Puts (O.got output.old) (O.got output.new)
            ((job self.old).early hs) ((job self.old).early (hs ++ packet.now ∷ []))) }
        ensures failed { OnErr result ((hs : List (List ℕ)) → stands self.old hs
            → PutsPart (O.got output.old) (O.got output.new)
            ((job self.old).early hs) ((job self.old).early (hs ++ packet.now ∷ []))) }
        ensures step { CallStep O.Sink (job self.old) (job self.new) output.old output.new result };

    /// Puts out the rest, after the last record. The counts are then those of the records.
    ///
    /// `Failed` comes only where the output's faults rose. A part of it was then put out.
    fn end<O: Sink>(&mut self, output: &mut O) -> Result<(), Failed>
        requires ready { ready self.old }

        ensures done { OnOk result ((hs : List (List ℕ)) → stands self.old hs
            → (counts self.new ≡ (job self.old).counts hs) × Puts (O.got output.old)
            (O.got output.new) ((job self.old).early hs) ((job self.old).whole hs)) }
        ensures failed { OnErr result ((hs : List (List ℕ)) → stands self.old hs
            → PutsPart (O.got output.old) (O.got output.new)
            ((job self.old).early hs) ((job self.old).whole hs)) }
        ensures step { CallStep O.Sink (job self.old) (job self.new) output.old output.new result };

    /// More records put out more behind what was put out.
    ghost early_grows: { (s : Self) (hs more : List (List ℕ))
        → IsPrefix ((job s).early hs) ((job s).early (hs ++ more)) };

    /// What is put out in all begins with what the first records put out.
    ghost whole_grows: { (s : Self) (hs more : List (List ℕ))
        → IsPrefix ((job s).early hs) ((job s).whole (hs ++ more)) };
}
