ghost use Rattle.std.specs.Prelude.{◌≡◌, List, length, ℕ};
ghost use Rattle.std.specs.List.{flat_map};
ghost use Rattle.std.proofs.lemmas.List.Concat.{flat_map-append};
ghost use Rattle.run_report.specs.Lines.{no_counts};
ghost use Rattle.run_report.specs.declared.report.CountLines.TheVariants as lines;

use crate::{Gather, GatherSink, RecordHandler, run_records};
use amr_io::{Failed, MemorySink, MemorySource, Sink, write_whole};
use rtp_packet::LogReader;
use run_report::RunEnd;
use std::test::Fail;

// Puts out the octets of each record.
#[derive(Drop)]
struct Echo {
    handled: u64,
}

impl RecordHandler for Echo {
    ghost job = { λ _. record {
      early = flat_map (λ (packet : List ℕ). packet);
      whole = flat_map (λ (packet : List ℕ). packet);
      counts = λ hs. record no_counts { packets = length hs };
      lines = lines.None;
    } };

    ghost stands = { λ echo hs. echo.handled ≡ length hs };

    ghost fresh = { λ _. Unit {0} };

    ghost ready = { λ _. Unit {0} };

    ghost handled = { λ echo. echo.handled };

    ghost counts = { λ echo. record no_counts { packets = echo.handled } };

    fn begin<O: Sink>(&mut self, _output: &mut O) -> Result<(), Failed> {
        self.handled = 0;
        Ok(())
    }

    fn handle<O: Sink>(&mut self, packet: &[u8], output: &mut O) -> Result<(), Failed> {
        self.handled += 1;
        write_whole(output, packet)
    }

    fn end<O: Sink>(&mut self, _output: &mut O) -> Result<(), Failed> {
        Ok(())
    }

    ghost early_grows = { λ _ hs more. (
      flat_map (λ (packet : List ℕ). packet) more,
      flat_map-append (λ (packet : List ℕ). packet) hs more,
    ) };

    ghost whole_grows = { λ _ hs more. (
      flat_map (λ (packet : List ℕ). packet) more,
      flat_map-append (λ (packet : List ℕ). packet) hs more,
    ) };
}

#[test]
fn a_run_ends_as_its_log_and_its_faults_say(rt: HostRuntime) -> Result<(), Fail> {
    let log: &[u8] = &[0, 1, 7, 0, 0, 0, 2, 8, 9];
    let cut = RunEnd::LogCut { have: 3 };
    // How many octets of the log there are, the limit, the most that a read gives, the reads and the writes that fail, the end, and
    // the output. What waits is written before each read: with reads of 5, first 7, then 8 and 9.
    let rows: [(usize, u64, usize, &[u64], &[u64], RunEnd, &[u8]); 10] = [
        (9, 99, 1, &[], &[], RunEnd::Done, &[7, 8, 9]),
        (9, 9, 9, &[], &[1], RunEnd::Done, &[7, 8, 9]),
        (0, 1, 9, &[], &[0], RunEnd::Done, &[]),
        (8, 8, 3, &[], &[], cut, &[7]),
        (9, 8, 2, &[], &[], RunEnd::LimitReached, &[7]),
        (9, 99, 5, &[1], &[], RunEnd::ReadFault, &[7]),
        (9, 99, 5, &[0], &[], RunEnd::ReadFault, &[]),
        (9, 99, 9, &[1], &[], RunEnd::ReadFault, &[7, 8, 9]),
        (9, 99, 5, &[], &[1], RunEnd::WriteFault, &[7]),
        (9, 99, 9, &[], &[0], RunEnd::WriteFault, &[]),
    ];
    for (len, limit, most, reads, writes, end, wanted) in rows {
        let mut source = MemorySource::create(rt.alloc(), &log[..len.min(9)], most.max(1), reads)?;
        let mut output = MemorySink::create(rt.alloc(), 9, 9, writes)?;
        let mut reader = LogReader::create(rt.alloc(), limit.clamp(1, 99))?;
        let mut gather = Gather::create(rt.alloc(), 4)?;
        let mut sink = GatherSink::new(&mut output, &mut gather);
        let result = run_records(
            &mut Echo { handled: 0 },
            &mut reader,
            &mut source,
            &mut sink,
        );
        assert_eq!(rt;
            result,
            end,
            "{len} octets at limit {limit}, reads of {most}"
        );
        assert_eq!(rt;
            output.octets(),
            wanted,
            "{len} octets at limit {limit}, reads of {most}"
        );
    }
    Ok(())
}
