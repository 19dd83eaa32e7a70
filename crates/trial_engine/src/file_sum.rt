// What is kept of a storage file that is written nowhere: how many octets it has, and their sum.
ghost use Rattle.std.specs.Prelude.{◌≡◌, ◌+◌, ◌≤◌, ◌%◌, ◌^◌, Ok, sum, true};
ghost use Rattle.std.specs.List.{AllByRecursion};
ghost use Rattle.amr_store.specs.Written.{AreChannels};
ghost use Rattle.spec_store.specs.StorageFile.{header};

use amr_frame::{BlockSink, Cell, Codec};
use amr_io::Failed;
use amr_store::{magic, multichannel_magic, write_frame};

/// The number of the octets of a storage file and their sum: first those of the header, then those
/// of each block that is put. It never fails.
#[derive(Clone, Copy, Debug)]
pub(crate) struct FileSum {
    codec: Codec,
    channels: u8,
    /// How many octets there are, modulo 2^64.
    pub count: u64,
    /// Their sum, modulo 2^32.
    pub total: u32,
    ghost channels_are: { channels ≤ 6 },
}

/// A sum and octets added to it, modulo 2^32.
fn add_up(start: u32, octets: &[u8]) -> u32
    ensures { result ≡ (start + sum octets.now) % 2 ^ 32 }
{
    let mut total = start;
    for octet in octets {
        total = total.wrapping_add(u32::from(*octet));
    }
    total
}

impl FileSum {
    ghost use Rattle.trial_engine.specs.Sums.{Adds, AddsCells, SumsUp};

    /// The sum of a file that has its header alone (RFC 4867, 5.1 and 5.2).
    pub fn new(codec: Codec, channels: u8) -> FileSum
        requires channels { AreChannels channels }

        ensures header { SumsUp result (header codec channels) }
        ensures codec { result.codec ≡ codec }
        ensures channels { result.channels ≡ channels }
    {
        let mut file = FileSum {
            codec,
            channels,
            count: 0,
            total: 0,
        };
        if channels == 1 {
            file.add(magic(codec));
            return file;
        }
        file.add(multichannel_magic(codec));
        file.add(&[0, 0, 0, channels]);
        file
    }

    /// Adds octets.
    fn add(&mut self, octets: &[u8])
        ensures { Adds self.old self.new octets.now }
    {
        self.count = self.count.wrapping_add(octets.len() as u64);
        self.total = add_up(self.total, octets);
    }

    /// Adds the octets of frames.
    fn add_cells(&mut self, cells: &[Cell])
        requires { AllByRecursion (λ (cell : Cell). cell.ft ≤ 15) cells.now }
        ensures { AddsCells self.old self.new cells.now }
    {
        // Reading the numbers tells the proof that they are in range.
        let _in_range = (self.count, self.total);
        let mut octets = [0u8; 61];
        for cell in cells {
            let count = write_frame(cell, &mut octets);
            self.add(&octets[..count]);
        }
    }
}

impl BlockSink for FileSum {
    ghost use Rattle.trial_engine.specs.Sums.{AddsBlock};

    ghost codec = { λ f. f.codec };

    ghost channels = { λ f. f.channels };

    ghost ready = { λ _. true };

    ghost faults = { λ _. 0 };

    ghost whole = { λ f block f'. AddsBlock f f' block };

    ghost part = { λ _ _ _. Unit {0} };

    ghost same = { λ _ _. Unit {0} };

    fn put_block(&mut self, cells: &[Cell]) -> Result<(), Failed> {
        self.add_cells(cells);
        Ok(())
    }

    ghost reflexive = { λ _. tt };

    ghost transitive = { λ _ _ _ _ _. tt };
}
