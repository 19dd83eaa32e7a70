// A run of a trial: its blocks are made and sent, and what is delivered is recorded.
ghost use Rattle.std.specs.Prelude.{◌≡◌, ◌+◌, ◌<◌, ◌^◌, []};
ghost use Rattle.amr_frame.specs.Blocks.{IsPresentBlock, frames_of};
ghost use Rattle.spec_trial.specs.Trials.{blocks_of};
ghost use Rattle.trial_engine.specs.Jobs.{IsServed, recording_job, trial_of};
ghost use Rattle.trial_engine.specs.Outcomes.{IsOutcome};
ghost use Rattle.trial_engine.specs.Running.{EndsSending, HasSent, IsSending, SendsBlock};

use crate::blocks::make_block;
use crate::draws::Draws;
use crate::job::TrialJob;
use crate::line::LossyLine;
use crate::summary::Outcome;
use amr_frame::Cell;
use amr_sender::Sender;

/// How many channels a block has at most (RFC 4867, 4.1).
const MOST_CHANNELS: usize = 6;

/// Sends a block over the line.
fn send_block(sender: &mut Sender, block: &[Cell], line: &mut LossyLine)
    requires sending { IsSending sender.old line.old }
    requires few { sender.old.blocks + 1 < 2 ^ 32 }
    requires block { IsPresentBlock sender.old.plan.profile.codec sender.old.plan.profile.channels
        block.now }
    ensures { SendsBlock sender.old sender.new line.old line.new (frames_of block.now) }
{
    let Ok(()) = sender.put_block(block, line) else {
        unreachable!()
    };
}

/// Sends the blocks that are left of a group.
fn end_sending(sender: &mut Sender, line: &mut LossyLine)
    requires sending { IsSending sender.old line.old }
    requires few { sender.old.blocks < 2 ^ 32 }
    ensures { EndsSending sender.old line.old line.new }
{
    let Ok(()) = sender.finish(line) else {
        unreachable!()
    };
}

/// Makes the blocks of a trial, and sends them over the line one after the other.
fn send_blocks(job: &TrialJob, sender: &mut Sender, line: &mut LossyLine)
    requires served { IsServed job.now }
    requires plan { sender.old.plan ≡ job.now.send }
    requires none { HasSent (recording_job job.now) job.now.seed sender.old line.old [] }

    ensures plan { sender.new.plan ≡ job.now.send }
    ensures few { sender.new.blocks < 2 ^ 32 }
    ensures sent { HasSent (recording_job job.now) job.now.seed sender.new line.new
        (blocks_of (trial_of job.now)) }
{
    let mut draws = Draws::new(job.seed);
    let mut cells = [Cell::absent(); MOST_CHANNELS];
    let block = &mut cells[..usize::from(job.send.profile.channels)];
    'making: for _ in 0..job.count {
        make_block(job.send.profile.codec, &mut draws, block);
        send_block(sender, block, line);
    }
}

/// Runs a trial, and tells what it came to.
pub(crate) fn run(job: &TrialJob, mut sender: Sender, mut line: LossyLine) -> Outcome
    requires served { IsServed job.now }
    requires plan { sender.plan ≡ job.now.send }
    requires none { HasSent (recording_job job.now) job.now.seed sender line [] }

    ensures { IsOutcome (trial_of job.now) result }
{
    send_blocks(job, &mut sender, &mut line);
    end_sending(&mut sender, &mut line);
    let sent = line.sent;
    let lost = line.lost;
    let doubled = line.doubled;
    let held = line.held;
    let recorded = line.close();
    Outcome {
        made: u64::from(job.count),
        sent,
        lost,
        doubled,
        held,
        counts: recorded.counts,
        file: recorded.file,
    }
}
