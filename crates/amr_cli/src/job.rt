ghost use Rattle.std.specs.Prelude.{◌≡◌, IfSome, Some, is_none, option_map};
ghost use Rattle.amr_cli.specs.Jobs.{IsServed, job_in, job_of, received_by};
ghost use Rattle.amr_frame.specs.First.{when};
ghost use Rattle.amr_playout.specs.Plans.{IsPlan};
ghost use Rattle.command_words.specs.Asked.{AreConvertible, AreListed, AreSendable, AreTried};
ghost use Rattle.command_words.specs.Asked.{AreWanted, AreWithin, answering_of, listing_of};
ghost use Rattle.command_words.specs.Asked.{recording_of, sending_of, trial_of};
ghost use Rattle.spec_jobs.specs.Jobs.{AnswerOffer as Answered, ConvertLog as Converted};
ghost use Rattle.spec_jobs.specs.Jobs.{ListLog as Listed, RecordLog as Recorded};
ghost use Rattle.spec_jobs.specs.Jobs.{RunTrial as Tried, StreamFile as Sent, if_valid};
ghost use Rattle.spec_jobs.specs.Plans.{is_receivable};
ghost use Rattle.spec_sending.specs.Plans.{IsPlan as IsSendPlan, plan_fault};
ghost use Rattle.spec_words.specs.Words.{texts};

use amr_frame::Profile;
use amr_gateway::{AnswerJob, ConvertJob, ListJob, RecordJob, StreamJob, TrialJob, Wanted};
use amr_playout::Plan;
use command_words::{
    AnswerWords, Command, ConvertWords, ListWords, RecordWords, StreamWords, TrialWords,
    read_command,
};
use spec_sending::SendPlan;

/// What the words ask for.
#[derive(Clone, Copy, Debug, PartialEq, Eq)]
pub enum Job {
    /// Recording a packet log.
    RecordLog(RecordJob),
    /// Streaming a storage file.
    StreamFile(StreamJob),
    /// Converting a packet log into another.
    ConvertLog(ConvertJob),
    /// Answering an offer.
    AnswerOffer(AnswerJob),
    /// Listing a packet log.
    ListLog(ListJob),
    /// A trial run.
    RunTrial(TrialJob),
}

/// The job of the words; `None` exactly where they give none.
pub fn read_words(words: &[String]) -> Option<Job>
    ensures job { option_map job_in result ≡ job_of (texts words.now) }
    ensures served { IfSome result IsServed }
{
    match read_command(words) {
        None => None,
        Some(Command::Record(values)) => record_job(&values),
        Some(Command::Stream(values)) => stream_job(&values),
        Some(Command::Convert(values)) => convert_job(&values),
        Some(Command::Answer(values)) => Some(answer_job(&values)),
        Some(Command::List(values)) => Some(list_job(&values)),
        Some(Command::Trial(values)) => trial_job(&values),
    }
}

/// The plan of the receiver that these values ask for, if it is valid.
fn receiver_plan(values: &RecordWords) -> Option<Plan>
    requires within { AreWithin values.now }

    ensures plan { option_map (received_by values.now.pt) result
        ≡ when (is_receivable (recording_of values.now)) (recording_of values.now) }
    ensures valid { IfSome result IsPlan }
    ensures format { IfSome result (λ p. (p.profile.codec ≡ values.now.codec)
        × (p.profile.channels ≡ values.now.channels)) }
{
    let plan = Plan {
        profile: Profile {
            strict: values.strict,
            ..values
                .fmtp
                .profile(values.codec, values.channels, values.max_blocks)
        },
        window: values.window,
        reach: values.reach,
    };
    match plan.check() {
        Err(_) => None,
        Ok(()) => Some(plan),
    }
}

/// The plan that these values ask to send by, in payloads of at most so many blocks, if it is
/// valid.
fn sender_plan(values: &StreamWords, max_blocks: u8) -> Option<SendPlan>
    requires within { AreSendable values.now }

    ensures plan { result ≡ when (is_none (plan_fault (sending_of max_blocks values.now)))
        (sending_of max_blocks values.now) }
    ensures valid { IfSome result IsSendPlan }
    ensures format { IfSome result (λ p. (p.profile.codec ≡ values.now.codec)
        × (p.profile.channels ≡ values.now.channels)) }
{
    let plan = SendPlan {
        profile: values
            .fmtp
            .profile(values.codec, values.channels, max_blocks),
        blocks: values.blocks,
        length: values.length,
        repeat: values.repeat,
        skip_empty: values.skip_empty,
        cmr: values.cmr,
        pt: values.pt,
        ssrc: values.ssrc,
        seq: values.seq,
        ts: values.ts,
    };
    match plan.check() {
        Err(_) => None,
        Ok(()) => Some(plan),
    }
}

/// Recording what these values ask; there is no job where their plan isn't valid.
fn record_job(values: &RecordWords) -> Option<Job>
    requires within { AreWithin values.now }

    ensures job { option_map job_in result
        ≡ if_valid (Recorded (recording_of values.now) values.now.limit) }
    ensures served { IfSome result IsServed }
{
    let plan = receiver_plan(values)?;
    Some(Job::RecordLog(RecordJob {
        plan,
        pt: values.pt,
        limit: values.limit,
    }))
}

/// Streaming as these values ask; there is no job where their plan isn't valid.
fn stream_job(values: &StreamWords) -> Option<Job>
    requires within { AreSendable values.now }

    ensures job { option_map job_in result
        ≡ if_valid (Sent (sending_of 64 values.now) values.now.limit) }
    ensures served { IfSome result IsServed }
{
    let plan = sender_plan(values, 64)?;
    Some(Job::StreamFile(StreamJob {
        plan,
        limit: values.limit,
    }))
}

/// Converting as these values ask; there is no job where one of their plans isn't valid.
fn convert_job(values: &ConvertWords) -> Option<Job>
    requires within { AreConvertible values.now }

    ensures job { option_map job_in result
        ≡ if_valid (Converted (recording_of values.now.received)
        (sending_of 64 values.now.sent) values.now.received.limit) }
    ensures served { IfSome result IsServed }
{
    let plan = receiver_plan(&values.received)?;
    let to = sender_plan(&values.sent, 64)?;
    Some(Job::ConvertLog(ConvertJob {
        plan,
        pt: values.received.pt,
        to,
        limit: values.received.limit,
    }))
}

/// Trying what these values ask; there is no job where one of their plans isn't valid.
fn trial_job(values: &TrialWords) -> Option<Job>
    requires within { AreTried values.now }

    ensures job { option_map job_in result ≡ if_valid (Tried (trial_of values.now)) }
    ensures served { IfSome result IsServed }
{
    let plan = receiver_plan(&values.received)?;
    let send = sender_plan(&values.sent, values.received.max_blocks)?;
    Some(Job::RunTrial(TrialJob {
        plan,
        send,
        count: values.count,
        seed: u64::from(values.seed),
    }))
}

/// Answering as these values ask; each job of them is valid.
fn answer_job(values: &AnswerWords) -> Job
    requires within { AreWanted values.now }

    ensures job { Some (job_in result)
        ≡ if_valid (Answered (answering_of values.now) values.now.limit) }
    ensures served { IsServed result }
{
    Job::AnswerOffer(AnswerJob {
        wanted: Wanted {
            codec: values.codec,
            channels: values.channels,
            modes: values.modes,
            crc: values.crc,
            sorting: values.sorting,
            interleaving: values.interleaving,
        },
        port: values.port,
        limit: values.limit,
    })
}

/// Listing as these values ask; each job of them is valid.
fn list_job(values: &ListWords) -> Job
    requires within { AreListed values.now }

    ensures job { Some (job_in result)
        ≡ if_valid (Listed (listing_of values.now) values.now.limit) }
    ensures served { IsServed result }
{
    let format = values
        .fmtp
        .profile(values.codec, values.channels, values.max_blocks);
    Job::ListLog(ListJob {
        profile: Profile {
            strict: values.strict,
            ..format
        },
        modes: values.modes,
        neighbor: values.fmtp.neighbor,
        period: values.fmtp.period,
        start: values.start,
        pt: values.pt,
        show_bits: values.show_bits,
        limit: values.limit,
    })
}
