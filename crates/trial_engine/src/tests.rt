use crate::{Draws, Plan, RunEnd, SendPlan, TrialJob, run_trial};
use amr_frame::{Codec, Profile};
use amr_io::MemorySink;
use std::alloc::Global;
use std::process::Abort;
use std::test::Fail;

// So many blocks of AMR, made from a number, one block a packet.
fn job_of(count: u32, seed: u64) -> TrialJob {
    let profile = Profile::plain(Codec::Amr, 1);
    TrialJob {
        plan: Plan {
            profile,
            window: 256,
            reach: 45_000,
        },
        send: SendPlan {
            profile,
            blocks: 1,
            length: 1,
            repeat: 0,
            skip_empty: false,
            cmr: 15,
            pt: 96,
            ssrc: 0,
            seq: 0,
            ts: 0,
        },
        count,
        seed,
    }
}

// Runs a trial whose output takes so many octets a write and fails at these calls, and gives what it
// wrote.
fn run(
    rt: &(impl Abort + Alloc<A = Global>),
    job: &TrialJob,
    failing: &[u64],
    wanted: RunEnd,
) -> Result<Vec<u8>, Fail> {
    if let Err(_) = job.plan.check() {
        panic!(rt; "what is delivered can be recorded");
    }
    if let Err(_) = job.send.check() {
        panic!(rt; "the blocks can be sent");
    }
    let mut output = MemorySink::create(rt.alloc(), 999, 999, failing)?;
    let report = run_trial(rt.alloc(), job, &mut output);
    assert_eq!(rt; report.end, wanted);
    Ok(Vec::from_slice(rt.alloc(), output.octets())?)
}

// The summary of a trial of no block: the file has its header alone.
const NOTHING: &[u8] = b"made=0 sent=0 lost=0 doubled=0 held=0\n\
packets=0 null=0 rtp=0 type=0 payload=0 place=0 late=0 copies=0 blocks=0\n\
file=6 sum=302\n";

// That of five blocks: packet 0 is held and delivered behind packet 1, which is delivered twice, and
// packet 2 is lost; so the file has types 0, 1, 15, 4 and 8. The sum was added up by hand.
const FIVE: &[u8] = b"made=5 sent=5 lost=1 doubled=1 held=1\n\
packets=5 null=0 rtp=0 type=0 payload=0 place=0 late=0 copies=1 blocks=5\n\
file=60 sum=6367\n";

#[test]
fn the_first_draw_of_sixteen_is_fifteen(rt: HostRuntime) -> Result<(), Fail> {
    assert_eq!(rt; Draws::new(0).draw(16), 15);
    Ok(())
}

#[test]
fn trials_are_summed_up(rt: HostRuntime) -> Result<(), Fail> {
    for seed in [0u64, 7] {
        let summary = run(&rt, &job_of(0, seed), &[], RunEnd::Done)?;
        assert_eq!(rt; summary.as_slice(), NOTHING);
    }
    let summary = run(&rt, &job_of(5, 4410), &[], RunEnd::Done)?;
    assert_eq!(rt; summary.as_slice(), FIVE);
    Ok(())
}

#[test]
fn a_front_of_the_summary_is_written_where_a_write_fails(rt: HostRuntime) -> Result<(), Fail> {
    for (call, length) in [(0u64, 0usize), (1, 38), (2, 111)] {
        let front = run(&rt, &job_of(5, 4410), &[call], RunEnd::WriteFault)?;
        assert_eq!(rt; front.as_slice(), &FIVE[..length]);
    }
    Ok(())
}

#[test]
fn the_same_number_gives_the_same_summary(rt: HostRuntime) -> Result<(), Fail> {
    for repeat in [0u8, 1] {
        let mut job = job_of(10_000, 7);
        job.send.repeat = repeat;
        let first = run(&rt, &job, &[], RunEnd::Done)?;
        let again = run(&rt, &job, &[], RunEnd::Done)?;
        assert_eq!(rt; first.as_slice(), again.as_slice());
    }
    Ok(())
}
