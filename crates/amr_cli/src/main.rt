//! Records packet logs of AMR and AMR-WB speech as storage files, sends such files as packet logs,
//! converts packet logs, answers offers of such speech, lists logs, and makes trial runs.
#![tactic(auto)]

#[cfg(test)]
mod answer_tests;
#[cfg(test)]
mod convert_tests;
#[cfg(test)]
mod cut_tests;
mod engine;
#[cfg(test)]
mod fault_runs;
#[cfg(test)]
mod fault_tests;
#[cfg(test)]
mod format_tests;
mod host;
#[cfg(test)]
mod host_tests;
mod job;
#[cfg(test)]
mod list_tests;
#[cfg(test)]
mod long_tests;
#[cfg(test)]
mod offer_cut_tests;
#[cfg(test)]
mod order_tests;
mod run;
mod status;
#[cfg(test)]
mod stream_tests;
#[cfg(test)]
mod test_logs;
#[cfg(test)]
mod tests;
#[cfg(test)]
mod trial_tests;

use crate::host::run_started;
use amr_io::{ReadSource, WriteSink};
use std::env;
use std::process::ExitCode;

fn main(rt: HostRuntime) -> ExitCode {
    let mut input = ReadSource::new(rt.stdin());
    let mut output = WriteSink::new(rt.stdout());
    let mut notes = WriteSink::new(rt.stderr());
    run_started(
        rt.alloc(),
        env::args(&rt),
        &mut input,
        &mut output,
        &mut notes,
    )
}
