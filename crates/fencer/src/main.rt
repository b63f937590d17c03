//! The program `fencer`: each command, from files and streams to an answer and its status.
//!
//! Each command but `replay` and `trace`, which stand in `answers`, is a module with its answer, and has a module of
//! `specs/` that says it. All of it is over any reader, writer and store of files; `main` puts the system's in.
//!
//! Begin with `run_command`, `run_place` and `run_why`. Free to change: what is said on standard error
//! (`advice.rt`). Relied on: nothing stands above it but what `docs/trust.md` says of an answer: at status 0
//! what was written is the answer for the text that was read, and no file is changed but those that the job
//! names.
#![tactic(auto)]

mod advice;
mod command;
mod gaps;
mod place;
mod survey_advice;
mod surveys;
mod tied;
mod whys;

use program_streams::{Outputs, Progress, SystemFiles, given_words};
use std::process::ExitCode;

fn main(rt: HostRuntime) -> ExitCode {
    let mut input = rt.stdin();
    let progress = Progress::on(rt.stderr(), rt);
    let mut output = Outputs::new(rt.stdout(), rt.stderr(), progress);
    let status = match given_words(&rt, &mut output) {
        Ok(words) => command::run_command(
            &rt,
            rt.alloc(),
            &mut SystemFiles::new(&rt),
            words.as_slice(),
            &mut input,
            &mut output,
        ),
        Err(status) => status,
    };
    ExitCode::from(status)
}
