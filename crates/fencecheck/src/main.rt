//! The program `fencecheck`: from a litmus text and a certificate to one line and a status.
//!
//! It is built over nothing that searches, so that the maker of a certificate need not be trusted.
//!
//! Begin with `run_command`, `judge` and `accepted_inputs_are_certified`. Free to change: what is said on
//! standard error (`advice.rt`). Relied on: nothing stands above it but what `docs/trust.md` says of an
//! accepted line: at status 0 the certificate is valid for the program and the costs that were read, and the
//! headline holds.
#![tactic(auto)]

mod advice;
mod command;
mod judge;
mod laws;
mod parts;

use program_streams::{Outputs, Progress, SystemFiles, given_words};
use std::process::ExitCode;

fn main(rt: HostRuntime) -> ExitCode {
    let mut input = rt.stdin();
    let progress = Progress::on(rt.stderr(), rt);
    let mut output = Outputs::new(rt.stdout(), rt.stderr(), progress);
    let status = match given_words(&rt, &mut output) {
        Ok(words) => command::run_command(
            rt.alloc(),
            &SystemFiles::new(&rt),
            words.as_slice(),
            &mut input,
            &mut output,
        ),
        Err(status) => status,
    };
    ExitCode::from(status)
}
