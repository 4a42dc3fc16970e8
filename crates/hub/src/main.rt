//! The program `palm_hub`: standard input to standard output, by the one call of palm_hub.
#![tactic(auto)]

use palm_base::{StdSink, StdSource};
use palm_hub::program;
use palm_retry::Retrying;
use std::env;
use std::process::ExitCode;

fn main(rt: HostRuntime) -> ExitCode {
    let mut source = StdSource::new(Retrying::new(rt.stdin()));
    let mut sink = StdSink::new(Retrying::new(rt.stdout()));
    let status = program(rt.alloc(), env::args(&rt), &mut source, &mut sink);
    ExitCode::from(status.number())
}
