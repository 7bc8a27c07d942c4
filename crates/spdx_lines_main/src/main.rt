//! Reads licence expressions from standard input, a line each, and writes a verdict for each.
#![tactic(auto)]

mod start;

use std::io;
use std::process::ExitCode;

fn main(rt: HostRuntime) -> ExitCode {
    start::start(&rt, io::writer(&rt), rt.stderr())
}
