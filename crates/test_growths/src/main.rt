//! Each public call that takes memory, once, so that a run can refuse it one growth.
//!
//! test_growths CATALOGUE CALL prints what the call of that name answers, and ends with 0. Where memory is wanted in
//! the call it ends with 3, after it has seen that what was lent is as it was, that no closure was called, and that
//! what was written is a beginning of the whole output; where it is wanted before or behind the call, with 4; where
//! something isn't as it has to be, it says what, and ends with 5. Without CALL it prints what each call answers.
#![tactic(auto)]

mod choosing;
mod end;
mod lent;
mod lines;
mod meaning;
mod reading;
mod trees;

use crate::end::{Answer, End};
use spdx::Catalogue;
use std::alloc::Global;
use std::process::ExitCode;
use std::{env, fs, io};

const CALLS: &str = "\
from_json
parse_mode
parse_canonical
try_clone
canonicalize
fix
evaluate
evaluate_with_failures
Licensee::parse
ExpressionJudge::new
ExpressionJudge::new_all
minimized_requirements
minimized_among
minimized_for_all
normal_text
minimal_sets
meaning_text
asks_at_least
is_equivalent
run
run_all";

// What the call of that name answers.
fn answer(alloc: Global, json: &[u8], call: &str) -> Answer {
    if call == "from_json" {
        return reading::from_json(alloc, json);
    }
    let catalogue = Catalogue::from_json(alloc, json)?;
    match call {
        "parse_mode" => reading::parse_mode(alloc, &catalogue, reading::REFERENCES),
        "parse_canonical" => reading::parse_canonical(alloc, &catalogue, reading::LAX),
        "try_clone" => reading::try_clone(alloc, &catalogue),
        "canonicalize" => reading::canonicalize(alloc, &catalogue, reading::LAX),
        "fix" => reading::fix(alloc, &catalogue, reading::LAX),
        "Licensee::parse" => reading::licensee(alloc, &catalogue, reading::REFERENCES),
        "evaluate" | "evaluate_with_failures" => trees::answer(alloc, &catalogue, call),
        "normal_text" => trees::normal_text(alloc, &catalogue),
        "minimal_sets" | "meaning_text" | "asks_at_least" | "is_equivalent" => {
            meaning::answer(alloc, &catalogue, call)
        }
        "run" => lines::run(alloc, &catalogue),
        "run_all" => lines::run_all(alloc, &catalogue),
        _ => choosing::answer(alloc, &catalogue, call),
    }
}

fn print_each(rt: &HostRuntime, json: &[u8]) -> Result<(), End> {
    for call in CALLS.lines() {
        let answer = answer(rt.alloc(), json, call)?;
        println!(rt; "{call}: {answer}")?;
    }
    Ok(())
}

fn start(rt: &HostRuntime) -> Result<(), End> {
    let words: Vec<String> = env::args(rt)?.skip(1).collect(rt.alloc())?;
    let Some(path) = words.get(0) else {
        return Err(End::Otherwise("usage: test_growths CATALOGUE [CALL]"));
    };
    let json = fs::read(rt, path.as_str())?;
    match words.get(1) {
        Some(call) => {
            let answer = answer(rt.alloc(), json.as_slice(), call.as_str())?;
            println!(rt; "{answer}")?;
            Ok(())
        }
        None => print_each(rt, json.as_slice()),
    }
}

fn main(rt: HostRuntime) -> io::Result<ExitCode> {
    match start(&rt) {
        Ok(()) => Ok(ExitCode::from(0)),
        Err(End::InTheCall) => Ok(ExitCode::from(3)),
        Err(End::Outside) => Ok(ExitCode::from(4)),
        Err(End::Otherwise(what)) => {
            println!(rt; "{what}")?;
            Ok(ExitCode::from(5))
        }
    }
}
