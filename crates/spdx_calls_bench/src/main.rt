//! The processor time of calls of `spdx_calls`, as callers of the library make them.
//!
//! spdx_calls_bench LIST FILE TIMES checks each line of FILE strictly, TIMES times over: first with the list read in each
//! call, then with a list that was read once, of which it also asks the requirements and the truth where none is met. Then
//! it answers a hundred times the lines by one call of `lines`. It prints how many calls gave `Ok` on standard output, and
//! the nanoseconds of a line on standard error.
#![tactic(auto)]

mod calls;

use crate::calls::{Call, answered_lines, total};
use spdx::Catalogue;
use std::process::ExitCode;
use std::time::{CpuClock, Duration};
use std::{env, fs, io};

// So many times the lines are answered by one call.
const COPIES: usize = 100;

fn nanoseconds(time: Duration) -> u64 {
    time.as_secs()
        .saturating_mul(1_000_000_000)
        .saturating_add(u64::from(time.subsec_nanos()))
}

// Prints what so many calls gave, and how long one took.
fn print_measure(
    rt: &HostRuntime,
    name: &str,
    start: Duration,
    ok: u64,
    calls: u64,
) -> io::Result<()> {
    let spent = nanoseconds(rt.process_cpu_time()?).saturating_sub(nanoseconds(start));
    println!(rt; "{name}: {ok} of {calls}")?;
    eprintln!(rt; "Rattle, {name}: {}", spent / calls.max(1))?;
    Ok(())
}

fn measure(
    rt: &HostRuntime,
    list: &[u8],
    catalogue: &Catalogue,
    lines: &[&[u8]],
    times: u64,
) -> io::Result<()> {
    let calls = [
        ("check", Call::Whole(list)),
        ("check, list read before", Call::Check(catalogue)),
        (
            "requirements, list read before",
            Call::Requirements(catalogue),
        ),
        ("evaluate_bits, list read before", Call::Truth(catalogue)),
    ];
    for (name, call) in calls {
        let start = rt.process_cpu_time()?;
        let ok = total(rt.alloc(), call, lines, times);
        print_measure(
            rt,
            name,
            start,
            ok,
            times.saturating_mul(lines.len() as u64),
        )?;
    }
    Ok(())
}

// All lines, a hundred times over, by one call that reads the list.
fn measure_lines(rt: &HostRuntime, list: &[u8], text: &[u8]) -> io::Result<()> {
    let mut many = Vec::new(rt.alloc());
    for _ in 0..COPIES {
        many.extend_from_slice(text)?;
    }
    let start = rt.process_cpu_time()?;
    let (accepted, all) = answered_lines(rt.alloc(), list, &many);
    print_measure(rt, "lines", start, accepted, all)
}

// The arguments: a list, a file of lines, and how many times to read them.
fn start(rt: &HostRuntime) -> io::Result<u8> {
    let words: Vec<String> = env::args(rt)?.skip(1).collect(rt.alloc())?;
    let [list, file, times] = words.as_slice() else {
        eprintln!(rt; "usage: spdx_calls_bench LIST FILE TIMES")?;
        return Ok(2);
    };
    let times = times.as_str().parse::<u64>().unwrap_or(1);
    let list = fs::read(rt, list.as_str())?;
    let text = fs::read_to_string(rt, file.as_str())?;
    let Ok(catalogue) = Catalogue::from_json(rt.alloc(), list.as_slice()) else {
        eprintln!(rt; "no list")?;
        return Ok(2);
    };
    let lines: Vec<&[u8]> = text
        .lines()
        .map(|line| line.as_bytes())
        .collect(rt.alloc())?;
    measure(rt, &list, &catalogue, &lines, times)?;
    measure_lines(rt, &list, text.as_bytes())?;
    Ok(0)
}

fn main(rt: HostRuntime) -> ExitCode {
    match start(&rt) {
        Ok(status) => ExitCode::from(status),
        Err(_) => ExitCode::from(3),
    }
}
