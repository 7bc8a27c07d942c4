//! The processor time of each call of `spdx` on many texts.
//!
//! spdx_bench CATALOGUE FILE TIMES [LICENSEE].. makes each call on each line of FILE, TIMES times over: tokens and
//! trees by both modes, and canonical texts. Of the first thousand lines that `LAX` accepts it asks the truth, where the
//! licences that the Open Source Initiative has approved are allowed, and the least choice among the first three
//! licensees and among all, once more for each thousand of FILE. It prints what the calls gave, added up, and of how
//! many calls, on standard output, and their nanoseconds on standard error.
#![tactic(auto)]

mod calls;

use crate::calls::{Question, Reading, total_of_answers, total_of_readings};
use spdx::{Catalogue, Expression, Licensee, ParseMode};
use std::alloc::{AllocError, Global};
use std::process::ExitCode;
use std::time::{CpuClock, Duration};
use std::{env, fs, io};

// So many stay near the processor.
const KEPT: usize = 1_000;

// The first expressions among the lines, by `LAX`.
fn expressions<'c>(
    alloc: Global,
    catalogue: &'c Catalogue,
    lines: &[&str],
) -> Result<Vec<Expression<'c>>, AllocError> {
    let mut read = Vec::new(alloc);
    for line in lines {
        if read.len() == KEPT {
            break;
        }
        if let Ok(expression) = Expression::parse_mode(alloc, catalogue, *line, ParseMode::LAX) {
            read.push(expression)?;
        }
    }
    Ok(read)
}

// The licensees among the words.
fn licensees<'c>(
    alloc: Global,
    catalogue: &'c Catalogue,
    words: &[String],
) -> Result<Vec<Licensee<'c>>, AllocError> {
    let mut read = Vec::new(alloc);
    for word in words {
        if let Ok(licensee) = Licensee::parse(alloc, catalogue, word.as_str()) {
            read.push(licensee)?;
        }
    }
    Ok(read)
}

fn nanoseconds(time: Duration) -> u64 {
    time.as_secs()
        .saturating_mul(1_000_000_000)
        .saturating_add(u64::from(time.subsec_nanos()))
}

// Prints what so many calls gave, and how long they took.
fn print_measure(
    rt: &HostRuntime,
    name: &str,
    start: Duration,
    total: u64,
    calls: u64,
) -> io::Result<()> {
    let spent = nanoseconds(rt.process_cpu_time()?).saturating_sub(nanoseconds(start));
    println!(rt; "{name}: {total} of {calls}")?;
    eprintln!(rt; "{name}: {spent}")?;
    Ok(())
}

fn measure_readings(
    rt: &HostRuntime,
    catalogue: &Catalogue,
    lines: &[&str],
    times: u64,
) -> io::Result<()> {
    let calls = [
        ("strict tokens", Reading::Tokens(ParseMode::STRICT)),
        ("lax tokens", Reading::Tokens(ParseMode::LAX)),
        ("strict trees", Reading::Tree(ParseMode::STRICT)),
        ("lax trees", Reading::Tree(ParseMode::LAX)),
        ("canonical texts", Reading::Canonical),
    ];
    for (name, call) in calls {
        let start = rt.process_cpu_time()?;
        let total = total_of_readings(rt.alloc(), catalogue, call, lines, times);
        print_measure(
            rt,
            name,
            start,
            total,
            times.saturating_mul(lines.len() as u64),
        )?;
    }
    Ok(())
}

fn measure_answers<'c>(
    rt: &HostRuntime,
    expressions: &[Expression<'c>],
    accepted: &[Licensee<'c>],
    times: u64,
) -> io::Result<()> {
    let few = &accepted[..accepted.len().min(3)];
    let calls = [
        ("truths", Question::Truth),
        ("choices among three", Question::Choice(few)),
        ("choices among all", Question::Choice(accepted)),
    ];
    for (name, call) in calls {
        let start = rt.process_cpu_time()?;
        let total = total_of_answers(rt.alloc(), expressions, call, times);
        print_measure(
            rt,
            name,
            start,
            total,
            times.saturating_mul(expressions.len() as u64),
        )?;
    }
    Ok(())
}

// The arguments: a catalogue, a file of lines, how many times to read them, and licensees.
fn start(rt: &HostRuntime) -> io::Result<u8> {
    let words: Vec<String> = env::args(rt)?.skip(1).collect(rt.alloc())?;
    let [catalogue, file, times, names @ ..] = words.as_slice() else {
        eprintln!(rt; "usage: spdx_bench CATALOGUE FILE TIMES [LICENSEE]..")?;
        return Ok(2);
    };
    let times = times.as_str().parse::<u64>().unwrap_or(1);
    let rows = fs::read(rt, catalogue.as_str())?;
    let text = fs::read_to_string(rt, file.as_str())?;
    let Ok(catalogue) = Catalogue::from_json(rt.alloc(), rows.as_slice()) else {
        eprintln!(rt; "no catalogue")?;
        return Ok(2);
    };
    let lines: Vec<&str> = text.lines().collect(rt.alloc())?;
    let expressions = expressions(rt.alloc(), &catalogue, &lines)?;
    let accepted = licensees(rt.alloc(), &catalogue, names)?;
    measure_readings(rt, &catalogue, &lines, times)?;
    let thousands = (lines.len() / KEPT).max(1) as u64;
    measure_answers(rt, &expressions, &accepted, times.saturating_mul(thousands))?;
    Ok(0)
}

fn main(rt: HostRuntime) -> ExitCode {
    match start(&rt) {
        Ok(status) => ExitCode::from(status),
        Err(_) => ExitCode::from(3),
    }
}
