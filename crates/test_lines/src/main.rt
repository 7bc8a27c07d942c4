//! The program of lines as its library serves it: its worked rows, as `serve` answers them, with the status, the output and
//! what is told of a fault; and its worked lines over readers and writers that fail, that give or take little, or that end,
//! at each byte.
//!
//! test_lines CATALOGUE reads rows from standard input, each `CATALOGUE|WORDS|LINES => STATUS|OUTPUT|FAULTS`: `k1` is the
//! catalogue of the file, `-` one that can't be read, and another is the bytes themselves; words have commas between; in
//! LINES, OUTPUT and FAULTS `;` is a newline, `_` a tab and `~` a carriage return. Each row that doesn't hold is printed with
//! what was answered, and at last how many hold. Then it prints for each row of tries over devices how many cases were as
//! they are wanted, or the first that was not.
#![tactic(auto)]

mod devices;
mod rows;
mod served;
mod shown;
mod tries;
mod ways;
mod worked;

use crate::devices::Full;
use crate::rows::try_row;
use crate::shown::Shown;
use crate::tries::parts::Asked;
use crate::tries::{again, long, parts, readers, writers};
use crate::ways::{Judge, WAYS, Way};
use crate::worked::{LAX, NORMAL, STRICT, Worked};
use spdx::{Catalogue, Licensee};
use std::alloc::AllocError;
use std::process::ExitCode;
use std::{env, fs, io};
use test_rows::Tally;

fn print_row(rt: &HostRuntime, way: Way, row: &str, shown: Shown) -> io::Result<()> {
    println!(rt; "{way}, {row}: {shown}")
}

fn print_part(rt: &HostRuntime, row: &str, asked: Asked) -> io::Result<()> {
    match asked {
        Some(count) => println!(rt; "{row}: asked {count} times"),
        None => println!(rt; "{row}: differs"),
    }
}

fn try_writers(rt: &HostRuntime, judge: &Judge<'_>, way: Way) -> io::Result<()> {
    let all = usize::MAX;
    print_row(
        rt,
        way,
        "all is read and written",
        writers::whole(judge, way, &LAX),
    )?;
    let shown = writers::cut_short(judge, way, all, Full::Error);
    print_row(rt, way, "a writer fails after k bytes", shown)?;
    let shown = writers::cut_short(judge, way, 1, Full::Error);
    print_row(rt, way, "a writer of single bytes fails after k", shown)?;
    let shown = writers::cut_short(judge, way, all, Full::NoByte);
    print_row(rt, way, "a writer takes no byte after k", shown)?;
    print_row(rt, way, "a flush fails", writers::unflushed(judge, way))
}

fn try_readers(rt: &HostRuntime, judge: &Judge<'_>, way: Way) -> io::Result<()> {
    let all = usize::MAX;
    let shown = readers::broken_off(judge, way, all);
    print_row(rt, way, "a reader fails after k bytes", shown)?;
    let shown = readers::broken_off(judge, way, 1);
    print_row(rt, way, "a reader of single bytes fails after k", shown)?;
    let shown = readers::cut_off(judge, way, all)?;
    print_row(rt, way, "the input ends after k bytes", shown)?;
    let shown = readers::cut_off(judge, way, 1)?;
    print_row(rt, way, "the input ends after k single bytes", shown)?;
    let shown = again::failed_input(judge, way);
    print_row(rt, way, "a second run on a failed input", shown)?;
    let shown = again::failed_output(judge, way);
    print_row(rt, way, "a second run on a failed output", shown)
}

fn try_parts(rt: &HostRuntime) -> io::Result<()> {
    let alloc = rt.alloc();
    print_part(
        rt,
        "reads where a reader has failed",
        parts::input_that_fails(),
    )?;
    print_part(rt, "reads into no room", parts::input_without_room())?;
    print_part(rt, "reads at the end", parts::input_at_its_end())?;
    let asked = parts::output_that_fails(alloc, Full::Error);
    print_part(rt, "writes and flushes where a write has failed", asked)?;
    let asked = parts::output_that_fails(alloc, Full::NoByte);
    print_part(rt, "writes and flushes where a write took no byte", asked)?;
    let asked = parts::output_that_is_not_flushed(alloc);
    print_part(rt, "writes and flushes where a flush has failed", asked)?;
    print_part(rt, "writes of no byte", parts::output_without_bytes(alloc))?;
    print_part(
        rt,
        "a write by single bytes",
        parts::output_of_one_byte(alloc),
    )
}

fn try_all(rt: &HostRuntime, judge: &Judge<'_>) -> io::Result<()> {
    try_parts(rt)?;
    for way in WAYS {
        try_writers(rt, judge, way)?;
        try_readers(rt, judge, way)?;
    }
    print_row(
        rt,
        Way::Run,
        "a line of more than 2 MiB",
        long::long_line(judge)?,
    )
}

// Tries lines of the judge's mode.
fn try_mode(rt: &HostRuntime, judge: &Judge<'_>, row: &str, worked: &Worked) -> io::Result<()> {
    for way in WAYS {
        print_row(rt, way, row, writers::whole(judge, way, worked))?;
    }
    Ok(())
}

// Apache-2.0 and MIT, in this order; none where one of them isn't listed.
fn licensees<'c>(
    rt: &HostRuntime,
    catalogue: &'c Catalogue,
) -> Result<Option<Vec<Licensee<'c>>>, AllocError> {
    let mut accepted = Vec::new(rt.alloc());
    for name in ["Apache-2.0", "MIT"] {
        match Licensee::parse(rt.alloc(), catalogue, name) {
            Ok(licensee) => accepted.push(licensee)?,
            Err(_) => return Ok(None),
        }
    }
    Ok(Some(accepted))
}

fn try_over(rt: &HostRuntime, rows: &[u8]) -> io::Result<u8> {
    let Ok(catalogue) = Catalogue::from_json(rt.alloc(), rows) else {
        eprintln!(rt; "no catalogue")?;
        return Ok(2);
    };
    let Some(accepted) = licensees(rt, &catalogue)? else {
        eprintln!(rt; "no licensees")?;
        return Ok(2);
    };
    let mut judge = Judge {
        alloc: rt.alloc(),
        catalogue: &catalogue,
        mode: LAX.mode,
        accepted,
    };
    try_all(rt, &judge)?;
    judge.mode = STRICT.mode;
    try_mode(rt, &judge, "strict lines", &STRICT)?;
    judge.mode = NORMAL.mode;
    try_mode(rt, &judge, "normal texts", &NORMAL)?;
    Ok(0)
}

// Tries the rows over this catalogue, and says how many hold.
fn try_rows(rt: &HostRuntime, catalogue: &[u8], text: &str) -> io::Result<u8> {
    let mut tally = Tally::new();
    let mut shown = String::new(rt.alloc());
    for line in text.lines() {
        if !line.is_empty() && !line.starts_with('#') {
            try_row(rt.alloc(), &mut tally, &mut shown, catalogue, line)?;
        }
    }
    let is_good = tally.end(&mut shown)?;
    rt.print(shown.as_str())?;
    Ok(u8::from(!is_good))
}

// The argument: a catalogue.
fn start(rt: &HostRuntime) -> io::Result<u8> {
    let Some(path) = env::args(rt)?.nth(1) else {
        eprintln!(rt; "usage: test_lines CATALOGUE")?;
        return Ok(2);
    };
    let catalogue = fs::read(rt, path.as_str())?;
    let rows = io::read_to_string(rt.alloc(), rt.reader())?;
    let of_rows = try_rows(rt, &catalogue, rows.as_str())?;
    let of_devices = try_over(rt, &catalogue)?;
    Ok(if of_rows == 0 { of_devices } else { of_rows })
}

fn main(rt: HostRuntime) -> ExitCode {
    match start(&rt) {
        Ok(status) => ExitCode::from(status),
        Err(_) => ExitCode::from(3),
    }
}
