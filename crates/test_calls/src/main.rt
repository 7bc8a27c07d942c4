//! The worked rows of the public calls of `spdx`: what each call makes of texts.
//!
//! test_calls LIST reads rows from standard input. A line `= CATALOGUE: CALL` says which call, over which catalogue (`list`
//! is that of the file LIST), the rows behind it are of; a row is `GIVEN => WANTED`, its fields parted by `|`; a line that
//! begins with `#` says something to readers. Each row that doesn't hold is printed with what was answered, and at last how
//! many hold. No wanted value was taken from the library's own output.
#![tactic(auto)]

mod answer;
mod calls;
mod catalogues;
mod rows;

use crate::catalogues::Catalogues;
use crate::rows::Tally;
use std::process::ExitCode;
use std::{env, fs, io};

// Tries each line, and says how many rows hold.
fn try_rows(rt: &HostRuntime, list: &[u8], text: &str) -> io::Result<u8> {
    let Ok(catalogues) = Catalogues::new(rt.alloc(), list) else {
        println!(rt; "no catalogues")?;
        return Ok(2);
    };
    let mut tally = Tally::new(&catalogues);
    for line in text.lines() {
        let shown = tally.take(rt.alloc(), line)?;
        rt.print(shown.as_str())?;
    }
    let (held, others) = (tally.held, tally.others);
    println!(rt; "{held} rows hold, {others} don't")?;
    Ok(u8::from(others > 0))
}

fn start(rt: &HostRuntime) -> io::Result<u8> {
    let Some(path) = env::args(rt)?.nth(1) else {
        println!(rt; "usage: test_calls LIST")?;
        return Ok(2);
    };
    let list = fs::read(rt, path.as_str())?;
    let text = io::read_to_string(rt.alloc(), rt.reader())?;
    try_rows(rt, list.as_slice(), text.as_str())
}

fn main(rt: HostRuntime) -> ExitCode {
    match start(&rt) {
        Ok(status) => ExitCode::from(status),
        Err(_) => ExitCode::from(3),
    }
}
