//! What is written in each form, to be read by eye: texts of others, findings, verdicts, and pages of packages.
//!
//! Each part is told behind a line `== PART`. The rows of the first two lie where the program runs, NAME.rows; the head of
//! each module has the form of its rows, or what it shows.
#![tactic(auto)]

mod findings;
mod foreign;
mod notices;
mod verdicts;

use std::io::Write;
use std::{fs, io};

fn main(rt: HostRuntime) -> io::Result<()> {
    let mut shown = Vec::new(rt.alloc());
    shown.extend_from_slice(b"== foreign\n")?;
    let rows = fs::read_to_string(&rt, "foreign.rows")?;
    foreign::put_rows(rt.alloc(), &mut shown, rows.as_str())?;
    shown.extend_from_slice(b"== findings\n")?;
    let rows = fs::read_to_string(&rt, "findings.rows")?;
    findings::put_rows(rt.alloc(), &mut shown, rows.as_str())?;
    shown.extend_from_slice(b"== verdicts\n")?;
    verdicts::put_verdicts(rt.alloc(), &mut shown)?;
    shown.extend_from_slice(b"== notices\n")?;
    notices::put_pages(rt.alloc(), &mut shown)?;
    io::writer(&rt).write_all(shown.as_slice())
}
