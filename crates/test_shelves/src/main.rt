//! The rows of what is read over a shelf of values: which list, which packages, what the gate
//! says of them, what changed between two lists of them, how two expressions compare, what each line means, what a
//! list says of names, by what two lists differ, which files are below a folder, what mends files and what comes of putting it
//! in their places, what packages are used under, the page of their texts, what is found in files and folders, what commands
//! write and tell, and how an error of the system is told.
//!
//! Each part has its rows in a file that lies where the program runs, PART.rows, and is told behind a line `== PART`: those
//! that don't hold, then how many do. The head of each module has the form of its rows.
#![tactic(auto)]

mod desk;
mod fragile;
mod parts;
mod shelf;
mod told;

use crate::parts::{PARTS, Part};
use std::io::Write;
use std::process::ExitCode;
use std::{fs, io};

fn try_part(rt: &HostRuntime, shown: &mut String, part: Part) -> io::Result<bool> {
    let name = part.name();
    writeln!(shown, "== {name}")?;
    let path = format!(in rt.alloc(); "{name}.rows")?;
    let rows = fs::read_to_string(rt, path.as_str())?;
    Ok(part.try_rows(rt.alloc(), shown, rows.as_str())?)
}

fn start(rt: &HostRuntime) -> io::Result<u8> {
    let mut shown = String::new(rt.alloc());
    let mut are_good = true;
    for part in PARTS {
        are_good &= try_part(rt, &mut shown, part)?;
    }
    io::writer(rt).write_all(shown.as_bytes())?;
    Ok(u8::from(!are_good))
}

fn main(rt: HostRuntime) -> ExitCode {
    match start(&rt) {
        Ok(status) => ExitCode::from(status),
        Err(_) => ExitCode::from(3),
    }
}
