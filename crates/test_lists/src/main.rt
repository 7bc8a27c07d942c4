//! The rows of lists: what names may be meant by a list, and which lists are made of SPDX's files.
//!
//! Each part has its rows in a file that lies where the program runs, NAME.rows, and is told behind a line `== PART`: those
//! that don't hold, then how many do. At last stands what became of licenses.json and exceptions.json, which lie there too.
//! The head of each module has the form of its rows.
#![tactic(auto)]

mod hinted;
mod lined;
mod made;

use spdx_catalogue::Catalogue;
use spdx_known::LIST;
use std::io::Write;
use std::process::ExitCode;
use std::{fs, io};

fn try_hinted(rt: &HostRuntime, shown: &mut String, catalogue: &Catalogue) -> io::Result<bool> {
    shown.push_str("== hinted\n")?;
    let rows = fs::read_to_string(rt, "hinted.rows")?;
    Ok(hinted::try_rows(rt.alloc(), shown, catalogue, rows.as_str())?)
}

fn try_made(rt: &HostRuntime, shown: &mut String) -> io::Result<bool> {
    shown.push_str("== made\n")?;
    let rows = fs::read_to_string(rt, "made.rows")?;
    let is_good = made::try_rows(rt.alloc(), shown, rows.as_str())?;
    let licenses = fs::read(rt, "licenses.json")?;
    let exceptions = fs::read(rt, "exceptions.json")?;
    let said = made::real(rt.alloc(), licenses.as_slice(), exceptions.as_slice())?;
    shown.push_str(said.as_str())?;
    shown.push('\n')?;
    Ok(is_good)
}

fn start(rt: &HostRuntime) -> io::Result<u8> {
    let Ok(catalogue) = Catalogue::from_json(rt.alloc(), LIST.as_bytes()) else {
        return Ok(2);
    };
    let mut shown = String::new(rt.alloc());
    let are_hints_good = try_hinted(rt, &mut shown, &catalogue)?;
    let are_lists_good = try_made(rt, &mut shown)?;
    shown.push_str("== lines\n")?;
    let are_lines_good = lined::try_rows(rt.alloc(), &mut shown, &catalogue)?;
    io::writer(rt).write_all(shown.as_bytes())?;
    Ok(u8::from(!(are_hints_good && are_lists_good && are_lines_good)))
}

fn main(rt: HostRuntime) -> ExitCode {
    match start(&rt) {
        Ok(status) => ExitCode::from(status),
        Err(_) => ExitCode::from(3),
    }
}
