//! The rows of packages: which ones a file lists, what a policy says of them, what they are used under, which texts are
//! owed with them, where the tags of their files stand, and what changed between two lists of them.
//!
//! Each part has its rows in a file that lies where the program runs, NAME.rows, and is told behind a line `== PART`: of
//! `sources` the packages of each file, to be read by eye, and of the others the rows that don't hold, then how many do. No
//! wanted value was taken from the libraries' own output. The head of each module has the form of its rows.
#![tactic(auto)]

mod changes;
mod choices;
mod escapes;
mod folders;
mod names;
mod own_texts;
mod parts;
mod policies;
mod sources;
mod tags;

use crate::parts::PARTS;
use spdx_catalogue::Catalogue;
use spdx_known::LIST;
use std::io::{self, Write};
use std::process::ExitCode;

fn start(rt: &HostRuntime) -> io::Result<u8> {
    let Ok(catalogue) = Catalogue::from_json(rt.alloc(), LIST.as_bytes()) else {
        return Ok(2);
    };
    let mut shown = String::new(rt.alloc());
    let mut are_good = true;
    for part in PARTS {
        are_good &= part.try_file(rt, &mut shown, &catalogue)?;
    }
    io::writer(rt).write_all(shown.as_bytes())?;
    Ok(u8::from(!are_good))
}

fn main(rt: HostRuntime) -> ExitCode {
    match start(&rt) {
        Ok(status) => ExitCode::from(status),
        Err(_) => ExitCode::from(3),
    }
}
