//! The program `spdx`: what the words of a command line ask for, done over a shelf of files, or over the system.
//!
//! ```rust
//! // crates/spdx_main/src/main.rt
//! Ok(run(rt, inside(), &request, &mut output, &mut teller))
//! ```
//!
//! `serve` is the whole of it under contract: what `perform` does, and what standard error has of that. Each command is a file of `commands`,
//! which asks the command's own crate for what the request asks: `check`, `fix`, `gate`, `notice`, `compare`, `simplify`,
//! `changes` for `spdx diff`, and below `list` `show`, `make` and `diff`. `run` is `serve` over the system, whose word is
//! trusted. It stands on all crates of the program.
#![tactic(auto)]

mod commands;
mod ended;
mod files;
mod outputs;
mod packages;
mod readings;
mod requests;
mod runs;
mod teller;

pub use crate::commands::list::{inside, known_version};
pub use crate::ended::Ended;
pub use crate::files::system::System;
pub use crate::outputs::Screen;
pub use crate::requests::perform;
pub use crate::runs::{run, serve};
pub use crate::teller::Teller;
