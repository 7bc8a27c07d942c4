//! Checks and mends SPDX licence expressions: the program over the process's own arguments and outputs.
#![tactic(auto)]

mod given;

use given::words;
use line_engine::stream::Output;
use spdx_program::{Screen, Teller, inside, known_version, run};
use spdx_words::{Request, read};
use std::alloc::AllocError;
use std::env;
use std::io::{self, IsTerminal, Write};
use std::process::ExitCode;

const VERSION: &str = "0.1.0";

// The status where what was asked for can't be written, or memory was refused.
const FAILED: u8 = 3;

fn main(rt: HostRuntime) -> ExitCode {
    match status(&rt) {
        Ok(status) => ExitCode::from(status),
        Err(AllocError) => {
            let _ = rt.stderr().write_all(b"spdx: out of memory\n");
            ExitCode::from(FAILED)
        }
    }
}

fn status(rt: &HostRuntime) -> Result<u8, AllocError> {
    let alloc = rt.alloc();
    let words = words(rt)?;
    let list = known_version();
    let version = format!(in alloc; "{VERSION} (SPDX license list {list})")?;
    let request: Request<'_> = match read(alloc, version.as_str(), words.as_slice()) {
        Ok(request) => request,
        // Words that ask for help or the version are one, too, whose code is 0.
        Err(error) => {
            let code = error.exit_code() as u8;
            let is_lost = error.print(rt).is_err() && code == 0;
            return Ok(if is_lost { FAILED } else { code });
        }
    };
    let screen = Screen {
        colours: rt.stdout().is_terminal() && env::var(rt, "NO_COLOR").is_err(),
        progress: rt.stderr().is_terminal(),
    };
    let mut output = Output::new(io::writer(rt));
    let mut teller = Teller {
        faults: Output::new(rt.stderr()),
        screen,
    };
    Ok(run(rt, inside(), &request, &mut output, &mut teller))
}
