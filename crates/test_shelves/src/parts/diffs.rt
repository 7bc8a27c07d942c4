// What is told of the changes between two files, over a shelf of values.
//
// The first rows are the shelf's files, as `shelf` reads them; they have columns with tabs between. A row
// `OLD NEW | POLICY => WANTED`, where `-` is no policy, has the status and the faults of files that are left out, in brackets;
// and then what is told, with ` / ` between lines, and how many came, went, changed and are refused. A line that begins with
// `#` says something to readers.

use crate::shelf::{REPLACEMENTS, inside, lines_of, told_faults};
use changes_program::{Request, Run, changes};
use gate_program::{GateTrouble, PolicyTrouble};
use package_changes::Format;
use package_files::{Source, Wanted};
use package_sources::Form;
use shelves::Held;
use std::alloc::{AllocError, Global};

pub(crate) fn answer(alloc: Global, shelf: &Held, given: &str) -> Result<String, AllocError> {
    let (paths, policy) = given.split_once(" | ").unwrap_or((given, "-"));
    let (old, new) = paths.split_once(' ').unwrap_or((paths, ""));
    let request = Request {
        list: None,
        policy: if policy == "-" { None } else { Some(policy) },
        wanted: Wanted {
            source: Source::Named(Form::Tsv { header: false }),
            allow_empty: false,
            exclude_own: false,
        },
        old,
        new,
        format: Format::Text,
    };
    match changes(alloc, shelf, inside(), REPLACEMENTS.as_bytes(), request) {
        Ok(run) => told(alloc, &run),
        Err(GateTrouble::List(_)) => String::from_str(alloc, "no list"),
        Err(GateTrouble::Policy(PolicyTrouble::Memory) | GateTrouble::Memory) => Err(AllocError),
        Err(GateTrouble::Policy(_)) => String::from_str(alloc, "no policy"),
    }
}

fn told(alloc: Global, run: &Run) -> Result<String, AllocError> {
    let status = run.status();
    let mut told = format!(in alloc; "{status}:")?;
    told.push_str(told_faults(alloc, &run.left_out)?.as_str())?;
    if let Some(all) = &run.told {
        told.push_str(lines_of(alloc, &all.text)?.as_str())?;
        let totals = all.totals;
        let (came, went) = (totals.came, totals.went);
        let (changed, more, refused) = (totals.changed, totals.more, totals.refused);
        let totals = format!(in alloc; "; {came} {went} {changed} {more} {refused}")?;
        told.push_str(totals.as_str())?;
    }
    Ok(told)
}
