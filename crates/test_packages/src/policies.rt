// What policies say of requirements.
//
// A line `==` stands between two sections. A section is a policy in TOML, or `@FILE` for the file of one, then a line `--` and
// rows, each a question and what is to be answered, with `=>` between. A policy behind a line `%FILE` is read by the list in
// that file, and others by the list inside.
//
// - `policy`: its settings, or why it is none
// - `PACKAGE VERSION REQUIREMENT`: which entry decides the requirement of the package; `-` is no version
// - `? PACKAGE VERSION`: the expression of the clarification that holds for the package

mod answers;

use crate::policies::answers::{answer, fault_text};
use spdx_catalogue::Catalogue;
use spdx_licensee::{ReplacedName, Replacements};
use spdx_policy::Policy;
use std::alloc::{AllocError, Global};
use std::fs;
use std::io::{self, ErrorKind};
use test_rows::Tally;

// What stands in the place of deprecated names that the rows have.
const REPLACEMENTS: [ReplacedName<'static>; 2] = [
    ReplacedName {
        name: "GPL-2.0-with-classpath-exception",
        write: "GPL-2.0-only WITH Classpath-exception-2.0",
    },
    ReplacedName {
        name: "Nokia-Qt-exception-1.1",
        write: "Qt-LGPL-exception-1.1",
    },
];

/// Appends the rows that don't hold, and how many do; gives whether all do.
pub(crate) fn try_rows(
    rt: &HostRuntime,
    shown: &mut String,
    catalogue: &Catalogue,
    text: &str,
) -> io::Result<bool> {
    let mut tally = Tally::new();
    for section in text.split("==\n") {
        match section.strip_prefix('%') {
            Some(own) => try_by(rt, shown, &mut tally, own)?,
            None => try_section(rt, shown, &mut tally, catalogue, section)?,
        }
    }
    Ok(tally.end(shown)?)
}

fn try_section(
    rt: &HostRuntime,
    shown: &mut String,
    tally: &mut Tally,
    catalogue: &Catalogue,
    section: &str,
) -> io::Result<()> {
    let (text, rows) = section.split_once("--\n").unwrap_or((section, ""));
    let policy = policy_of(rt, catalogue, text)?;
    for row in rows.lines() {
        if !row.is_empty() && !row.starts_with('#') {
            let (asked, wanted) = row.split_once("=>").unwrap_or((row, ""));
            let answered = answer_by(rt, catalogue, &policy, asked.trim())?;
            tally.count(shown, row, wanted.trim(), answered.as_str())?;
        }
    }
    Ok(())
}

// The same of a section that names its own list.
fn try_by(rt: &HostRuntime, shown: &mut String, tally: &mut Tally, own: &str) -> io::Result<()> {
    let (path, section) = own.split_once('\n').unwrap_or((own, ""));
    let list = fs::read(rt, path)?;
    match Catalogue::from_json(rt.alloc(), list.as_slice()) {
        Ok(catalogue) => try_section(rt, shown, tally, &catalogue, section),
        Err(_) => Err(io::Error::from(ErrorKind::InvalidData)),
    }
}

fn answer_by<'c>(
    rt: &HostRuntime,
    catalogue: &'c Catalogue,
    policy: &Result<Policy<'c>, String>,
    asked: &str,
) -> io::Result<String> {
    match policy {
        Ok(policy) => Ok(answer(rt.alloc(), catalogue, policy, asked)?),
        Err(fault) => Ok(String::from_str(rt.alloc(), fault.as_str())?),
    }
}

fn policy_of<'c>(
    rt: &HostRuntime,
    catalogue: &'c Catalogue,
    text: &str,
) -> io::Result<Result<Policy<'c>, String>> {
    match text.trim().strip_prefix('@') {
        Some(path) => {
            let bytes = fs::read(rt, path)?;
            Ok(policy_in(rt.alloc(), catalogue, bytes.as_slice())?)
        }
        None => Ok(policy_in(rt.alloc(), catalogue, text.as_bytes())?),
    }
}

fn policy_in<'c>(
    alloc: Global,
    catalogue: &'c Catalogue,
    bytes: &[u8],
) -> Result<Result<Policy<'c>, String>, AllocError> {
    let replacements = Replacements::of_rows(alloc, catalogue, &REPLACEMENTS)?;
    match Policy::from_toml(alloc, catalogue, replacements, bytes) {
        Ok(policy) => Ok(Ok(policy)),
        Err(error) => Ok(Err(fault_text(alloc, &error)?)),
    }
}
