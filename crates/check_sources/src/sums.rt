// What a check counts, and its last lines.

ghost use Rattle.std.specs.Prelude.{◌≡◌, ◌++◌, IfOk, OnOk, codes, decimal, map, string_bytes};
ghost use Rattle.check_sources.specs.Sums as spec;
ghost use Rattle.check_sources.specs.Sums.{IsNew, PassesExactly};

use finding_forms::put_totals;
use foreign_text::{Sink, text_for};
use spdx_check::Totals;
use std::alloc::{AllocError, Global};

// So many paths are named.
const NAMED: usize = 3;

// What is said of manifests whose license is a table.
const TABLES: &str = "license is a table of before PEP 639, not judged: ";

/// What is counted, and what was left out. Counts stay at `u64::MAX`.
#[derive(Drop)]
pub struct Sums {
    pub totals: Totals,
    /// The folders that were left out.
    pub left_out: Vec<String>,
    /// The manifests whose license is a table, as it was before PEP 639.
    pub tables: Vec<String>,
    /// The license texts that are missing or that nobody needs.
    pub texts: u64,
    /// The files without a license that were told.
    pub bare: u64,
    /// The files without a license in folders that have license texts.
    pub untagged: u64,
}

impl Sums {
    /// Of nothing.
    pub fn new(alloc: Global) -> Sums
        ensures { IsNew result }
    {
        Sums {
            totals: Totals::default(),
            left_out: Vec::new(alloc),
            tables: Vec::new(alloc),
            texts: 0,
            bare: 0,
            untagged: 0,
        }
    }

    /// Whether nothing was told yet.
    pub fn is_clean(&self) -> bool
        ensures { result ≡ spec.is_clean self.now }
    {
        self.totals.refused == 0 && self.texts == 0 && self.bare == 0
    }

    /// The status of the program: 2 where a path could not be read, else 1 where something was told, else 0.
    pub fn status(&self) -> u8
        ensures exact { result ≡ spec.status_of self.now }
        ensures passes { PassesExactly self.now result }
    {
        if self.totals.is_short {
            2
        } else if self.is_clean() {
            0
        } else {
            1
        }
    }
}

/// The last lines: how many expressions were read in how many files, and how many were refused; and where there are such, how
/// many license texts are missing or not needed, how many files are without a license, which manifests have a license that
/// isn't judged, and which folders were left out. Of many paths the first three are named.
///
/// # Errors
///
/// Memory was refused.
pub fn summary_of(alloc: Global, sums: &Sums) -> Result<Vec<u8>, AllocError>
    ensures { IfOk result (λ text. text.items ≡ spec.summary_text sums.now) }
{
    let mut text = Vec::new(alloc);
    put_totals(
        alloc,
        &mut text,
        sums.totals.expressions,
        sums.totals.files,
        sums.totals.refused,
    )?;
    put_texts(alloc, &mut text, sums.texts)?;
    put_untagged(alloc, &mut text, sums.untagged)?;
    put_paths(alloc, &mut text, TABLES, &sums.tables)?;
    put_paths(alloc, &mut text, "left out: ", &sums.left_out)?;
    Ok(text)
}

// Appends how many license texts are missing or not needed, if any are.
#[tactic(auto, unfolding(crate::specs::Sums::texts_line))]
fn put_texts(alloc: Global, text: &mut Vec<u8>, count: u64) -> Result<(), AllocError>
    ensures { OnOk result (text.new.items ≡ text.old.items ++ spec.texts_line count) }
{
    if count > 0 {
        let line = format!(in alloc; "license texts missing or not needed: {count}\n")?;
        text.extend_from_slice(line.as_bytes())?;
    }
    Ok(())
}

// Appends how many files are without a license, if any are.
#[tactic(auto, unfolding(crate::specs::Sums::untagged_line))]
fn put_untagged(alloc: Global, text: &mut Vec<u8>, count: u64) -> Result<(), AllocError>
    ensures { OnOk result (text.new.items ≡ text.old.items ++ spec.untagged_line count) }
{
    if count > 0 {
        let line = format!(in alloc; "without a license: {count} (--untagged tells which)\n")?;
        text.extend_from_slice(line.as_bytes())?;
    }
    Ok(())
}

// Appends a line of paths, the first of them by name, if there are any.
fn put_paths(
    alloc: Global,
    text: &mut Vec<u8>,
    said: &str,
    paths: &[String],
) -> Result<(), AllocError>
    ensures { OnOk result (text.new.items
        ≡ text.old.items ++ spec.paths_line said.now (map string_bytes paths.now)) }
{
    let [first, others @ ..] = paths else {
        return Ok(());
    };
    text.extend_from_slice(said.as_bytes())?;
    put_path(alloc, text, first.as_str())?;
    put_others(alloc, text, others.get(..NAMED - 1).unwrap_or(others))?;
    put_more(alloc, text, paths.len())?;
    text.push(b'\n')?;
    Ok(())
}

fn put_path(alloc: Global, text: &mut Vec<u8>, path: &str) -> Result<(), AllocError>
    ensures { OnOk result (text.new.items ≡ text.old.items ++ spec.shown_path path.now) }
{
    let name = text_for(alloc, Sink::Line, path)?;
    text.extend_from_slice(name.as_bytes())
}

fn put_others(alloc: Global, text: &mut Vec<u8>, paths: &[String]) -> Result<(), AllocError>
    ensures { OnOk result (text.new.items
        ≡ text.old.items ++ spec.other_paths (map string_bytes paths.now)) }
{
    for path in paths {
        text.extend_from_slice(b", ")?;
        put_path(alloc, text, path.as_str())?;
    }
    Ok(())
}

// Appends how many paths there are besides those that are named, if there are more.
fn put_more(alloc: Global, text: &mut Vec<u8>, count: usize) -> Result<(), AllocError>
    ensures { OnOk result (text.new.items ≡ text.old.items ++ spec.more_paths count) }
{
    if count > NAMED {
        let more = count - NAMED;
        let rest = format!(in alloc; " and {more} more")?;
        text.extend_from_slice(rest.as_bytes())?;
    }
    Ok(())
}
