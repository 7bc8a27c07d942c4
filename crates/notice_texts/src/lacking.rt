//! Which license texts a folder of texts lacks, and which of its files nobody needs. Of licenses it knows their names alone.

ghost use Rattle.std.specs.Prelude.{◌≡◌, ℕ, List, ◌||◌, IfOk, OnOk, map};
ghost use Rattle.std.specs.Option.{option_copied};
ghost use Rattle.notice_texts.specs.Lacking as spec;
ghost use Rattle.notice_texts.specs.Lacking.{
  holds,
  is_among,
  has_text,
  without_text,
  MissingExactly,
  UnusedExactly,
  CompleteIfNothing,
};
ghost use Rattle.notice_texts.specs.Stems as stems;
ghost use Rattle.notice_texts.specs.Sets.{Has, IsTold, IsNeedTold};

use std::alloc::{AllocError, Global};
use std::collections::BTreeSet;

/// What a folder of license texts lacks, and what it has that nobody needs.
#[derive(Debug, Drop)]
pub struct Owed<'t> {
    /// The names that are used and whose text no file holds, each once, in the order of first use.
    pub missing: Vec<&'t str>,
    /// The files that hold the text of no used name, in the order of the files.
    pub unused: Vec<&'t str>,
}

/// What is owed by a folder with these files, where these names of licenses and exceptions are used, each maybe many
/// times.
///
/// A file holds the text of a name if it is called so, as `MIT`, or so with one extension more, as `MIT.txt`. An
/// extension is a `.` and one or more bytes without a `.`. So `Apache-2.0` holds the text of `Apache-2.0`, and also
/// that of `Apache-2`. Names are compared byte for byte.
///
/// Takes `n log n` comparisons of names, for `n` used names and files together.
///
/// # Errors
///
/// Memory was refused.
pub fn owed_texts<'t>(
    alloc: Global,
    used: &[&'t str],
    files: &[&'t str],
) -> Result<Owed<'t>, AllocError>
    ensures missing { IfOk result (λ owed. map (λ t. t.now) owed.missing.items
        ≡ spec.missing (map (λ t. t.now) used.now) (map (λ t. t.now) files.now)) }
    ensures unused { IfOk result (λ owed. map (λ t. t.now) owed.unused.items
        ≡ spec.unused (map (λ t. t.now) used.now) (map (λ t. t.now) files.now)) }
    ensures missing_if { IfOk result (λ owed. MissingExactly
        (map (λ t. t.now) used.now) (map (λ t. t.now) files.now)
        (map (λ t. t.now) owed.missing.items)) }
    ensures unused_if { IfOk result (λ owed. UnusedExactly
        (map (λ t. t.now) used.now) (map (λ t. t.now) files.now)
        (map (λ t. t.now) owed.unused.items)) }
    ensures complete { IfOk result (λ owed. CompleteIfNothing
        (map (λ t. t.now) used.now) (map (λ t. t.now) files.now)
        (map (λ t. t.now) owed.missing.items)) }
{
    let names = first_names(alloc, used)?;
    let missing = missing(alloc, &names, files)?;
    let unused = unused(alloc, used, files)?;
    Ok(Owed { missing, unused })
}

// The names that no file holds.
fn missing<'t>(
    alloc: Global,
    names: &[&'t str],
    files: &[&'t str],
) -> Result<Vec<&'t str>, AllocError>
    ensures { IfOk result (λ v. map (λ t. t.now) v.items
        ≡ without_text (map (λ t. t.now) files.now) (map (λ t. t.now) names.now)) }
{
    let held = names_held(alloc, files)?;
    let held = set_of(alloc, &held)?;
    let mut missing = Vec::new(alloc);
    for name in names {
        if !is_in(&held, name) {
            missing.push(*name)?;
        }
    }
    Ok(missing)
}

// The files that hold the text of no used name.
fn unused<'t>(
    alloc: Global,
    used: &[&'t str],
    files: &[&'t str],
) -> Result<Vec<&'t str>, AllocError>
    ensures { IfOk result (λ v. map (λ t. t.now) v.items
        ≡ spec.unused (map (λ t. t.now) used.now) (map (λ t. t.now) files.now)) }
{
    let wanted = set_of(alloc, used)?;
    let mut unused = Vec::new(alloc);
    for file in files {
        if !is_needed(&wanted, file) {
            unused.push(*file)?;
        }
    }
    Ok(unused)
}

// The name before the last `.`, where something stands behind it.
fn stem(file: &str) -> Option<&str>
    ensures { option_copied result ≡ stems.stem file.now }
{
    match file.rsplit_once('.') {
        Some((name, extension)) if !extension.is_empty() => Some(name),
        _ => None,
    }
}

// The names whose text some file holds.
fn names_held<'t>(alloc: Global, files: &[&'t str]) -> Result<Vec<&'t str>, AllocError>
    ensures { IfOk result (λ v. (name : List ℕ) → is_among (map (λ t. t.now) v.items) name
        ≡ has_text (map (λ t. t.now) files.now) name) }
{
    let mut names = Vec::new(alloc);
    for file in files {
        put_names(&mut names, file)?;
    }
    Ok(names)
}

// Appends the names whose text the file holds.
fn put_names<'t>(names: &mut Vec<&'t str>, file: &'t str) -> Result<(), AllocError>
    ensures { OnOk result ((name : List ℕ) → is_among (map (λ t. t.now) names.new.items) name
        ≡ (is_among (map (λ t. t.now) names.old.items) name || holds file.now name)) }
{
    names.push(file)?;
    if let Some(name) = stem(file) {
        names.push(name)?;
    }
    Ok(())
}

// The different names, in the order of first use.
fn first_names<'t>(alloc: Global, used: &[&'t str]) -> Result<Vec<&'t str>, AllocError>
    ensures { IfOk result (λ v. map (λ t. t.now) v.items
        ≡ spec.first_names (map (λ t. t.now) used.now)) }
{
    let mut met = BTreeSet::new(alloc);
    let mut names = Vec::new(alloc);
    for name in used {
        if !is_in(&met, name) {
            met.insert(*name)?;
            names.push(*name)?;
        }
    }
    Ok(names)
}

// The names, each once, to be looked up.
fn set_of<'t>(alloc: Global, names: &[&'t str]) -> Result<BTreeSet<&'t str>, AllocError>
    ensures { IfOk result (λ set. Has set (map (λ t. t.now) names.now)) }
{
    let mut set = BTreeSet::new(alloc);
    for name in names {
        set.insert(*name)?;
    }
    Ok(set)
}

fn is_in<'t>(set: &BTreeSet<&'t str>, name: &&'t str) -> bool
    ensures { IsTold set.now name.now.now result }
{
    set.contains(name)
}

// Whether the file holds the text of a name in the set.
fn is_needed<'t>(set: &BTreeSet<&'t str>, file: &&'t str) -> bool
    ensures { IsNeedTold set.now file.now.now result }
{
    if is_in(set, file) {
        return true;
    }
    match stem(file) {
        Some(name) => is_in(set, &name),
        None => false,
    }
}
