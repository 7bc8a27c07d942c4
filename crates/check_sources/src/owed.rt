// What is told of files as a whole: license texts that are missing or not needed, and files without a license.

ghost use Rattle.std.specs.Prelude.{◌≡◌, ◌++◌, IfOk, OnOk, map, option_map, string_bytes};
ghost use Rattle.check_sources.specs.Owed as spec;
ghost use Rattle.check_sources.specs.Owed.{TellsAll, those_called, whole_of, whole_names, wholes_text};

use finding_forms::{Finding, Format, Help, Place, put_finding};
use notice_texts::owed_texts;
use std::alloc::{AllocError, Global};
use std::path::Path;

/// What is told of a file as a whole.
#[derive(Drop)]
pub struct Whole {
    /// The file's path; of a text that is missing, where it would be.
    pub path: String,
    /// What it is called in the finding.
    pub name: String,
    pub reason: &'static str,
}

/// What is told of a folder of license texts with these files, where these names are used: first the texts that are missing,
/// then the files that nobody needs, each at its own path. So where nothing is told, each name has its text and each file is the
/// text of a name.
///
/// # Errors
///
/// Memory was refused.
#[tactic(auto, using(crate::proofs::Telling::tells_all))]
pub fn owed_by(
    alloc: Global,
    folder: &str,
    used: &[String],
    files: &[String],
) -> Result<Vec<Whole>, AllocError>
    ensures exact { IfOk result (λ wholes. map whole_of wholes.items ≡ spec.owed_by folder.now
        (map string_bytes used.now) (map string_bytes files.now)) }
    ensures complete { IfOk result (λ wholes. TellsAll wholes.items
        (map string_bytes used.now) (whole_names (map string_bytes files.now))) }
{
    let wholes = all_owed(alloc, folder, used, files)?;
    Ok(wholes)
}

fn all_owed(
    alloc: Global,
    folder: &str,
    used: &[String],
    files: &[String],
) -> Result<Vec<Whole>, AllocError>
    ensures { IfOk result (λ wholes. map whole_of wholes.items ≡ spec.owed_by folder.now
        (map string_bytes used.now) (map string_bytes files.now)) }
{
    let names = names_of(alloc, files)?;
    let used = texts_of(alloc, used)?;
    let owed = owed_texts(alloc, &used, &names)?;
    let mut wholes = missing_in(alloc, folder, &owed.missing)?;
    let mut unused = unused_in(alloc, files, &owed.unused)?;
    wholes.append(&mut unused)?;
    Ok(wholes)
}

/// What is told of files without a license.
///
/// # Errors
///
/// Memory was refused.
pub fn without_license(alloc: Global, paths: &[String]) -> Result<Vec<Whole>, AllocError>
    ensures { IfOk result (λ wholes. map whole_of wholes.items
        ≡ map spec.bare_at (map string_bytes paths.now)) }
{
    let mut wholes = Vec::new(alloc);
    for path in paths {
        wholes.push(bare(alloc, path.as_str())?)?;
    }
    Ok(wholes)
}

#[tactic(auto, unfolding(crate::specs::Owed::no_license))]
fn bare(alloc: Global, path: &str) -> Result<Whole, AllocError>
    ensures { IfOk result (λ whole. whole_of whole ≡ spec.bare_at path.now) }
{
    told_at(alloc, path, "no license is told here")
}

// What is told of the file at the path.
fn told_at(alloc: Global, path: &str, reason: &'static str) -> Result<Whole, AllocError>
    ensures { IfOk result (λ whole. whole_of whole ≡ spec.told_at path.now reason.now) }
{
    Ok(Whole {
        path: String::from_str(alloc, path)?,
        name: String::from_str(alloc, name_of(path))?,
        reason,
    })
}

// The name of a file, without its folder.
pub(crate) fn name_of(path: &str) -> &str
    ensures { result.now ≡ spec.name_of path.now }
{
    Path::new(path).file_name().unwrap_or("")
}

fn names_of<'f>(alloc: Global, files: &'f [String]) -> Result<Vec<&'f str>, AllocError>
    ensures { IfOk result (λ names.
        map (λ t. t.now) names.items ≡ whole_names (map string_bytes files.now)) }
{
    let mut names = Vec::new(alloc);
    for file in files {
        names.push(name_of(file.as_str()))?;
    }
    Ok(names)
}

fn texts_of<'n>(alloc: Global, names: &'n [String]) -> Result<Vec<&'n str>, AllocError>
    ensures { IfOk result (λ texts.
        map (λ t. t.now) texts.items ≡ map string_bytes names.now) }
{
    let mut texts = Vec::new(alloc);
    for name in names {
        texts.push(name.as_str())?;
    }
    Ok(texts)
}

// The texts of these names, which the folder hasn't.
fn missing_in(alloc: Global, folder: &str, names: &[&str]) -> Result<Vec<Whole>, AllocError>
    ensures { IfOk result (λ wholes. map whole_of wholes.items
        ≡ map (spec.missing_at folder.now) (map (λ t. t.now) names.now)) }
{
    let mut wholes = Vec::new(alloc);
    for name in names {
        wholes.push(missing_text(alloc, folder, *name)?)?;
    }
    Ok(wholes)
}

#[tactic(auto, unfolding(crate::specs::Owed::is_missing))]
fn missing_text(alloc: Global, folder: &str, name: &str) -> Result<Whole, AllocError>
    ensures { IfOk result (λ whole. whole_of whole ≡ spec.missing_at folder.now name.now) }
{
    let folder = without_slashes(folder);
    Ok(Whole {
        path: format!(in alloc; "{folder}/{name}.txt")?,
        name: String::from_str(alloc, name)?,
        reason: "the text of this license is missing",
    })
}

// The path without the slashes at its end.
fn without_slashes(path: &str) -> &str
    ensures { result.now ≡ spec.without_slashes path.now }
{
    path.trim_end_matches('/')
}

// The files that are called so, which nobody needs. Their names are in the order of the files.
fn unused_in(alloc: Global, files: &[String], names: &[&str]) -> Result<Vec<Whole>, AllocError>
    ensures { IfOk result (λ wholes. map whole_of wholes.items ≡ map spec.unused_at
        (those_called (map (λ t. t.now) names.now) (map string_bytes files.now))) }
{
    let mut wholes = Vec::new(alloc);
    let mut rest = names;
    for file in files {
        let path = file.as_str();
        let others = after(rest, name_of(path));
        if others.is_some() {
            wholes.push(unused_text(alloc, path)?)?;
        }
        rest = others.unwrap_or(rest);
    }
    Ok(wholes)
}

// The names but for the first, where that is this one.
fn after<'n, 't>(names: &'n [&'t str], name: &str) -> Option<&'n [&'t str]>
    ensures { option_map (λ others. map (λ t. t.now) others.now) result
        ≡ spec.after (map (λ t. t.now) names.now) name.now }
{
    match names {
        [first, others @ ..] if *first == name => Some(others),
        _ => None,
    }
}

#[tactic(auto, unfolding(crate::specs::Owed::is_unused))]
fn unused_text(alloc: Global, path: &str) -> Result<Whole, AllocError>
    ensures { IfOk result (λ whole. whole_of whole ≡ spec.unused_at path.now) }
{
    told_at(alloc, path, "no expression uses the license of this text")
}

/// Appends what is told of these files, each in its first line and column. `is_first` says that no finding stands before them,
/// which counts in SARIF alone.
///
/// # Errors
///
/// Memory was refused.
pub fn put_wholes(
    alloc: Global,
    text: &mut Vec<u8>,
    format: Format,
    is_first: bool,
    wholes: &[Whole],
) -> Result<(), AllocError>
    ensures { OnOk result (text.new.items ≡ text.old.items
        ++ wholes_text format is_first (map whole_of wholes.now)) }
{
    let [first, others @ ..] = wholes else {
        return Ok(());
    };
    put_whole(alloc, text, format, is_first, first)?;
    put_others(alloc, text, format, others)
}

fn put_others(
    alloc: Global,
    text: &mut Vec<u8>,
    format: Format,
    wholes: &[Whole],
) -> Result<(), AllocError>
    ensures { OnOk result (text.new.items ≡ text.old.items
        ++ spec.others_text format (map whole_of wholes.now)) }
{
    for whole in wholes {
        put_whole(alloc, text, format, false, whole)?;
    }
    Ok(())
}

fn put_whole(
    alloc: Global,
    text: &mut Vec<u8>,
    format: Format,
    is_first: bool,
    whole: &Whole,
) -> Result<(), AllocError>
    ensures { OnOk result (text.new.items ≡ text.old.items
        ++ spec.whole_text format is_first (whole_of whole.now)) }
{
    let finding = Finding {
        place: Place {
            file: whole.path.as_str(),
            line: 1,
            column: 1,
        },
        expression: whole.name.as_str(),
        start: 0,
        end: whole.name.len(),
        reason: whole.reason,
        help: Help::Nothing,
        sight: None,
    };
    put_finding(alloc, text, format, is_first, &finding)
}
