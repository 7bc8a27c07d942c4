// As what a file is read, or a folder.

ghost use Rattle.std.specs.Prelude.{◌≡◌, IfErr, IfOk};
ghost use Rattle.std.specs.Option.{option_copied};
ghost use Rattle.source_trees.specs.Readings as spec;
ghost use Rattle.source_trees.specs.Readings.{IsNoReading, IsReading};

use manifests::{Form, form_named, form_of};
use shelves::{Shelf, is_input};
use std::alloc::{AllocError, Global};
use std::io;

/// Which expressions of a file are wanted.
#[derive(Clone, Copy)]
pub enum Wanted<'w> {
    /// Those that its name tells: of a manifest what it declares, of any other file a line each; below a folder those behind
    /// tags and those of manifests.
    ByName,
    /// Those behind tags.
    Headers,
    /// Those of manifests, by their names.
    Manifests,
    /// Those of a manifest of the form that goes by this word.
    Form(&'w str),
}

/// As what a path is read.
#[derive(Clone, Copy, PartialEq, Eq, Debug)]
pub enum Reading {
    /// An expression a line.
    Lines,
    /// The license tags of a file.
    Tags,
    /// A manifest.
    Manifest(Form),
    /// The files below a folder.
    Tree(Taken),
}

/// What is taken of the files below a folder.
#[derive(Clone, Copy, PartialEq, Eq, Debug)]
pub struct Taken {
    pub tags: bool,
    pub manifests: bool,
}

/// Why a path isn't read.
#[derive(Drop)]
pub enum ReadingFault {
    /// It can't be looked at.
    Unreadable(String, io::Error),
    /// A manifest is wanted, and its name is that of none.
    NoManifest(String),
    /// A manifest is wanted, and it is a folder.
    Folder(String),
    Memory,
}

impl From<AllocError> for ReadingFault {
    ghost use Rattle.std.specs.Prelude.{◌≡◌};
    ghost use Rattle.source_trees.specs.declared.reading.ReadingFault.TheVariants.{Memory};

    ghost from_gives = { λ _ fault. fault ≡ Memory };

    fn from(_error: AllocError) -> ReadingFault {
        ReadingFault::Memory
    }
}

impl Taken {
    /// Whether all that tells a license is taken.
    pub fn is_all(self) -> bool
        ensures { result ≡ spec.is_all self }
    {
        self.tags && self.manifests
    }
}

/// As what the path is read; `-` is standard input, and no folder.
///
/// # Errors
///
/// It can't be looked at; it is a folder, and a form was named; a manifest is wanted, and none has its name; or memory was
/// refused.
pub fn reading_of<S: Shelf>(
    alloc: Global,
    shelf: &S,
    wanted: Wanted<'_>,
    path: &str,
) -> Result<Reading, ReadingFault>
    ensures ok { IfOk result (IsReading (S.told shelf.now) wanted.entry path.now) }
    ensures err { IfErr result (IsNoReading (S.told shelf.now) wanted.entry path.now) }
{
    if is_tree(alloc, shelf, path)? {
        return match tree_of(wanted) {
            Some(taken) => Ok(Reading::Tree(taken)),
            None => Err(ReadingFault::Folder(String::from_str(alloc, path)?)),
        };
    }
    match file_reading(wanted, path) {
        Some(reading) => Ok(reading),
        None => Err(ReadingFault::NoManifest(String::from_str(alloc, path)?)),
    }
}

// Whether it is a folder, and not standard input.
fn is_tree<S: Shelf>(alloc: Global, shelf: &S, path: &str) -> Result<bool, ReadingFault>
    ensures ok { IfOk result (spec.IsTree (S.told shelf.now) path.now) }
    ensures err { IfErr result (spec.IsUnlooked (S.told shelf.now) path.now) }
{
    if is_input(path) {
        return Ok(false);
    }
    match shelf.is_folder(path) {
        Ok(is_folder) => Ok(is_folder),
        Err(error) => Err(ReadingFault::Unreadable(String::from_str(alloc, path)?, error)),
    }
}

// What is taken of the files below a folder; none where the form of one file is named.
fn tree_of(wanted: Wanted<'_>) -> Option<Taken>
    ensures { result ≡ spec.tree_of wanted.entry }
{
    let (tags, manifests) = match wanted {
        Wanted::ByName => (true, true),
        Wanted::Headers => (true, false),
        Wanted::Manifests => (false, true),
        Wanted::Form(_) => return None,
    };
    Some(Taken { tags, manifests })
}

// As what a file is read; none where a manifest is wanted, and it is none.
fn file_reading(wanted: Wanted<'_>, path: &str) -> Option<Reading>
    ensures { result ≡ spec.file_reading wanted.entry path.now }
{
    match wanted {
        Wanted::Headers => Some(Reading::Tags),
        Wanted::Form(word) => form_named(word).map(Reading::Manifest),
        Wanted::Manifests => form_of(path).map(Reading::Manifest),
        Wanted::ByName => Some(
            form_of(path)
                .map(Reading::Manifest)
                .unwrap_or(Reading::Lines),
        ),
    }
}

/// The form of a file below a folder, where its manifests are taken and it is one.
pub fn form_below(taken: Taken, path: &str) -> Option<Form>
    ensures { result ≡ spec.form_below taken path.now }
{
    if taken.manifests { form_of(path) } else { None }
}
