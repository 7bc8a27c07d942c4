// What is done with something in a folder, by its name.

ghost use Rattle.std.specs.Prelude.{◌≡◌};
ghost use Rattle.std.specs.Option.{option_copied};
ghost use Rattle.source_trees.specs.Visits as spec;

use crate::stops::Visit;
use shelves::Kind;

// What the name of a new file begins with, which takes the place of another one.
const BESIDE: &str = ".spdx-";

// How many hexadecimal digits it has.
const DIGITS: usize = 16;

/// Whether it is the name of a new file that is to take the place of the one beside it. Only a run that is killed leaves such
/// a file.
pub fn is_beside(name: &str) -> bool
    ensures { result ≡ spec.is_beside name.now }
{
    match behind_mark(name) {
        Some(digits) => digits.len() == DIGITS && are_digits(digits),
        None => false,
    }
}

fn behind_mark(name: &str) -> Option<&str>
    ensures { option_copied result ≡ spec.behind_mark name.now }
{
    name.strip_prefix(BESIDE)
}

fn are_digits(digits: &str) -> bool
    ensures { result ≡ spec.are_digits digits.now }
{
    digits.bytes().all(|byte| byte.is_ascii_hexdigit())
}

// Whether a folder of this name belongs to version control.
fn is_history(name: &str) -> bool
    ensures { result ≡ spec.is_history name.now }
{
    name == ".git" || name == ".hg" || name == ".svn" || name == ".jj"
}

// Whether a folder of this name has license texts, which speak of tags and have none.
fn is_texts(name: &str) -> bool
    ensures { result ≡ spec.is_texts name.now }
{
    name == "LICENSES"
}

// Whether others wrote what is in a folder of this name, or a program made it. Beside a `Cargo.toml`, Cargo made `target`.
fn is_made(name: &str, has_cargo: bool) -> bool
    ensures { result ≡ spec.is_made has_cargo name.now }
{
    (has_cargo && name == "target") || is_tools(name)
}

// Whether a folder of this name belongs to a tool, wherever it is.
#[tactic(auto, unfolding(crate::specs::Visits::is_tools))]
fn is_tools(name: &str) -> bool
    ensures { result ≡ spec.is_tools name.now }
{
    name == "node_modules" || name == "__pycache__" || name == ".venv" || name == ".tox"
}

/// What is done with what has this name and is of this kind; none, where it isn't looked at.
pub(crate) fn visit_of(name: &str, kind: Kind, has_cargo: bool) -> Option<Visit>
    ensures { result ≡ spec.visit_of has_cargo name.now kind }
{
    match kind {
        Kind::Other => None,
        Kind::File if is_beside(name) => Some(Visit::LeftBehind),
        Kind::File => Some(Visit::File),
        Kind::Folder if is_history(name) || is_texts(name) => None,
        Kind::Folder if is_made(name, has_cargo) => Some(Visit::LeftOut),
        Kind::Folder => Some(Visit::Folder),
    }
}
