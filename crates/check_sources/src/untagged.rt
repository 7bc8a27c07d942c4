// Which files need to tell no license.

ghost use Rattle.std.specs.Prelude.{◌≡◌};
ghost use Rattle.std.specs.List.{list_all};
ghost use Rattle.std.specs.Option.{option_copied};
ghost use Rattle.std.specs.Path.{component_bytes, path_bytes, path_components};
ghost use Rattle.check_sources.specs.Untagged as spec;
ghost use Rattle.check_sources.specs.Untagged.{IsSameBySlash, IsSameFromHere, IsSamePathFromHere};

use crate::owed::name_of;
use std::path::{Component, Path};

/// Whether the file is one of the license texts, which are below their folder. Paths are compared name by name, so slashes at
/// the end of the folder and `./` in front of it or of the path make no difference; an absolute path is below no relative one.
pub fn is_text(folder: Option<&str>, path: &str) -> bool
    ensures exact { result ≡ spec.is_text (option_copied folder.entry) path.now }
    ensures slash { IsSameBySlash (option_copied folder.entry) path.now result }
    ensures here { IsSameFromHere (option_copied folder.entry) path.now result }
    ensures path_here { IsSamePathFromHere (option_copied folder.entry) path.now result }
{
    is_below_one(folder, path)
}

fn is_below_one(folder: Option<&str>, path: &str) -> bool
    ensures { result ≡ spec.is_text (option_copied folder.entry) path.now }
{
    match folder {
        Some(folder) => is_below(folder, path),
        None => false,
    }
}

fn is_below(folder: &str, path: &str) -> bool
    ensures { result ≡ spec.continues (spec.parts_of folder.now) (spec.parts_of path.now) }
{
    match from_here(path).strip_prefix(from_here(folder)) {
        Ok(rest) => leads_down(rest),
        Err(_) => false,
    }
}

// The path without the `.` at its start.
fn from_here(path: &str) -> Path<'_>
    ensures { path_components (path_bytes result) ≡ spec.parts_of path.now }
{
    let whole = Path::new(path);
    match whole.strip_prefix(".") {
        Ok(rest) => rest,
        Err(_) => whole,
    }
}

fn leads_down(path: Path<'_>) -> bool
    ensures { result ≡ list_all spec.leads_down (path_components (path_bytes path.entry)) }
{
    for part in path.components() {
        if !is_down(part) {
            return false;
        }
    }
    true
}

fn is_down(part: Component<'_>) -> bool
    ensures { result ≡ spec.leads_down (component_bytes part.entry) }
{
    let name = part.as_os_str();
    !(name == ".." || name == "/")
}

/// Whether the file needs to tell no license: it is empty, it is a license text by its name or its folder, or it tells the
/// license of the file beside it, as `logo.png.license` does.
pub fn needs_none(folder: Option<&str>, path: &str, bytes: &[u8]) -> bool
    ensures { result ≡ spec.needs_none (option_copied folder.entry) path.now bytes.now }
{
    is_nothing(bytes)
        || is_license_text(name_of(path))
        || tells_other(path)
        || is_text(folder, path)
}

fn is_nothing(bytes: &[u8]) -> bool
    ensures { result ≡ spec.is_empty bytes.now }
{
    match bytes {
        [] => true,
        [_, ..] => false,
    }
}

// Whether the file tells the license of the one beside it.
fn tells_other(path: &str) -> bool
    ensures { result ≡ spec.tells_other path.now }
{
    path.as_bytes().ends_with(b".license")
}

// Whether it is the name of a license's text.
fn is_license_text(name: &str) -> bool
    ensures { result ≡ spec.is_license_text name.now }
{
    name.starts_with("LICENSE") || name.starts_with("LICENCE") || name.starts_with("COPYING")
}
