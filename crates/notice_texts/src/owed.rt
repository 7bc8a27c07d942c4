//! Which files of a package are owed to those who get it: the texts of the licences that were chosen, and what stands
//! beside them. It decides by names alone, before the system is asked.

ghost use Rattle.std.specs.Prelude.{◌≡◌, ◌++◌, IfOk, IfSome, Some, None, map, option_map, if◌then◌else◌, codes};
ghost use Rattle.std.specs.String.{string_bytes};
ghost use Rattle.notice_texts.specs.Owed.{seen, LeavesNothingOut, HasNothingElse};
ghost use Rattle.notice_texts.specs.Owed as spec;
ghost use Rattle.notice_texts.specs.Paths.{StaysInside};
ghost use Rattle.notice_texts.specs.Paths as paths;

use crate::files::File;
use crate::names::{begins, name_in, says_one};
use crate::paths::is_inside;
use std::alloc::{AllocError, Global};

fn is_license_name(name: &[u8]) -> bool
    ensures { result ≡ spec.is_license_name name.now }
{
    begins(name, b"license")
        || begins(name, b"licence")
        || begins(name, b"copying")
        || begins(name, b"unlicense")
}

fn is_beside_name(name: &[u8]) -> bool
    ensures { result ≡ spec.is_beside_name name.now }
{
    begins(name, b"copyright") || begins(name, b"notice") || begins(name, b"authors")
}

/// Whether the package gives the file as a text to be kept: it declares it, or the name behind the last `/` begins, in
/// any case, with `LICENSE`, `LICENCE`, `COPYING`, `UNLICENSE`, `COPYRIGHT`, `NOTICE` or `AUTHORS`.
pub fn is_text(file: &File<'_>) -> bool
    ensures { result ≡ spec.is_text (seen file.now) }
{
    let name = name_in(file.path.as_bytes());
    file.is_declared || is_license_name(name) || is_beside_name(name)
}

/// Whether the file is the text of a licence, and not only what stands beside one, as a NOTICE: it is declared, or its
/// name begins, in any case, with `LICENSE`, `LICENCE`, `COPYING` or `UNLICENSE`.
pub fn is_license_text(file: &File<'_>) -> bool
    ensures { result ≡ spec.is_license_text (seen file.now) }
{
    file.is_declared || is_license_name(name_in(file.path.as_bytes()))
}

/// Whether the file is owed where the package offers these licences and exceptions, and these of them are chosen, as
/// `owed_files` says.
pub fn is_owed(file: &File<'_>, offered: &[&str], chosen: &[&str]) -> bool
    ensures { result ≡ spec.is_owed (map (λ t. t.now) offered.now) (map (λ t. t.now) chosen.now)
        (seen file.now) }
{
    let name = name_in(file.path.as_bytes());
    is_text(file) && !(says_one(name, offered) && !says_one(name, chosen))
}

/// The files that are owed, in their order, where the package offers these licences and exceptions, and these of them
/// are chosen.
///
/// A text is owed unless its name says a licence that is offered, and none that is chosen. So of `LICENSE-MIT` and
/// `LICENSE-APACHE`, where MIT is chosen of `MIT OR Apache-2.0`, the first is owed. A text whose name says nothing, as
/// `LICENSE`, `NOTICE` and `AUTHORS`, is owed under every choice, and so is `LICENSE-BSD` where no BSD licence is
/// offered: it may be of something that the package has within.
///
/// What a name says stands between the word that it begins with, with a `-`, `.`, `_` or blank, and an ending `.txt`,
/// `.md`, `.rst` or `.html`: a licence's own name, or a nickname of the table in `words.rt`, in any case.
///
/// # Errors
///
/// Memory was refused.
pub fn owed_files<'t>(
    alloc: Global,
    files: &[File<'t>],
    offered: &[&str],
    chosen: &[&str],
) -> Result<Vec<File<'t>>, AllocError>
    ensures exact { IfOk result (λ v. map seen v.items
        ≡ spec.owed (map (λ t. t.now) offered.now) (map (λ t. t.now) chosen.now)
        (map seen files.now)) }
    // Nothing that may be owed is left out.
    ensures leaves_nothing_out { IfOk result (λ v. LeavesNothingOut
        (map (λ t. t.now) offered.now) (map (λ t. t.now) chosen.now)
        (map seen files.now) (map seen v.items)) }
    // Nothing of a licence that is offered and wasn't chosen is there.
    ensures nothing_else { IfOk result (λ v. HasNothingElse
        (map (λ t. t.now) offered.now) (map (λ t. t.now) chosen.now)
        (map seen files.now) (map seen v.items)) }
{
    let mut owed = Vec::new(alloc);
    for file in files {
        if is_owed(file, offered, chosen) {
            owed.push(*file)?;
        }
    }
    Ok(owed)
}

/// The path of a file below a folder, or nothing where it may not stay below it: where a part between its `/` is empty,
/// is `..`, or has a zero or a `\`, or where it ends in `.`. So it doesn't begin with `/` either.
///
/// This says nothing of links, which only the system knows.
///
/// # Errors
///
/// Memory was refused.
pub fn path_in(alloc: Global, folder: &str, path: &str) -> Result<Option<String>, AllocError>
    ensures value { IfOk result (λ p. option_map string_bytes p
        ≡ (if paths.is_inside path.now then Some (folder.now ++ (codes "/" ++ path.now)) else None)) }
    // A path that is taken ends below its folder, whichever this is.
    ensures stays { IfOk result (λ p. IfSome p (λ _. StaysInside path.now)) }
{
    if !is_inside(path.as_bytes()) {
        return Ok(None);
    }
    let mut joined = String::from_str(alloc, folder)?;
    joined.push('/')?;
    joined.push_str(path)?;
    Ok(Some(joined))
}
