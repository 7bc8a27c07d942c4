// Packages with what they are taken under and what they have of their own.

use license_notice::Requirement;
use notice_texts::File;

/// A file of a package, and what it holds.
#[derive(Clone, Copy, Debug)]
pub struct OwnFile<'t> {
    pub file: File<'t>,
    pub bytes: &'t [u8],
}

/// A package, the requirements under which it is taken, and its own files.
#[derive(Clone, Copy, Debug)]
pub struct Package<'c, 't> {
    pub name: &'t str,
    /// Empty where it has none.
    pub version: &'t str,
    /// The requirements of its choice.
    pub choice: &'c [Requirement<'t>],
    /// The requirements of the expression that the choice is of.
    pub offered: &'c [Requirement<'t>],
    /// Those that were read; files that aren't owed may be among them.
    pub files: &'c [OwnFile<'t>],
}
