// What a page is made of.

use license_notice::{Group, Release};

/// A text as its file has it: that of a licence or of an exception, or one that packages have of their own.
#[derive(Clone, Copy, Debug)]
pub struct LicenseText<'r, 't> {
    pub name: &'t str,
    /// The packages that have it of their own, which are named beside it; none beside the text of a licence.
    pub packages: &'r [Release<'t>],
    pub bytes: &'t [u8],
}

/// A page: its title, each requirement with its packages, the packages, and the texts, in the order in which they are shown.
/// Any names do: what they hold is shown as text.
#[derive(Clone, Copy, Debug)]
pub struct Page<'r, 't> {
    pub title: &'t str,
    pub groups: &'r [Group<'t>],
    /// Those of the contents by package, which only pages of HTML and of JSON have: as `license_notice::packages_in` gives
    /// them.
    pub packages: &'r [Release<'t>],
    pub texts: &'r [LicenseText<'r, 't>],
}

/// How a page is written.
#[derive(Clone, Copy, PartialEq, Eq, Debug)]
pub enum Format {
    Text,
    Markdown,
    /// One file, which loads nothing and runs no script.
    Html,
    /// One document, with the members `packages` and `texts`.
    Json,
}
