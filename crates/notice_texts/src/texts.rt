// Texts of files of packages.

/// A file of a package.
#[derive(Clone, Copy, Debug)]
pub struct Holder<'t> {
    /// The package's name.
    pub name: &'t str,
    pub version: &'t str,
    /// The file's name in the package.
    pub file: &'t str,
}

/// What a file of a package holds.
#[derive(Clone, Copy, Debug)]
pub struct OwnText<'t> {
    pub holder: Holder<'t>,
    pub bytes: &'t [u8],
}

/// A text, and all files that have it.
#[derive(Debug, Drop)]
pub struct SharedText<'t> {
    /// As the first of the files has it.
    pub bytes: &'t [u8],
    /// In their order, one at least.
    pub holders: Vec<Holder<'t>>,
}
