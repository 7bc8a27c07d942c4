// Files of a package.

/// A file in the folder of a package, or of its metadata.
#[derive(Clone, Copy, Debug)]
pub struct File<'t> {
    /// From that folder, with `/` between the names.
    pub path: &'t str,
    /// Whether the package's metadata say that this is a text of its licence, as `license_file` does.
    pub is_declared: bool,
}
