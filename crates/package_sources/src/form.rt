// What kinds of file packages are read from.

/// What kind of file packages are read from.
#[derive(Clone, Copy, Debug, PartialEq, Eq)]
pub enum Form {
    /// Each line that isn't blank is the text of a license.
    Lines,
    /// Records of values with tabs between them: a name, a version that may be left out, and the text of a license; with a
    /// header, the columns of those that it names.
    Tsv { header: bool },
    /// The same, with commas.
    Csv { header: bool },
    /// What `cargo metadata` writes.
    Cargo,
    /// A package.json, which is one package; a package-lock.json; or what `npm ls --json` writes.
    Npm,
    /// A composer.lock, or a composer.json, which is one package.
    Composer,
    /// What `pip-licenses --format=json` writes.
    Pip,
    /// CycloneDX, as JSON.
    CycloneDx,
    /// SPDX 2, as JSON, or as GitHub writes it.
    Spdx,
    /// What `license-checker --json` writes.
    LicenseChecker,
    /// What `pnpm licenses list --json` writes.
    Pnpm,
    /// A METADATA or PKG-INFO file of Python, which is one package.
    Metadata,
    /// SPDX 3, as JSON-LD.
    SpdxThree,
    /// What `spdx gate --format json` writes: an object on each line.
    Verdicts,
}

/// Where packages stand in a JSON document, by RFC 6901: `each` leads from the document to a list, the others lead from
/// each of its items to texts. The version may be left out.
#[derive(Clone, Copy)]
pub struct Pointers<'p> {
    pub each: &'p str,
    pub name: &'p str,
    pub version: Option<&'p str>,
    pub license: &'p str,
}
