// What the commands over packages ask for.

/// What the files are.
#[derive(Clone, Copy)]
pub enum Source<'w> {
    /// The form that the file's shape tells.
    Auto,
    /// A form with a name.
    Named(SourceForm),
    /// Any JSON, by the pointers to its list of packages and, from each of them, to a name, a version and a license.
    At {
        each: &'w str,
        name: &'w str,
        version: Option<&'w str>,
        license: &'w str,
    },
}

/// The forms with names.
#[derive(Clone, Copy, PartialEq, Eq, Debug)]
pub enum SourceForm {
    Lines,
    /// Whether the first row names the columns.
    Tsv { header: bool },
    /// Whether the first row names the columns.
    Csv { header: bool },
    /// What the gate wrote as JSON.
    Verdicts,
    Cargo,
    Npm,
    Composer,
    Pip,
    CycloneDx,
    Spdx,
    SpdxThree,
    LicenseChecker,
    Pnpm,
    Metadata,
}

/// How the verdicts of a gate are written.
#[derive(Clone, Copy, PartialEq, Eq, Debug)]
pub enum GateFormat {
    Human,
    Short,
    Json,
    Github,
    Sarif,
    Html,
}

/// How changes are written.
#[derive(Clone, Copy, PartialEq, Eq, Debug)]
pub enum ChangesFormat {
    Text,
    Json,
    Markdown,
}

/// How a page is written.
#[derive(Clone, Copy, PartialEq, Eq, Debug)]
pub enum PageFormat {
    Text,
    Markdown,
    Html,
    Json,
}

/// Whether packages have texts of their own on a page, and where they lie.
#[derive(Clone, Copy, PartialEq, Eq, Debug)]
pub enum OwnTexts<'w> {
    /// They have none.
    Left,
    /// Below this folder, each package in one with its name and version.
    Below(&'w str),
    /// Where the file that lists the package says that it is.
    Installed,
}

/// Which packages are judged, by which policy, and how it is told.
#[derive(Drop)]
pub struct GateRequest<'w> {
    /// The list's file or folder; the list inside the program where there is none.
    pub list: Option<&'w str>,
    pub policy: &'w str,
    pub source: Source<'w>,
    pub format: GateFormat,
    /// A file whose refusals are known: what is refused there too is no failure.
    pub baseline: Option<&'w str>,
    /// The name of a package that is explained.
    pub explain: Option<&'w str>,
    /// Whether nothing is written, and the status alone tells.
    pub quiet: bool,
    /// Whether a file that lists no package passes.
    pub allow_empty: bool,
    /// Whether it is told which entries of the policy are not used.
    pub tells_unused: bool,
    /// Whether packages of one's own project are left out.
    pub exclude_own: bool,
    pub paths: Vec<&'w str>,
}

/// Between which files changes are told, and how.
#[derive(Drop)]
pub struct ChangesRequest<'w> {
    /// The list's file or folder; the list inside the program where there is none.
    pub list: Option<&'w str>,
    /// A policy that marks what it refuses of what came or changed.
    pub policy: Option<&'w str>,
    pub source: Source<'w>,
    pub format: ChangesFormat,
    /// Whether a file that lists no package passes.
    pub allow_empty: bool,
    /// Whether packages of one's own project are left out.
    pub exclude_own: bool,
    /// Whether the totals are told.
    pub tells_totals: bool,
    pub old: &'w str,
    pub new: &'w str,
}

/// What may be chosen.
#[derive(Clone, Copy)]
pub enum Accepted<'w> {
    /// The licenses of a list with commas between them, and whether expressions are read laxly.
    List(&'w str, bool),
    /// What the policy of a file allows, which also says how expressions are read.
    Policy(&'w str),
}

/// Which packages a page is of, and how it is written.
#[derive(Drop)]
pub struct NoticeRequest<'w> {
    /// The list's file or folder; the list inside the program where there is none.
    pub list: Option<&'w str>,
    pub accepted: Accepted<'w>,
    pub source: Source<'w>,
    /// The folder with the general texts, if one is named.
    pub texts: Option<&'w str>,
    pub own: OwnTexts<'w>,
    /// Whether no page is written where a package has no text.
    pub is_strict: bool,
    /// Whether links are followed that lead out of the folder of the texts, or of a package within the one below which all lie.
    pub follow: bool,
    /// Whether what a terminal would obey in the texts is written by its number.
    pub plain: bool,
    /// Whether one choice is made for all packages together.
    pub one_for_all: bool,
    /// Whether packages of one's own project are left out.
    pub exclude_own: bool,
    pub format: PageFormat,
    pub paths: Vec<&'w str>,
}
