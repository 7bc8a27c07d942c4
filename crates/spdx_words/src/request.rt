// What a command line asks for.

use crate::packages::request::{ChangesRequest, GateRequest, NoticeRequest};

/// What the program is to do.
#[derive(Drop)]
pub enum Request<'w> {
    /// `check`.
    Check(CheckRequest<'w>),
    /// `fix`.
    Fix(FixRequest<'w>),
    /// `gate`.
    Gate(GateRequest<'w>),
    /// `notice`.
    Notice(NoticeRequest<'w>),
    /// `compare`.
    Compare(CompareRequest<'w>),
    /// `simplify`.
    Simplify(SimplifyRequest<'w>),
    /// `list show`.
    Show(ShowRequest<'w>),
    /// `list make`.
    Make(MakeRequest<'w>),
    /// `list diff`.
    Diff(DiffRequest<'w>),
    /// `diff`.
    Changes(ChangesRequest<'w>),
}

/// How findings are written.
#[derive(Clone, Copy, PartialEq, Eq, Debug)]
pub enum FindingFormat {
    Human,
    Short,
    Json,
    Github,
    Sarif,
}

/// Which of a file's expressions are taken.
#[derive(Clone, Copy, PartialEq, Eq, Debug)]
pub enum Wanted<'w> {
    /// Those of a file that is a manifest by its name; both kinds of a folder's files; else one a line.
    ByName,
    /// Those of license tags.
    Headers,
    /// Those of manifests.
    Manifests,
    /// Those of a manifest of the form of that name, whatever the file is called.
    Form(&'w str),
}

/// Which expressions are checked, and how it is told. No paths are standard input, as is the path `-`.
#[derive(Drop)]
pub struct CheckRequest<'w> {
    /// The list's file or folder; the list inside the program where there is none.
    pub list: Option<&'w str>,
    pub format: FindingFormat,
    pub is_lax: bool,
    pub wanted: Wanted<'w>,
    /// The folder of the license texts that folders owe; `LICENSES` in each of them where there is none.
    pub texts: Option<&'w str>,
    /// Whether the files of folders are told that have no license.
    pub untagged: bool,
    /// Whether nothing is written, and the status alone tells.
    pub quiet: bool,
    /// Whether the last line has the totals.
    pub summary: bool,
    pub paths: Vec<&'w str>,
}

/// Which expressions are mended, and whether in place.
#[derive(Drop)]
pub struct FixRequest<'w> {
    pub list: Option<&'w str>,
    /// Whether the files are written; else a diff is.
    pub write: bool,
    /// Whether a file that has other names is written, which keep the old bytes then.
    pub break_links: bool,
    pub wanted: Wanted<'w>,
    pub paths: Vec<&'w str>,
}

/// Which expressions are compared.
#[derive(Drop)]
pub struct CompareRequest<'w> {
    pub list: Option<&'w str>,
    pub is_lax: bool,
    pub one: &'w str,
    pub other: &'w str,
}

/// Which expressions are simplified. No paths are standard input, as is the path `-`.
#[derive(Drop)]
pub struct SimplifyRequest<'w> {
    pub list: Option<&'w str>,
    pub is_lax: bool,
    pub paths: Vec<&'w str>,
}

/// Which names of the list are shown; all of them where there is none.
#[derive(Drop)]
pub struct ShowRequest<'w> {
    pub list: Option<&'w str>,
    pub names: Vec<&'w str>,
}

/// The files that a list is made from.
#[derive(Drop)]
pub struct MakeRequest<'w> {
    pub licenses: &'w str,
    pub exceptions: &'w str,
    pub extras: Option<&'w str>,
}

/// The lists that are compared, each a file or a folder.
#[derive(Drop)]
pub struct DiffRequest<'w> {
    /// The older list; where there is none, the one that the other commands read by.
    pub old: Option<&'w str>,
    pub new: &'w str,
}
