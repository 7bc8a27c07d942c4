// What is asked of a run, and how it ends.

ghost use Rattle.std.specs.Prelude.{◌≡◌};
ghost use Rattle.notice_program.specs.Ends as spec;

use choice_program::{Accepted, ChoiceTrouble};
use notice_forms::Format;
use owed_texts::{Folders, TextTrouble};
use package_files::Wanted;

/// What is asked of a run.
#[derive(Clone, Copy)]
pub struct Request<'a> {
    /// The path of the list, where one is named.
    pub list: Option<&'a str>,
    /// Which packages are wanted.
    pub wanted: Wanted<'a>,
    /// The paths of the files; `-` is standard input.
    pub paths: &'a [&'a str],
    /// What packages may be used under.
    pub accepted: Accepted<'a>,
    /// Whether one choice is made for all packages together.
    pub one_for_all: bool,
    /// Where texts are looked for.
    pub folders: Folders<'a>,
    /// Whether what a terminal would obey in the texts is written by its number.
    pub plain: bool,
    pub format: Format,
    /// Whether no page is written where a text is missing.
    pub is_strict: bool,
}

/// A text that neither its package nor anybody else has.
#[derive(Drop)]
pub struct Missing {
    /// The package, as it is told.
    pub package: String,
    pub text: String,
}

/// What is told of packages with their texts.
#[derive(Drop)]
pub struct ToldPage {
    /// The page, if it is written.
    pub page: Option<Vec<u8>>,
    /// The texts that are missing, where packages have texts of their own.
    pub missing: Vec<Missing>,
    /// The line that tells how many there are, where packages have texts of their own.
    pub totals: Option<String>,
}

/// How a run ends.
#[derive(Drop)]
pub enum End {
    /// A file of packages is left out.
    LeftOut,
    /// There is no choice.
    NoChoice(ChoiceTrouble),
    /// The folder below which packages lie isn't there.
    NoFolder(TextTrouble),
    /// These texts of packages' own aren't had.
    NoOwn(Vec<TextTrouble>),
    /// These general texts aren't had.
    NoGeneral(Vec<TextTrouble>),
    /// The text of this name is no UTF-8, which pages of the form are.
    NotUtf8(String),
    /// This is told.
    Told(ToldPage),
}

impl End {
    /// The status: 0 exactly if a page is written; 1 where some package has no choice, or the page is held back for a text that
    /// is missing; else 2.
    pub fn status(&self) -> u8
        ensures { result ≡ spec.end_status self.now }
    {
        match self {
            End::LeftOut | End::NoFolder(_) | End::NoOwn(_) | End::NoGeneral(_) | End::NotUtf8(_) =>
                2,
            End::NoChoice(trouble) => choice_status(trouble),
            End::Told(notice) => u8::from(notice.page.is_none()),
        }
    }
}

fn choice_status(trouble: &ChoiceTrouble) -> u8
    ensures { result ≡ spec.choice_status trouble.now }
{
    match trouble {
        ChoiceTrouble::NoChoices(_) | ChoiceTrouble::NoneTogether(_) => 1,
        ChoiceTrouble::NoLicensee(..) | ChoiceTrouble::Policy(_) | ChoiceTrouble::Memory => 2,
    }
}
