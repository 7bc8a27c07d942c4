// The parts of the rows, a file for each, and how the rows of each are tried.

mod changes;
mod checks;
mod choices;
mod commands;
mod compares;
mod diffs;
mod fixes;
mod gates;
mod list_diffs;
mod lists;
mod mends;
mod notices;
mod packages;
mod pages;
mod shows;
mod simplifies;
pub(crate) mod trees;
mod troubles;

use crate::shelf::shelf_of;
use shelves::Held;
use std::alloc::{AllocError, Global};
use test_rows::Tally;

/// What rows are of: a module of this crate.
#[derive(Clone, Copy)]
pub(crate) enum Part {
    Lists,
    Packages,
    Gates,
    Notices,
    Pages,
    Diffs,
    Changes,
    Compares,
    Simplifies,
    Shows,
    ListDiffs,
    Trees,
    Fixes,
    Mends,
    Choices,
    Checks,
    Commands,
    Troubles,
}

/// All parts, in the order in which they are tried.
pub(crate) const PARTS: [Part; 18] = [
    Part::Lists,
    Part::Packages,
    Part::Gates,
    Part::Notices,
    Part::Pages,
    Part::Diffs,
    Part::Changes,
    Part::Compares,
    Part::Simplifies,
    Part::Shows,
    Part::ListDiffs,
    Part::Trees,
    Part::Fixes,
    Part::Mends,
    Part::Choices,
    Part::Checks,
    Part::Commands,
    Part::Troubles,
];

impl Part {
    /// The module's name, which its file of rows has too.
    pub(crate) fn name(self) -> &'static str {
        match self {
            Part::Lists => "lists",
            Part::Packages => "packages",
            Part::Gates => "gates",
            Part::Notices => "notices",
            Part::Pages => "pages",
            Part::Diffs => "diffs",
            Part::Changes => "changes",
            Part::Compares => "compares",
            Part::Simplifies => "simplifies",
            Part::Shows => "shows",
            Part::ListDiffs => "list_diffs",
            Part::Trees => "trees",
            Part::Fixes => "fixes",
            Part::Mends => "mends",
            Part::Choices => "choices",
            Part::Checks => "checks",
            Part::Commands => "commands",
            Part::Troubles => "troubles",
        }
    }

    fn answer(self, alloc: Global, shelf: &Held, given: &str) -> Result<String, AllocError> {
        match self {
            Part::Lists => lists::answer(alloc, given),
            Part::Packages => packages::answer(alloc, shelf, given),
            Part::Gates => gates::answer(alloc, shelf, given),
            Part::Notices => notices::answer(alloc, shelf, given),
            Part::Pages => pages::answer(alloc, shelf, given),
            Part::Diffs => diffs::answer(alloc, shelf, given),
            Part::Changes => changes::answer(alloc, shelf, given),
            Part::Compares => compares::answer(alloc, shelf, given),
            Part::Simplifies => simplifies::answer(alloc, shelf, given),
            Part::Shows => shows::answer(alloc, shelf, given),
            Part::ListDiffs => list_diffs::answer(alloc, shelf, given),
            Part::Trees => trees::answer(alloc, shelf, given),
            Part::Fixes => fixes::answer(alloc, shelf, given),
            Part::Mends => mends::answer(alloc, shelf, given),
            Part::Choices => choices::answer(alloc, shelf, given),
            Part::Checks => checks::answer(alloc, shelf, given),
            Part::Commands => commands::answer(alloc, shelf, given),
            Part::Troubles => troubles::answer(alloc, given),
        }
    }

    /// Tries each row `GIVEN => WANTED` of the text, over the shelf that stands in it. Appends those that don't hold, and how
    /// many do; gives whether all do.
    pub(crate) fn try_rows(
        self,
        alloc: Global,
        shown: &mut String,
        text: &str,
    ) -> Result<bool, AllocError> {
        let shelf = shelf_of(alloc, text)?;
        let mut tally = Tally::new();
        for row in text.lines() {
            if let Some((given, wanted)) = row.split_once(" => ") {
                let answered = self.answer(alloc, &shelf, given)?;
                tally.count(shown, row, wanted.trim(), answered.as_str())?;
            }
        }
        tally.end(shown)
    }
}
