// The parts of the rows, and how the rows of each are tried.

use crate::{changes, choices, folders, own_texts, policies, sources, tags};
use spdx_catalogue::Catalogue;
use std::alloc::{AllocError, Global};
use std::{fs, io};
use test_rows::Tally;

/// What rows are of: a module of this crate.
#[derive(Clone, Copy)]
pub(crate) enum Part {
    Sources,
    Policies,
    Choices,
    Folders,
    OwnTexts,
    Tags,
    Changes,
}

/// All parts, in the order in which they are tried.
pub(crate) const PARTS: [Part; 7] = [
    Part::Sources,
    Part::Policies,
    Part::Choices,
    Part::Folders,
    Part::OwnTexts,
    Part::Tags,
    Part::Changes,
];

impl Part {
    fn name(self) -> &'static str {
        match self {
            Part::Sources => "sources",
            Part::Policies => "policies",
            Part::Choices => "choices",
            Part::Folders => "folders",
            Part::OwnTexts => "own_texts",
            Part::Tags => "tags",
            Part::Changes => "changes",
        }
    }

    /// Tries the rows of the part's file. Appends those that don't hold, and how many do; gives whether all do.
    pub(crate) fn try_file(
        self,
        rt: &HostRuntime,
        shown: &mut String,
        catalogue: &Catalogue,
    ) -> io::Result<bool> {
        let name = self.name();
        writeln!(shown, "== {name}")?;
        let rows = rows_of(rt, name)?;
        self.try_rows(rt, shown, catalogue, rows.as_str())
    }

    fn try_rows(
        self,
        rt: &HostRuntime,
        shown: &mut String,
        catalogue: &Catalogue,
        text: &str,
    ) -> io::Result<bool> {
        let alloc = rt.alloc();
        match self {
            Part::Policies => policies::try_rows(rt, shown, catalogue, text),
            Part::Choices => Ok(choices::try_rows(alloc, shown, catalogue, text)?),
            Part::Tags => Ok(tags::try_rows(alloc, shown, text)?),
            Part::Sources => {
                sources::put_files(alloc, shown, text)?;
                Ok(true)
            }
            Part::Folders | Part::OwnTexts | Part::Changes => {
                Ok(self.try_lines(alloc, shown, catalogue, text)?)
            }
        }
    }

    // Tries each line that isn't blank and says nothing to readers alone.
    fn try_lines(
        self,
        alloc: Global,
        shown: &mut String,
        catalogue: &Catalogue,
        text: &str,
    ) -> Result<bool, AllocError> {
        let mut tally = Tally::new();
        for row in text.lines() {
            if !row.is_empty() && !row.starts_with('#') {
                let (given, wanted) = row.split_once(" => ").unwrap_or((row, ""));
                let answered = self.answer(alloc, catalogue, given)?;
                tally.count(shown, row, wanted, answered.as_str())?;
            }
        }
        tally.end(shown)
    }

    fn answer(
        self,
        alloc: Global,
        catalogue: &Catalogue,
        given: &str,
    ) -> Result<String, AllocError> {
        match self {
            Part::Folders => folders::answer(alloc, given),
            Part::OwnTexts => own_texts::answer(alloc, given),
            _ => changes::answer(alloc, catalogue, given),
        }
    }
}

fn rows_of(rt: &HostRuntime, name: &str) -> io::Result<String> {
    let path = format!(in rt.alloc(); "{name}.rows")?;
    fs::read_to_string(rt, path.as_str())
}
