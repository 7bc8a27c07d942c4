// Rows, one by one.

use crate::answer::{Answer, NoAnswer, two_parts};
use crate::calls::{
    canonical, choice, copies, evaluation, json, lexing, licensees, look_ups, making, meaning,
    orders, parsing, printing,
};
use crate::catalogues::Catalogues;
use spdx::Catalogue;
use std::alloc::{AllocError, Global};
use test_rows::written_out;

/// Which call the rows are of, and how many of them hold.
#[derive(Drop)]
pub struct Tally<'a> {
    catalogues: &'a Catalogues,
    heading: Heading<'a>,
    pub held: u64,
    pub others: u64,
}

// The catalogue and the call of the rows behind a heading.
#[derive(Clone, Copy)]
struct Heading<'a> {
    catalogue: &'a str,
    call: &'a str,
}

impl<'a> Tally<'a> {
    pub(crate) fn new(catalogues: &'a Catalogues) -> Tally<'a> {
        Tally {
            catalogues,
            heading: Heading {
                catalogue: "",
                call: "",
            },
            held: 0,
            others: 0,
        }
    }

    /// Takes a line, and says what is to be printed of it.
    pub(crate) fn take(&mut self, alloc: Global, line: &'a str) -> Result<String, AllocError> {
        if let Some(heading) = line.strip_prefix("= ") {
            let (catalogue, call) = heading.split_once(": ").unwrap_or((heading, ""));
            self.heading = Heading { catalogue, call };
            return Ok(String::new(alloc));
        }
        if line.is_empty() || line.starts_with('#') {
            return Ok(String::new(alloc));
        }
        self.try_row(alloc, line)
    }

    fn try_row(&mut self, alloc: Global, row: &str) -> Result<String, AllocError> {
        match self.difference(alloc, row) {
            Ok(None) => {
                self.held = self.held.saturating_add(1);
                Ok(String::new(alloc))
            }
            Ok(Some(shown)) => {
                self.others = self.others.saturating_add(1);
                format!(in alloc; "{row}\n    answered: {shown}\n")
            }
            Err(reason) => {
                self.others = self.others.saturating_add(1);
                format!(in alloc; "{row}\n    no answer: {reason:?}\n")
            }
        }
    }

    // What the row is answered, where that is not what it wants.
    fn difference(&self, alloc: Global, row: &str) -> Result<Option<String>, NoAnswer> {
        let (given, wanted) = two_parts(row, " => ")?;
        let shown = self.answered(alloc, given)?;
        let wanted = written_out(alloc, wanted)?;
        let is_wanted = shown == wanted || (shown.is_empty() && wanted.as_str() == "(empty)");
        Ok(if is_wanted { None } else { Some(shown) })
    }

    fn answered(&self, alloc: Global, given: &str) -> Answer {
        let given = written_out(alloc, given)?;
        match self.catalogues.get(self.heading.catalogue) {
            Some(catalogue) => answer(alloc, catalogue, self.heading.call, given.as_str()),
            None => Err(NoAnswer::Row),
        }
    }
}

// What the call makes of the fields that are given.
fn answer(alloc: Global, catalogue: &Catalogue, call: &str, given: &str) -> Answer {
    match call {
        "tokens" => lexing::items(alloc, catalogue, given),
        "tree" => parsing::tree(alloc, catalogue, given),
        "equal" => parsing::equal(alloc, catalogue, given),
        "spans" => parsing::spans(alloc, catalogue, given),
        "index" => parsing::index(alloc, catalogue, given),
        "counts" => parsing::counts(alloc, catalogue, given),
        "copies" => copies::expression(alloc, catalogue, given),
        "canonical text" => canonical::text(alloc, catalogue, given),
        "canonical text, read strictly" => canonical::read_strictly(alloc, catalogue, given),
        "normal text" => canonical::normal(alloc, catalogue, given),
        "fix" => canonical::fix(alloc, catalogue, given),
        "licensee" => licensees::named(alloc, catalogue, given),
        "licensee copied" => copies::licensee(alloc, catalogue, given),
        "satisfied" => licensees::satisfied(alloc, catalogue, given),
        _ => answer_to_tree(alloc, catalogue, call, given),
    }
}

fn answer_to_tree(alloc: Global, catalogue: &Catalogue, call: &str, given: &str) -> Answer {
    match call {
        "truth" => evaluation::truth(alloc, catalogue, given),
        "failures" => evaluation::failures(alloc, catalogue, given),
        "OSI approved" => evaluation::osi_approved(alloc, catalogue, given),
        "choice" => choice::choice(alloc, catalogue, given),
        "choice for two" => choice::joint(alloc, catalogue, given),
        "choice for none" => choice::for_none(alloc, catalogue, given),
        "questions" => choice::questions(alloc, catalogue, given),
        "questions for two" => choice::questions_for_two(alloc, catalogue, given),
        "printed fault" => printing::fault(alloc, catalogue, given),
        "reason" => printing::reason(alloc, given),
        "marked licence" => printing::marked(alloc, catalogue, given),
        "printed text" => printing::whole(alloc, catalogue, given),
        "read back" => printing::read_back(alloc, catalogue, given),
        "requirement" => printing::requirement(alloc, catalogue, given),
        "meaning" => meaning::told(alloc, catalogue, given),
        "ascending" => orders::ascending(alloc, catalogue, given),
        "licences ascending" => orders::licenses_ascending(alloc, catalogue, given),
        _ => answer_of_rows(alloc, catalogue, call, given),
    }
}

fn answer_of_rows(alloc: Global, catalogue: &Catalogue, call: &str, given: &str) -> Answer {
    match call {
        "JSON" => json::text(alloc, given),
        "licences" => json::large(alloc, given),
        "tables" => json::tables(alloc, given),
        "bytes" => json::bytes(alloc, given),
        "made" => making::made(alloc, given),
        "fault of rows" => making::fault(alloc, given),
        "version" => look_ups::version(alloc, catalogue),
        "licence" => look_ups::license(alloc, catalogue, given),
        "exception" => look_ups::exception(alloc, catalogue, given),
        "near licence" => look_ups::near_license(alloc, catalogue, given),
        "near exception" => look_ups::near_exception(alloc, catalogue, given),
        "GNU licence" => look_ups::gnu(alloc, catalogue, given),
        "imprecise licence" => look_ups::imprecise(alloc, catalogue, given),
        "parts" => look_ups::parts(alloc, catalogue, given),
        "flags" => look_ups::license_flags(alloc, catalogue, given),
        "exception's flags" => look_ups::exception_flags(alloc, catalogue, given),
        _ => Err(NoAnswer::Row),
    }
}
