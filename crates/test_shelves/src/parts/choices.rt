// What packages are used under, over a shelf of values.
//
// The first rows are the shelf's files, as `shelf` reads them. A row `PACKAGES | ACCEPTED | all => WANTED` has what packages are
// used under, with `all` by one choice for all of them. Packages have a `; ` between them, each by its name, its version behind a
// blank, and its licence behind `=`. What is accepted is `list NAMES`, `lax NAMES`, whose expressions are read lax, or
// `policy PATH`. `refs FROM TO` stands for so many references, in a licence with AND between them and in a list with commas.
// What is wanted is of each package the choice and all that it offers, or why there is none. A line that begins with `#` says
// something to readers.

use crate::shelf::{REPLACEMENTS, inside};
use choice_program::{Accepted, ChoiceTrouble, Chosen, Why, choose};
use gate_program::PolicyTrouble;
use list_program::named_list;
use package_sources::{License, Package, Spot};
use shelves::Held;
use spdx_lexer::token::ParseMode;
use spdx_licensee::RequirementTexts;
use std::alloc::{AllocError, Global};

fn refs(alloc: Global, from: usize, to: usize, between: &str) -> Result<String, AllocError> {
    let mut text = String::new(alloc);
    for number in from..to {
        if number > from {
            text.push_str(between)?;
        }
        text.push_str(format!(in alloc; "LicenseRef-{number}")?.as_str())?;
    }
    Ok(text)
}

// The text, with references written out.
fn written(alloc: Global, text: &str, between: &str) -> Result<String, AllocError> {
    let numbers = text
        .strip_prefix("refs ")
        .and_then(|rest| rest.split_once(" "));
    match numbers {
        Some((from, to)) => refs(alloc, number(from), number(to), between),
        None => String::from_str(alloc, text),
    }
}

fn number(text: &str) -> usize {
    text.parse().unwrap_or(0)
}

pub(crate) fn answer(alloc: Global, shelf: &Held, given: &str) -> Result<String, AllocError> {
    let (packages, rest) = given.split_once(" | ").unwrap_or((given, ""));
    let packages = packages_of(alloc, packages)?;
    let mut lent = Vec::new(alloc);
    for package in &packages {
        lent.push(package)?;
    }
    answer_for(alloc, shelf, &lent, rest)
}

fn packages_of(alloc: Global, text: &str) -> Result<Vec<Package>, AllocError> {
    let mut packages = Vec::new(alloc);
    for one in text.split("; ") {
        packages.push(package(alloc, one)?)?;
    }
    Ok(packages)
}

fn answer_for(
    alloc: Global,
    shelf: &Held,
    packages: &[&Package],
    rest: &str,
) -> Result<String, AllocError> {
    let Ok(catalogue) = named_list(alloc, shelf, inside(), None) else {
        return Err(AllocError);
    };
    let (accepted, words) = rest.split_once(" | ").unwrap_or((rest, ""));
    let (kind, rest) = accepted.split_once(" ").unwrap_or((accepted, ""));
    let names = written(alloc, rest, ",")?;
    let accepted = accepted_by(kind, names.as_str());
    let replacements = REPLACEMENTS.as_bytes();
    let together = words == "all";
    match choose(
        alloc,
        shelf,
        replacements,
        &catalogue,
        accepted,
        together,
        packages,
    ) {
        Ok(chosen) => told(alloc, packages, &chosen),
        Err(trouble) => told_trouble(alloc, &trouble),
    }
}

fn accepted_by<'n>(kind: &str, names: &'n str) -> Accepted<'n> {
    let mode = if kind == "lax" {
        ParseMode::LAX
    } else {
        ParseMode::STRICT
    };
    if kind == "policy" {
        Accepted::Policy(names)
    } else {
        Accepted::List { list: names, mode }
    }
}

fn package(alloc: Global, text: &str) -> Result<Package, AllocError> {
    let (name, license) = match text.split_once("=") {
        Some((name, license)) => (name, License::Stated(written(alloc, license, " AND ")?)),
        None => (text, License::Unstated),
    };
    let (name, version) = match name.split_once(" ") {
        Some((name, version)) => (name, Some(String::from_str(alloc, version)?)),
        None => (name, None),
    };
    Ok(Package {
        name: String::from_str(alloc, name)?,
        version,
        license,
        folder: None,
        license_files: Vec::new(alloc),
        evidence: 0,
        is_own: false,
        spot: Spot::Line(1),
    })
}

fn told(alloc: Global, packages: &[&Package], chosen: &Chosen) -> Result<String, AllocError> {
    let mut told = String::new(alloc);
    for (number, package) in packages.iter().enumerate() {
        if number > 0 {
            told.push_str("; ")?;
        }
        told.push_str(package.name.as_str())?;
        told.push_str(": ")?;
        if let Some(choice) = chosen.choices.get(number) {
            told.push_str(names(alloc, choice)?.as_str())?;
        }
        told.push_str(" of ")?;
        if let Some(offered) = chosen.offered.get(number) {
            told.push_str(names(alloc, offered)?.as_str())?;
        }
    }
    Ok(told)
}

fn names(alloc: Global, requirements: &[RequirementTexts]) -> Result<String, AllocError> {
    let mut told = String::new(alloc);
    for (number, one) in requirements.iter().enumerate() {
        if number > 0 {
            told.push_str(", ")?;
        }
        told.push_str(one.name.as_str())?;
    }
    Ok(told)
}

fn told_trouble(alloc: Global, trouble: &ChoiceTrouble) -> Result<String, AllocError> {
    match trouble {
        ChoiceTrouble::NoLicensee(name, reason) => format!(in alloc;
            "no licensee {name}: {reason}"
        ),
        ChoiceTrouble::Policy(PolicyTrouble::Unreadable(path, _)) => {
            format!(in alloc; "unreadable policy {path}")
        }
        ChoiceTrouble::Policy(PolicyTrouble::Memory) | ChoiceTrouble::Memory => Err(AllocError),
        ChoiceTrouble::Policy(_) => String::from_str(alloc, "no policy"),
        ChoiceTrouble::NoChoices(lacking) => {
            let mut told = String::new(alloc);
            for one in lacking {
                let name = one.name.as_str();
                let why = why_text(alloc, &one.why)?;
                told.push_str(format!(in alloc; "[{name}: {why}]")?.as_str())?;
            }
            Ok(told)
        }
        ChoiceTrouble::NoneTogether(why) => {
            let why = why_text(alloc, why)?;
            format!(in alloc; "none together: {why}")
        }
    }
}

fn why_text(alloc: Global, why: &Why) -> Result<String, AllocError> {
    match why {
        Why::Unstated => String::from_str(alloc, "without a licence"),
        Why::Unreadable(text, reason) => format!(in alloc; "{text}: {reason}"),
        Why::Unmet(error) => format!(in alloc; "{error}"),
        Why::NotAllowed => String::from_str(alloc, "not allowed"),
        Why::TooMany => String::from_str(alloc, "too many"),
    }
}
