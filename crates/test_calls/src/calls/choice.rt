// The least choice of licensees.

use crate::answer::{Answer, NoAnswer, fields};
use spdx::expression::MinimizeError;
use spdx::{
    Catalogue, Expression, ExpressionJudge, Failure, LicenseReq, Licensee, Sufficiency,
    least_selection, minimized_for_all,
};
use std::alloc::{AllocError, Global};

// The licensees that the text names, with commas between.
fn licensees<'c>(
    alloc: Global,
    catalogue: &'c Catalogue,
    texts: &str,
) -> Result<Vec<Licensee<'c>>, NoAnswer> {
    let mut licensees = Vec::new(alloc);
    for text in texts.split(',') {
        if !text.is_empty() {
            licensees.push(Licensee::parse(alloc, catalogue, text)?)?;
        }
    }
    Ok(licensees)
}

type Chosen<'c> = Result<Vec<LicenseReq<'c>>, Failure<MinimizeError>>;

// The requirements with commas between, or the error.
fn shown(alloc: Global, chosen: Chosen<'_>) -> Answer {
    let mut text = String::new(alloc);
    match chosen {
        Ok(requirements) => {
            for requirement in &requirements {
                let between = if text.is_empty() { "" } else { "," };
                write!(text, "{between}{requirement}")?;
            }
        }
        Err(Failure::Refused(error)) => write!(text, "{error}")?,
        Err(Failure::Memory(_)) => return Err(NoAnswer::Memory),
    }
    Ok(text)
}

/// The choice for a text among the licensees, or the error.
pub(crate) fn choice(alloc: Global, catalogue: &Catalogue, given: &str) -> Answer {
    let (text, names) = fields(given)?;
    let expression = Expression::parse(alloc, catalogue, text)?;
    let accepted = licensees(alloc, catalogue, names)?;
    shown(
        alloc,
        expression.minimized_requirements(alloc, accepted.as_slice()),
    )
}

/// The choice for two texts together, or the error.
pub(crate) fn joint(alloc: Global, catalogue: &Catalogue, given: &str) -> Answer {
    for_two(alloc, catalogue, given, Wanted::Choice)
}

// What is asked of two texts together.
#[derive(Clone, Copy)]
enum Wanted {
    Choice,
    Questions,
}

// (This and the next two own one value each: a proof grows with each value that is let go on each way out of the function.)
fn for_two(alloc: Global, catalogue: &Catalogue, given: &str, wanted: Wanted) -> Answer {
    let (first, others) = fields(given)?;
    let (second, names) = fields(others)?;
    let accepted = licensees(alloc, catalogue, names)?;
    for_both(
        alloc,
        catalogue,
        (first, second),
        accepted.as_slice(),
        wanted,
    )
}

fn for_both<'c>(
    alloc: Global,
    catalogue: &'c Catalogue,
    texts: (&str, &str),
    accepted: &[Licensee<'c>],
    wanted: Wanted,
) -> Answer {
    let first = Expression::parse(alloc, catalogue, texts.0)?;
    for_another(alloc, catalogue, (&first, texts.1), accepted, wanted)
}

fn for_another<'c>(
    alloc: Global,
    catalogue: &'c Catalogue,
    (first, text): (&Expression<'c>, &str),
    accepted: &[Licensee<'c>],
    wanted: Wanted,
) -> Answer {
    let second = Expression::parse(alloc, catalogue, text)?;
    for_all(alloc, &both(first, &second), accepted, wanted)
}

fn for_all<'c>(
    alloc: Global,
    expressions: &[&Expression<'c>],
    accepted: &[Licensee<'c>],
    wanted: Wanted,
) -> Answer {
    match wanted {
        Wanted::Choice => shown(alloc, minimized_for_all(alloc, expressions, accepted)),
        Wanted::Questions => asked_of_all(alloc, expressions, accepted),
    }
}

fn both<'l, 'c>(one: &'l Expression<'c>, other: &'l Expression<'c>) -> [&'l Expression<'c>; 2] {
    [one, other]
}

/// The choice for no text.
pub(crate) fn for_none(alloc: Global, catalogue: &Catalogue, names: &str) -> Answer {
    let accepted = licensees(alloc, catalogue, names)?;
    shown(alloc, minimized_for_all(alloc, &[], accepted.as_slice()))
}

/// How many members the least selection has, and whether it took at most one question more than there are licensees.
pub(crate) fn questions(alloc: Global, catalogue: &Catalogue, given: &str) -> Answer {
    let (text, names) = fields(given)?;
    let accepted = licensees(alloc, catalogue, names)?;
    asked(alloc, catalogue, text, accepted.as_slice())
}

/// The same for two texts together.
pub(crate) fn questions_for_two(alloc: Global, catalogue: &Catalogue, given: &str) -> Answer {
    for_two(alloc, catalogue, given, Wanted::Questions)
}

fn asked<'c>(
    alloc: Global,
    catalogue: &'c Catalogue,
    text: &str,
    accepted: &[Licensee<'c>],
) -> Answer {
    let expression = Expression::parse(alloc, catalogue, text)?;
    asked_of(alloc, &expression, accepted)
}

fn asked_of<'c>(alloc: Global, expression: &Expression<'c>, accepted: &[Licensee<'c>]) -> Answer {
    let members = lent(alloc, accepted)?;
    counted(
        alloc,
        &mut ExpressionJudge::new(alloc, expression, &members)?,
    )
}

fn asked_of_all<'c>(
    alloc: Global,
    expressions: &[&Expression<'c>],
    accepted: &[Licensee<'c>],
) -> Answer {
    let members = lent(alloc, accepted)?;
    counted(
        alloc,
        &mut ExpressionJudge::new_all(alloc, expressions, &members)?,
    )
}

fn counted(alloc: Global, judge: &mut ExpressionJudge<'_, '_>) -> Answer {
    let (suffices, chosen) = selected(alloc, judge)?;
    let are_few = judge.asked() <= (judge.members() as u64).saturating_add(1);
    Ok(format!(in alloc; "{suffices}, {chosen} chosen, few questions: {are_few}")?)
}

fn lent<'l, 'c>(
    alloc: Global,
    licensees: &'l [Licensee<'c>],
) -> Result<Vec<&'l Licensee<'c>>, AllocError> {
    let mut lent = Vec::new(alloc);
    for licensee in licensees {
        lent.push(licensee)?;
    }
    Ok(lent)
}

// Whether all members suffice, and how many of them are selected.
fn selected(
    alloc: Global,
    judge: &mut ExpressionJudge<'_, '_>,
) -> Result<(bool, usize), AllocError> {
    let mut selection = Vec::from_elem(alloc, false, judge.members())?;
    let suffices = least_selection(judge, selection.as_mut_slice());
    let chosen = selection.iter().filter(|is_chosen| **is_chosen).count();
    Ok((suffices, chosen))
}
