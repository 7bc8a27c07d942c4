// What packages are used under.

use package_choices::allowed::{Joint, Offer, choice_for_all};
use spdx_catalogue::Catalogue;
use spdx_gate::{Judged, Outcome, judge_text};
use spdx_parser::node::ExprNode;
use spdx_policy::Policy;
use spdx_why::Remedy;
use std::alloc::{AllocError, Global};

/// The packages of some rows, in their order.
#[derive(Drop)]
pub(crate) struct Rows<'c> {
    /// What each row asks.
    pub asked: Vec<String>,
    /// What it wants.
    pub wanted: Vec<String>,
    judged: Vec<Judged<'c>>,
}

/// The rows of some lines; those that hold no expression are left out.
pub(crate) fn read_rows<'c>(
    alloc: Global,
    catalogue: &'c Catalogue,
    policy: &Policy<'c>,
    lines: &str,
) -> Result<Rows<'c>, AllocError> {
    let mut rows = Rows {
        asked: Vec::new(alloc),
        wanted: Vec::new(alloc),
        judged: Vec::new(alloc),
    };
    for line in lines.lines() {
        if line.is_empty() || line.starts_with('#') {
            continue;
        }
        let (asked, wanted) = line.split_once(" => ").unwrap_or((line, ""));
        if let Outcome::Judged(judged) = read(alloc, catalogue, policy, asked)? {
            rows.judged.push(judged)?;
            rows.asked.push(String::from_str(alloc, asked)?)?;
            rows.wanted.push(String::from_str(alloc, wanted)?)?;
        }
    }
    Ok(rows)
}

fn read<'c>(
    alloc: Global,
    catalogue: &'c Catalogue,
    policy: &Policy<'c>,
    asked: &str,
) -> Result<Outcome<'c>, AllocError> {
    let (name, rest) = asked.split_once(" ").unwrap_or((asked, ""));
    let (version, text) = rest.split_once(" ").unwrap_or((rest, ""));
    let exceptions = policy.exceptions_for(alloc, name, Some(version))?;
    judge_text(alloc, catalogue, policy, &exceptions, text)
}

/// What each row is answered: what its package is used under alone, and by the one choice for all.
pub(crate) fn answers(alloc: Global, rows: &Rows<'_>) -> Result<Vec<String>, AllocError> {
    let offers = offers(alloc, rows)?;
    let together = together(alloc, &offers)?;
    answers_of(alloc, &rows.judged, &offers, &together)
}

fn answers_of(
    alloc: Global,
    judged: &[Judged<'_>],
    offers: &[Offer<'_, '_>],
    together: &[Remedy],
) -> Result<Vec<String>, AllocError> {
    let mut answers = Vec::new(alloc);
    for (place, (offer, judged)) in offers.iter().zip(judged.iter()).enumerate() {
        answers.push(both_told(alloc, offer, &judged.choice, together.get(place))?)?;
    }
    Ok(answers)
}

fn both_told(
    alloc: Global,
    offer: &Offer<'_, '_>,
    alone: &Remedy,
    joined: Option<&Remedy>,
) -> Result<String, AllocError> {
    let alone = told(alloc, offer, Some(alone))?;
    let joined = told(alloc, offer, joined)?;
    format!(in alloc; "{alone} ; {joined}")
}

fn offers<'j, 'c>(alloc: Global, rows: &'j Rows<'c>) -> Result<Vec<Offer<'j, 'c>>, AllocError> {
    let mut offers = Vec::new(alloc);
    for judged in &rows.judged {
        offers.push(Offer::of(alloc, judged)?)?;
    }
    Ok(offers)
}

fn together(alloc: Global, offers: &[Offer<'_, '_>]) -> Result<Vec<Remedy>, AllocError> {
    match choice_for_all(alloc, offers)? {
        Joint::Together(choices) => Ok(choices),
        Joint::Unmet | Joint::TooMany(_) => Ok(Vec::new(alloc)),
    }
}

// The requirements of a choice; `-`, where there is none.
fn told(
    alloc: Global,
    offer: &Offer<'_, '_>,
    choice: Option<&Remedy>,
) -> Result<String, AllocError> {
    let Some(Remedy::Accept(numbers)) = choice else {
        return String::from_str(alloc, "-");
    };
    let mut text = String::new(alloc);
    let mut number: usize = 0;
    for node in offer.nodes() {
        if let ExprNode::Req(requirement) = node {
            if numbers.contains(&number) {
                let name = format!(in alloc; "{}", requirement.req)?;
                if !text.is_empty() {
                    text.push_str(", ")?;
                }
                text.push_str(&name)?;
            }
            number = number.saturating_add(1);
        }
    }
    Ok(text)
}
