// Licensees: which texts they are, and what they satisfy.

use crate::answer::{Answer, fields, placed_fault, said};
use spdx::{Catalogue, Expression, Licensee};
use std::alloc::Global;

/// The licensee that the text names, or its fault with the place.
pub(crate) fn named(alloc: Global, catalogue: &Catalogue, text: &str) -> Answer {
    match Licensee::parse(alloc, catalogue, text) {
        Ok(licensee) => {
            let requirement = licensee.into_req();
            Ok(format!(in alloc; "{requirement}")?)
        }
        Err(failure) => placed_fault(alloc, failure),
    }
}

/// Whether the licensee satisfies the one requirement of the text.
pub(crate) fn satisfied(alloc: Global, catalogue: &Catalogue, given: &str) -> Answer {
    let (text, name) = fields(given)?;
    let expression = Expression::parse(alloc, catalogue, text)?;
    let licensee = Licensee::parse(alloc, catalogue, name)?;
    let mut is_satisfied = false;
    for requirement in expression.requirements() {
        is_satisfied = licensee.satisfies(&requirement.req);
    }
    said(alloc, is_satisfied)
}
