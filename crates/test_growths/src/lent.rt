// What is lent to a call.
//
// Most functions of this crate own one value and borrow the others, since a proof grows with each value that is let go on each
// way out of the function.

use crate::end::{Answer, End};
use spdx::{Catalogue, Expression, Failure, LicenseReq, Licensee};
use std::alloc::Global;

/// An expression, and a copy that no call is lent.
#[derive(Drop)]
pub(crate) struct Lent<'c> {
    pub(crate) expression: Expression<'c>,
    before: Expression<'c>,
}

impl<'c> Lent<'c> {
    /// The expression of the text.
    pub(crate) fn new(alloc: Global, catalogue: &'c Catalogue, text: &str) -> Result<Self, End> {
        let expression = Expression::parse(alloc, catalogue, text)?;
        let before = expression.try_clone(alloc)?;
        Ok(Lent { expression, before })
    }

    /// How a call ended that wanted memory.
    pub(crate) fn end(&self) -> End {
        if self.expression == self.before {
            End::InTheCall
        } else {
            End::Otherwise("what was lent has changed")
        }
    }

    /// How a call ended that failed, for want of memory or because it refused.
    pub(crate) fn end_of<E>(&self, failure: &Failure<E>) -> End {
        match failure {
            Failure::Memory(_) => self.end(),
            Failure::Refused(_) => End::Otherwise("refused"),
        }
    }

    /// The requirements of a choice, or how the call ended that gave none.
    pub(crate) fn chosen<E: Drop>(
        &self,
        alloc: Global,
        choice: Result<Vec<LicenseReq<'_>>, Failure<E>>,
    ) -> Answer {
        match choice {
            Ok(requirements) => joined(alloc, &requirements),
            Err(failure) => Err(self.end_of(&failure)),
        }
    }
}

/// The licensees of these names.
pub(crate) fn licensees<'c>(
    alloc: Global,
    catalogue: &'c Catalogue,
    names: &[&str],
) -> Result<Vec<Licensee<'c>>, End> {
    let mut licensees = Vec::new(alloc);
    for name in names {
        licensees.push(Licensee::parse(alloc, catalogue, name)?)?;
    }
    Ok(licensees)
}

// The requirements with commas between.
fn joined(alloc: Global, requirements: &[LicenseReq<'_>]) -> Answer {
    let mut shown = String::new(alloc);
    for requirement in requirements {
        let between = if shown.is_empty() { "" } else { "," };
        write!(shown, "{between}{requirement}")?;
    }
    Ok(shown)
}
