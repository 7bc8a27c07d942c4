// Catalogues, expressions and licensees that are read.

use crate::end::{Answer, End};
use crate::lent::Lent;
use spdx::{Catalogue, Expression, Failure, Licensee, ParseMode};
use std::alloc::Global;

/// References on both sides, with a document each.
pub const REFERENCES: &str = "DocumentRef-d:LicenseRef-x WITH DocumentRef-e:AdditionRef-y";

/// A text that isn't its own canonical text.
pub const LAX: &str = "apache with LLVM-exception/gpl-3.0+ and gplv2";

/// Reads the catalogue.
pub(crate) fn from_json(alloc: Global, json: &[u8]) -> Answer {
    match Catalogue::from_json(alloc, json) {
        Ok(catalogue) => Ok(catalogue.license_version().to_string(alloc)?),
        Err(Failure::Memory(_)) => Err(End::InTheCall),
        Err(Failure::Refused(_)) => Err(End::Otherwise("refused")),
    }
}

/// Reads the references.
pub(crate) fn parse_mode(alloc: Global, catalogue: &Catalogue, text: &str) -> Answer {
    match Expression::parse_mode(alloc, catalogue, text, ParseMode::STRICT) {
        Ok(expression) => Ok(format!(in alloc; "{expression:?}")?),
        Err(Failure::Memory(_)) => Err(End::InTheCall),
        Err(Failure::Refused(_)) => Err(End::Otherwise("refused")),
    }
}

/// Reads a text that isn't its own canonical text, for its tree and that one.
pub(crate) fn parse_canonical(alloc: Global, catalogue: &Catalogue, text: &str) -> Answer {
    match Expression::parse_canonical(alloc, catalogue, text, ParseMode::LAX) {
        Ok((expression, canonical)) => match canonical {
            Some(canonical) => Ok(format!(in alloc; "{expression:?}, {canonical}")?),
            None => Err(End::Otherwise("the text stays")),
        },
        Err(Failure::Memory(_)) => Err(End::InTheCall),
        Err(Failure::Refused(_)) => Err(End::Otherwise("refused")),
    }
}

/// Copies the expression of the references.
pub(crate) fn try_clone(alloc: Global, catalogue: &Catalogue) -> Answer {
    let lent = Lent::new(alloc, catalogue, REFERENCES)?;
    match lent.expression.try_clone(alloc) {
        Ok(copy) => Ok(format!(in alloc; "{copy:?}")?),
        Err(_) if lent.expression.text() == REFERENCES => Err(lent.end()),
        Err(_) => Err(End::Otherwise("the text has changed")),
    }
}

/// Writes a canonical text that isn't the text.
pub(crate) fn canonicalize(alloc: Global, catalogue: &Catalogue, text: &str) -> Answer {
    match Expression::canonicalize(alloc, catalogue, text) {
        Ok(Some(canonical)) => Ok(canonical),
        Ok(None) => Err(End::Otherwise("the text stays")),
        Err(Failure::Memory(_)) => Err(End::InTheCall),
        Err(Failure::Refused(_)) => Err(End::Otherwise("refused")),
    }
}

/// Mends a text that has a fix.
pub(crate) fn fix(alloc: Global, catalogue: &Catalogue, text: &str) -> Answer {
    match Expression::fix(alloc, catalogue, text) {
        Ok(Some(fix)) => Ok(fix),
        Ok(None) => Err(End::Otherwise("no fix")),
        Err(_) => Err(End::InTheCall),
    }
}

/// Reads a licensee that is a reference.
pub(crate) fn licensee(alloc: Global, catalogue: &Catalogue, text: &str) -> Answer {
    match Licensee::parse(alloc, catalogue, text) {
        Ok(licensee) => {
            let requirement = licensee.into_req();
            Ok(format!(in alloc; "{requirement}")?)
        }
        Err(Failure::Memory(_)) => Err(End::InTheCall),
        Err(Failure::Refused(_)) => Err(End::Otherwise("refused")),
    }
}
