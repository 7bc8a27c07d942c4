// Printed faults, reasons, items and requirements.

use crate::answer::{Answer, NoAnswer};
use spdx::error::Reason;
use spdx::{Catalogue, Expression, Failure, LicenseItem, LicenseReq, ParseError};
use std::alloc::Global;

/// What the printed fault of a text says below it, after as many blanks as stand before it, and its description.
pub(crate) fn fault(alloc: Global, catalogue: &Catalogue, text: &str) -> Answer {
    match Expression::parse(alloc, catalogue, text) {
        Ok(_) => Err(NoAnswer::Row),
        Err(Failure::Refused(fault)) => printed(alloc, &fault, text),
        Err(Failure::Memory(_)) => Err(NoAnswer::Memory),
    }
}

fn printed(alloc: Global, fault: &ParseError<'_>, text: &str) -> Answer {
    let described = fault.description();
    if fault.reason.description() != described {
        return Err(NoAnswer::Row);
    }
    let printed = format!(in alloc; "{fault}")?;
    let Some(behind) = printed.as_str().strip_prefix(text) else {
        return Ok(printed);
    };
    let below = behind.strip_prefix('\n').unwrap_or("no line");
    Ok(format!(in alloc; "{below}|{described}")?)
}

fn reason_named(name: &str) -> Option<Reason> {
    match name {
        "UnknownLicense" => Some(Reason::UnknownLicense),
        "UnknownException" => Some(Reason::UnknownException),
        "InvalidCharacters" => Some(Reason::InvalidCharacters),
        "UnclosedParens" => Some(Reason::UnclosedParens),
        "UnopenedParens" => Some(Reason::UnopenedParens),
        "Empty" => Some(Reason::Empty),
        "SeparatedPlus" => Some(Reason::SeparatedPlus),
        "UnknownTerm" => Some(Reason::UnknownTerm),
        "GnuNoPlus" => Some(Reason::GnuNoPlus),
        "GnuPlusWithSuffix" => Some(Reason::GnuPlusWithSuffix),
        "DeprecatedLicenseId" => Some(Reason::DeprecatedLicenseId),
        "Unexpected([])" => Some(Reason::Unexpected(&[])),
        "Unexpected([\"<addition>\"])" => Some(Reason::Unexpected(&["<addition>"])),
        "Unexpected([\"AND\", \"OR\", \")\"])" => Some(Reason::Unexpected(&["AND", "OR", ")"])),
        _ => None,
    }
}

/// The text of a reason, and its description.
pub(crate) fn reason(alloc: Global, name: &str) -> Answer {
    match reason_named(name) {
        Some(reason) => {
            let described = reason.description();
            Ok(format!(in alloc; "{reason}|{described}")?)
        }
        None => Err(NoAnswer::Row),
    }
}

/// The printed licence of that name with the mark.
pub(crate) fn marked(alloc: Global, catalogue: &Catalogue, name: &str) -> Answer {
    match catalogue.license_id(name) {
        Some(id) => {
            let item = LicenseItem::Spdx { id, or_later: true };
            Ok(format!(in alloc; "{item}")?)
        }
        None => Err(NoAnswer::Row),
    }
}

/// The printed expression.
pub(crate) fn whole(alloc: Global, catalogue: &Catalogue, text: &str) -> Answer {
    let expression = Expression::parse(alloc, catalogue, text)?;
    Ok(format!(in alloc; "{expression}")?)
}

/// What the printed text of each requirement is read as, strictly.
pub(crate) fn read_back(alloc: Global, catalogue: &Catalogue, text: &str) -> Answer {
    let expression = Expression::parse(alloc, catalogue, text)?;
    read_again(alloc, catalogue, &expression)
}

fn read_again<'c>(alloc: Global, catalogue: &'c Catalogue, expression: &Expression<'c>) -> Answer {
    let mut all = String::new(alloc);
    for requirement in expression.requirements() {
        put_again(alloc, catalogue, &requirement.req, &mut all)?;
    }
    Ok(all)
}

// The one requirement that the printed text of a requirement is read as, in brackets.
fn put_again(
    alloc: Global,
    catalogue: &Catalogue,
    req: &LicenseReq<'_>,
    all: &mut String,
) -> Result<(), NoAnswer> {
    let printed = format!(in alloc; "{req}")?;
    let alone = Expression::parse(alloc, catalogue, printed.as_str())?;
    write!(all, "[{alone:?}]")?;
    Ok(())
}

/// The printed requirement of a listed licence alone.
pub(crate) fn requirement(alloc: Global, catalogue: &Catalogue, name: &str) -> Answer {
    match catalogue.license_id(name) {
        Some(id) => {
            let requirement = LicenseReq::from(id);
            Ok(format!(in alloc; "{requirement}")?)
        }
        None => Err(NoAnswer::Row),
    }
}
