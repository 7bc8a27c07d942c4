// Look-ups of licences and exceptions, and what an id tells.

use crate::answer::{Answer, NoAnswer};
use spdx::{Catalogue, ExceptionId, LicenseId};
use std::alloc::{AllocError, Global};

fn license_index(id: Option<LicenseId<'_>>) -> Option<usize> {
    id.map(|id| id.license().index)
}

fn exception_index(id: Option<ExceptionId<'_>>) -> Option<usize> {
    id.map(|id| id.exception().index)
}

// The index behind the text, or `none`.
fn put_index(shown: &mut String, index: Option<usize>) -> Result<(), AllocError> {
    let between = if shown.is_empty() { "" } else { ", " };
    match index {
        Some(index) => write!(shown, "{between}{index}"),
        None => write!(shown, "{between}none"),
    }
}

fn indices(alloc: Global, found: &[Option<usize>]) -> Answer {
    let mut shown = String::new(alloc);
    for index in found {
        put_index(&mut shown, *index)?;
    }
    Ok(shown)
}

/// The licence of that name, and the first whose name it is, the case of letters aside.
pub(crate) fn license(alloc: Global, catalogue: &Catalogue, name: &str) -> Answer {
    let exact = license_index(catalogue.license_id(name));
    let caseless = license_index(catalogue.license_id_caseless(name));
    indices(alloc, &[exact, caseless])
}

/// The exception of that name, and the first whose name it is, the case of letters aside.
pub(crate) fn exception(alloc: Global, catalogue: &Catalogue, name: &str) -> Answer {
    let exact = exception_index(catalogue.exception_id(name));
    let caseless = exception_index(catalogue.exception_id_caseless(name));
    indices(alloc, &[exact, caseless])
}

fn without_last(name: &str) -> &str {
    match name.split_at_checked(name.len().saturating_sub(1)) {
        Some((front, _)) => front,
        None => "",
    }
}

/// The licences of a name, of the name and a 0, and of the name but for its last byte.
pub(crate) fn near_license(alloc: Global, catalogue: &Catalogue, name: &str) -> Answer {
    let longer = format!(in alloc; "{name}0")?;
    let found = license_index(catalogue.license_id(name));
    let above = license_index(catalogue.license_id(longer.as_str()));
    let below = license_index(catalogue.license_id(without_last(name)));
    indices(alloc, &[found, above, below])
}

/// The exceptions of a name, of the name and a 0, and of the name but for its last byte.
pub(crate) fn near_exception(alloc: Global, catalogue: &Catalogue, name: &str) -> Answer {
    let longer = format!(in alloc; "{name}0")?;
    let found = exception_index(catalogue.exception_id(name));
    let above = exception_index(catalogue.exception_id(longer.as_str()));
    let below = exception_index(catalogue.exception_id(without_last(name)));
    indices(alloc, &[found, above, below])
}

/// The GNU licence of a base name that means its version alone, and the one that means later ones too.
pub(crate) fn gnu(alloc: Global, catalogue: &Catalogue, base: &str) -> Answer {
    let only = license_index(catalogue.gnu_license_id(base, false));
    let or_later = license_index(catalogue.gnu_license_id(base, true));
    indices(alloc, &[only, or_later])
}

/// The licence that an imprecise name at the text's head means, and how many bytes the name takes.
pub(crate) fn imprecise(alloc: Global, catalogue: &Catalogue, text: &str) -> Answer {
    match catalogue.imprecise_license_id(text) {
        Some((id, taken)) => Ok(format!(in alloc; "{}, {taken} bytes", id.license().index)?),
        None => Ok("none".to_string(alloc)?),
    }
}

/// The version of the catalogue's list.
pub(crate) fn version(alloc: Global, catalogue: &Catalogue) -> Answer {
    Ok(catalogue.license_version().to_string(alloc)?)
}

/// The base and the version of a licence's name, and the id as it is printed for who looks for a bug.
pub(crate) fn parts(alloc: Global, catalogue: &Catalogue, name: &str) -> Answer {
    let Some(id) = catalogue.license_id(name) else {
        return Err(NoAnswer::Row);
    };
    let (base, version) = (id.base(), id.version().unwrap_or("none"));
    Ok(format!(in alloc; "{base}, {version}, {id:?}")?)
}

// The words whose flag is set, with blanks between.
fn words(alloc: Global, flags: &[(&str, bool)]) -> Answer {
    let mut shown = String::new(alloc);
    for (word, is_set) in flags {
        if *is_set {
            let between = if shown.is_empty() { "" } else { " " };
            write!(shown, "{between}{word}")?;
        }
    }
    Ok(shown)
}

/// What the flags of a licence say.
pub(crate) fn license_flags(alloc: Global, catalogue: &Catalogue, name: &str) -> Answer {
    let Some(id) = catalogue.license_id(name) else {
        return Err(NoAnswer::Row);
    };
    words(
        alloc,
        &[
            ("free", id.is_fsf_free_libre()),
            ("approved", id.is_osi_approved()),
            ("deprecated", id.is_deprecated()),
            ("copyleft", id.is_copyleft()),
            ("GNU", id.is_gnu()),
        ],
    )
}

/// What the flags of an exception say, and the id as it is printed for who looks for a bug.
pub(crate) fn exception_flags(alloc: Global, catalogue: &Catalogue, name: &str) -> Answer {
    let Some(id) = catalogue.exception_id(name) else {
        return Err(NoAnswer::Row);
    };
    let shown = words(alloc, &[("deprecated", id.is_deprecated())])?;
    Ok(format!(in alloc; "{shown}|{id:?}")?)
}
