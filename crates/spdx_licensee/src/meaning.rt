//! The requirement that is judged in place of the one that was read.

ghost use Rattle.std.specs.Prelude.{◌≡◌, IfOk, option_map};
ghost use Rattle.std.specs.Option.{option_copied};
ghost use Rattle.spdx_requirement.specs.Endings as endings;
ghost use Rattle.spdx_requirement.specs.Ids.{id_row, exception_row};
ghost use Rattle.spdx_requirement.specs.Items.{requirement_of, license_of, addition_of};
ghost use Rattle.spdx_licensee.specs.Replacements as stated;
ghost use Rattle.spdx_licensee.specs.Sense as spec;
ghost use Rattle.spdx_licensee.specs.Shown as shown;

use crate::licensee::allows_later;
use crate::replacements::{KnownReplacement, Replacements, Successor};
use spdx_catalogue::{AdditionItem, Catalogue, ExceptionId, LicenseId, LicenseItem, LicenseReq};
use spdx_requirement::endings::has_suffix;
use std::alloc::{AllocError, Global};

/// What a requirement means: a GNU name without an ending is the one with `-only`, any other
/// deprecated name is what the replacements state in its place, and `-or-later` is the licence with `-only`
/// and a mark, where the list has it. A deprecated name stays where nothing is stated in its place;
/// where that has an addition beside the requirement's own, the requirement's counts. Copies of
/// references take memory.
pub fn sense<'c>(
    alloc: Global,
    catalogue: &'c Catalogue,
    replacements: &Replacements<'c>,
    req: &LicenseReq<'c>,
) -> Result<LicenseReq<'c>, AllocError>
    ensures { IfOk result (λ means. requirement_of means
        ≡ spec.sense catalogue.now replacements.now (requirement_of req.now)) }
{
    match &req.license {
        LicenseItem::Other(_) => {
            let license = req.license.try_clone(alloc)?;
            let addition = copy_of(alloc, &req.addition)?;
            Ok(LicenseReq {
                license,
                addition: current(replacements, addition),
            })
        }
        LicenseItem::Spdx { id, or_later } => {
            let id = only_id(catalogue, *id);
            let (id, addition) = replaced(alloc, id, &req.addition, replacements.succeeds(id))?;
            Ok(LicenseReq {
                license: versions_from(catalogue, id, *or_later),
                addition: current(replacements, addition),
            })
        }
    }
}

// A GNU licence without an ending is the one that is listed with `-only`.
fn only_id<'c>(catalogue: &'c Catalogue, id: LicenseId<'c>) -> LicenseId<'c>
    ensures { id_row result ≡ spec.only_row catalogue.now (id_row id.entry) }
{
    let name = id.license().name.as_str();
    if id.is_gnu() && !has_suffix(name.as_bytes()) {
        catalogue.gnu_license_id(name, false).unwrap_or(id)
    } else {
        id
    }
}

// A copy of what stands behind WITH.
pub(crate) fn copy_of<'c>(
    alloc: Global,
    addition: &Option<AdditionItem<'c>>,
) -> Result<Option<AdditionItem<'c>>, AllocError>
    ensures { IfOk result (λ copy.
        option_map addition_of copy ≡ option_map addition_of addition.now) }
{
    match addition {
        Some(addition) => Ok(Some(addition.try_clone(alloc)?)),
        None => Ok(None),
    }
}

// The licence and its addition, with what succeeds the licence in its place.
fn replaced<'c>(
    alloc: Global,
    id: LicenseId<'c>,
    addition: &Option<AdditionItem<'c>>,
    new: Option<Successor<'c>>,
) -> Result<(LicenseId<'c>, Option<AdditionItem<'c>>), AllocError>
    ensures { IfOk result (λ now. (id_row now.0, option_map addition_of now.1)
        ≡ spec.replaced (id_row id.entry) (option_map addition_of addition.now)
        (option_map shown.successor new.entry)) }
{
    let Some(new) = new else {
        return Ok((id, copy_of(alloc, addition)?));
    };
    match (addition, new.addition) {
        (Some(_), _) => Ok((new.license, copy_of(alloc, addition)?)),
        (None, Some(exception)) => Ok((new.license, Some(AdditionItem::Spdx(exception)))),
        (None, None) => Ok((new.license, None)),
    }
}

// An addition that is deprecated gives way to the one that succeeds it.
fn current<'c>(
    replacements: &Replacements<'c>,
    addition: Option<AdditionItem<'c>>,
) -> Option<AdditionItem<'c>>
    ensures { option_map addition_of result
        ≡ option_map (spec.current_addition replacements.now)
        (option_map addition_of addition.entry) }
{
    match addition {
        None => None,
        Some(AdditionItem::Spdx(id)) => Some(AdditionItem::Spdx(replacements.current_exception(
            id,
        ))),
        Some(AdditionItem::Other(reference)) => Some(AdditionItem::Other(reference)),
    }
}

// A licence, and whether its later versions are meant.
fn versions_from<'c>(catalogue: &'c Catalogue, id: LicenseId<'c>, mark: bool) -> LicenseItem<'c>
    ensures { license_of result ≡ spec.versions_from catalogue.now (id_row id.entry) mark }
{
    match only_twin(catalogue, id) {
        Some(only) => LicenseItem::Spdx {
            id: only,
            or_later: true,
        },
        None => LicenseItem::Spdx {
            id,
            or_later: allows_later(id, mark),
        },
    }
}

// Of a GNU licence that ends in `-or-later` the one that is listed with `-only`.
fn only_twin<'c>(catalogue: &'c Catalogue, id: LicenseId<'c>) -> Option<LicenseId<'c>>
    ensures { option_map id_row result ≡ spec.only_twin catalogue.now (id_row id.entry) }
{
    if !id.is_gnu() {
        return None;
    }
    let front = without_or_later(id.license().name.as_str())?;
    catalogue.gnu_license_id(front, false)
}

// What stands before a final `-or-later`.
fn without_or_later(name: &str) -> Option<&str>
    ensures { option_copied result ≡ endings.without endings.or_later name.now }
{
    if name.as_bytes().ends_with(b"-or-later") {
        Some(&name[..name.len() - 9])
    } else {
        None
    }
}

impl<'c> Replacements<'c> {
    // What succeeds a licence that is deprecated.
    fn succeeds(&self, id: LicenseId<'c>) -> Option<Successor<'c>>
        ensures { option_map shown.successor result ≡ spec.succeeds self.now (id_row id.entry) }
    {
        if !id.is_deprecated() {
            return None;
        }
        self.successor_of(id)
    }

    // What succeeds a licence, by the first row that says it.
    fn successor_of(&self, id: LicenseId<'c>) -> Option<Successor<'c>>
        ensures { option_map shown.successor result
            ≡ stated.successor_of self.now (id_row id.entry) }
    {
        for row in &self.rows {
            if let KnownReplacement::License(old, new) = row
                && *old == id
            {
                return Some(*new);
            }
        }
        None
    }

    // An exception that is deprecated gives way to the one that succeeds it.
    fn current_exception(&self, id: ExceptionId<'c>) -> ExceptionId<'c>
        ensures { exception_row result
            ≡ spec.current_exception self.now (exception_row id.entry) }
    {
        if !id.is_deprecated() {
            return id;
        }
        self.exception_replacement(id).unwrap_or(id)
    }

    // The exception that succeeds an exception, by the first row that says it.
    fn exception_replacement(&self, id: ExceptionId<'c>) -> Option<ExceptionId<'c>>
        ensures { option_map exception_row result
            ≡ stated.exception_replacement self.now (exception_row id.entry) }
    {
        for row in &self.rows {
            if let KnownReplacement::Exception(old, new) = row
                && *old == id
            {
                return Some(*new);
            }
        }
        None
    }
}
