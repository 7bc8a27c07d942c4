//! What stands in the place of names that are deprecated.

ghost use Rattle.std.specs.Prelude.{◌≡◌, [], IfOk, map, option_map};
ghost use Rattle.std.specs.List.{AllZip};
ghost use Rattle.spdx_requirement.specs.Items.{requirement_of};
ghost use Rattle.spdx_licensee.specs.Replacements as spec;
ghost use Rattle.spdx_licensee.specs.Replacements.{IsReplacementOf};
ghost use Rattle.spdx_licensee.specs.Shown as shown;

use crate::licensee::Licensee;
use spdx_catalogue::{
    AdditionItem, Catalogue, ExceptionId, Failure, LicenseId, LicenseItem, LicenseReq,
};
use std::alloc::{AllocError, Global};
use std::marker::Model;

/// A name, and what to write in its place.
#[derive(Clone, Copy, Debug)]
pub struct ReplacedName<'t> {
    /// The deprecated name, as `GPL-2.0-with-classpath-exception`.
    pub name: &'t str,
    /// What says the same, as `GPL-2.0-only WITH Classpath-exception-2.0`.
    pub write: &'t str,
}

/// A licence, perhaps with an exception.
#[derive(Clone, Copy, Debug)]
pub struct Successor<'c> {
    pub(crate) license: LicenseId<'c>,
    pub(crate) addition: Option<ExceptionId<'c>>,
}

// What a row says.
#[derive(Drop)]
pub(crate) enum KnownReplacement<'c> {
    License(LicenseId<'c>, Successor<'c>),
    Exception(ExceptionId<'c>, ExceptionId<'c>),
    Nothing,
}

/// What stands in the place of deprecated names, as the rows of a list say it.
#[derive(Drop)]
pub struct Replacements<'c> {
    pub(crate) rows: Vec<KnownReplacement<'c>>,
}

impl<'c> Model for Replacements<'c> {
    ghost use Rattle.std.specs.Prelude.{List};
    ghost use Rattle.spdx_licensee.specs.Replacements.{KnownReplacement};
    ghost use Rattle.spdx_licensee.specs.ReplacementsModel.{replacements_shown};

    ghost Value = { List KnownReplacement };

    ghost view = { replacements_shown };
}

impl<'c> Replacements<'c> {
    /// No name has a replacement. Takes no memory.
    pub fn new(alloc: Global) -> Replacements<'c>
        ensures { result ≡ [] }
    {
        Replacements {
            rows: Vec::new(alloc),
        }
    }

    /// What the rows say by the catalogue. A row whose name is a listed licence says what succeeds it:
    /// the licence, perhaps with an exception, that its other text names as a licensee. One whose name
    /// is a listed exception says which exception succeeds it. Any other row says nothing, so rows may
    /// serve several versions of a list.
    ///
    /// # Errors
    ///
    /// Memory was refused.
    pub fn of_rows(
        alloc: Global,
        catalogue: &'c Catalogue,
        names: &[ReplacedName<'_>],
    ) -> Result<Replacements<'c>, AllocError>
        ensures { IfOk result (λ replacements.
            AllZip (IsReplacementOf catalogue.now) (map shown.replaced_name names.now)
            replacements) }
    {
        let mut rows = Vec::new(alloc);
        for row in names {
            rows.push(replacement_of(alloc, catalogue, row)?)?;
        }
        Ok(Replacements { rows })
    }
}

// What a row says.
fn replacement_of<'c>(
    alloc: Global,
    catalogue: &'c Catalogue,
    row: &ReplacedName<'_>,
) -> Result<KnownReplacement<'c>, AllocError>
    ensures { IfOk result (λ replacement.
        IsReplacementOf catalogue.now (shown.replaced_name row.now)
        (shown.replacement_shown replacement)) }
{
    if let Some((old, new)) = license_in(alloc, catalogue, row)? {
        return Ok(KnownReplacement::License(old, new));
    }
    match exception_in(catalogue, row) {
        Some((old, new)) => Ok(KnownReplacement::Exception(old, new)),
        None => Ok(KnownReplacement::Nothing),
    }
}

// Which licence a row replaces, and how.
fn license_in<'c>(
    alloc: Global,
    catalogue: &'c Catalogue,
    row: &ReplacedName<'_>,
) -> Result<Option<(LicenseId<'c>, Successor<'c>)>, AllocError>
    ensures { IfOk result (λ found. spec.IsLicenseIn catalogue.now (shown.replaced_name row.now)
        (option_map shown.license_pair found)) }
{
    let Some(old) = catalogue.license_id(row.name) else {
        return Ok(None);
    };
    match successor_in(alloc, catalogue, row.write)? {
        Some(new) => Ok(Some((old, new))),
        None => Ok(None),
    }
}

// Which exception a row replaces, and by which.
fn exception_in<'c>(
    catalogue: &'c Catalogue,
    row: &ReplacedName<'_>,
) -> Option<(ExceptionId<'c>, ExceptionId<'c>)>
    ensures { spec.IsExceptionIn catalogue.now (shown.replaced_name row.now)
        (option_map shown.exception_pair result) }
{
    let old = catalogue.exception_id(row.name)?;
    let new = catalogue.exception_id(row.write)?;
    Some((old, new))
}

// The licence, perhaps with an exception, that a text names as a licensee.
fn successor_in<'c>(
    alloc: Global,
    catalogue: &'c Catalogue,
    text: &str,
) -> Result<Option<Successor<'c>>, AllocError>
    ensures { IfOk result (λ found.
        spec.IsSuccessorIn catalogue.now text.now (option_map shown.successor found)) }
{
    match Licensee::parse(alloc, catalogue, text) {
        Ok(licensee) => Ok(successor_of(licensee.into_req())),
        Err(Failure::Memory(error)) => Err(error),
        Err(Failure::Refused(_)) => Ok(None),
    }
}

// A requirement of a listed licence without a mark, perhaps with a listed exception.
fn successor_of<'c>(req: LicenseReq<'c>) -> Option<Successor<'c>>
    ensures { spec.IsSuccessor (requirement_of req.entry) (option_map shown.successor result) }
{
    let LicenseItem::Spdx {
        id,
        or_later: false,
    } = req.license
    else {
        return None;
    };
    match req.addition {
        None => Some(Successor {
            license: id,
            addition: None,
        }),
        Some(AdditionItem::Spdx(exception)) => Some(Successor {
            license: id,
            addition: Some(exception),
        }),
        Some(AdditionItem::Other(_)) => None,
    }
}
