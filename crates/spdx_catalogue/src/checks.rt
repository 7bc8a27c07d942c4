// The rules of the rows.

ghost use Rattle.std.specs.Prelude.{◌≡◌, ◌+◌, ◌<◌, ◌≤◌, option_map, is_some, length, map, slice_get};
ghost use Rattle.spdx_catalogue.specs.LookUps.{listed};
ghost use Rattle.spdx_catalogue.specs.CatalogueModel.{IsLicenseIndex};
ghost use Rattle.std.specs.Option.{option_copied};
ghost use Rattle.spdx_requirement.specs.Rows.{row_of, exception_of, imprecise_of};
ghost use Rattle.spdx_catalogue.specs.RowRules.{imprecise_row_rules, first_fault};
ghost use Rattle.spdx_catalogue.specs.RowChecks.{first_broken, rules_at, imprecise_rules, all_below, before};

use crate::error::CatalogueError;
use crate::halving::row_at;
use crate::index::{Index, license_named};
use crate::row::Row;
use spdx_requirement::row::{Exception, ImpreciseName, License};

fn row_before<R: Row>(rows: &[R], row: usize) -> Option<&R>
    ensures { option_map R.shown (option_copied result) ≡ before (map R.shown rows.now) row }
{
    if row == 0 {
        None
    } else {
        row_at(rows, row - 1)
    }
}

fn row_fault<R: Row>(rows: &[R], row: usize) -> Option<CatalogueError>
    ensures { result ≡ first_broken (rules_at R.name_of R.rules (map R.shown rows.now) row) }
{
    let here = row_at(rows, row)?;
    let previous = row_before(rows, row).map(|r| r.name());
    here.fault(previous, row)
}

fn rows_fault<R: Row>(rows: &[R]) -> Option<CatalogueError>
    ensures { result ≡ first_broken
        (all_below (rules_at R.name_of R.rules (map R.shown rows.now)) (length rows.now)) }
{
    for row in 0..rows.len() {
        match row_fault(rows, row) {
            Some(fault) => return Some(fault),
            None => {}
        }
    }
    None
}

fn is_listed(rows: &[License], index: &Option<Index>, name: &str) -> bool
    requires { IsLicenseIndex rows.now index.now }
    ensures { result ≡ is_some (listed (map row_of rows.now) name.now) }
{
    license_named(rows, index, name.as_bytes()).is_some()
}

fn imprecise_row_fault(
    licenses: &[License],
    index: &Option<Index>,
    name: &ImpreciseName,
    row: usize,
) -> Option<CatalogueError>
    requires { IsLicenseIndex licenses.now index.now }
    ensures { result ≡ first_broken
        (imprecise_row_rules (map row_of licenses.now) row (imprecise_of name.now)) }
{
    if name.prefix.as_str().is_empty() {
        return Some(CatalogueError::EmptyPrefix(row));
    }
    if !is_listed(licenses, index, name.name.as_str()) {
        return Some(CatalogueError::UnlistedTarget(row));
    }
    None
}

fn imprecise_fault(
    licenses: &[License],
    index: &Option<Index>,
    rows: &[ImpreciseName],
    row: usize,
) -> Option<CatalogueError>
    requires { IsLicenseIndex licenses.now index.now }
    ensures { result ≡ first_broken
        (imprecise_rules (map row_of licenses.now) (map imprecise_of rows.now) row) }
{
    imprecise_row_fault(licenses, index, rows.get(row)?, row)
}

fn imprecises_fault(
    licenses: &[License],
    index: &Option<Index>,
    rows: &[ImpreciseName],
) -> Option<CatalogueError>
    requires { IsLicenseIndex licenses.now index.now }
    ensures { result ≡ first_broken
        (all_below (imprecise_rules (map row_of licenses.now) (map imprecise_of rows.now))
        (length rows.now)) }
{
    for row in 0..rows.len() {
        match imprecise_fault(licenses, index, rows, row) {
            Some(fault) => return Some(fault),
            None => {}
        }
    }
    None
}

/// The rule that is broken first: by list, then row, then rule. The index is of the licences.
pub(crate) fn first_fault(
    version: &str,
    licenses: &[License],
    index: &Option<Index>,
    exceptions: &[Exception],
    imprecise: &[ImpreciseName],
) -> Option<CatalogueError>
    requires { IsLicenseIndex licenses.now index.now }
    ensures { result
        ≡ first_fault (record {
          version = version.now;
          licenses = map row_of licenses.now;
          exceptions = map exception_of exceptions.now;
          imprecise = map imprecise_of imprecise.now;
        }) }
{
    match rows_fault(licenses) {
        Some(fault) => Some(fault),
        None => match rows_fault(exceptions) {
            Some(fault) => Some(fault),
            None => imprecises_fault(licenses, index, imprecise),
        },
    }
}
