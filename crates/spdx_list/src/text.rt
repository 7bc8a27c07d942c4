// Tables written as JSON.

ghost use Rattle.std.specs.Prelude.{◌≡◌, Bool, true, Ok, IfOk, IfErr, map, option_map, string_bytes};
ghost use Rattle.std.specs.List.{list_all};
ghost use Rattle.serde_json.specs.Data.{Data};
ghost use Rattle.serde_json.specs.View.{view};
ghost use Rattle.spdx_requirement.specs.Rows.{LicenseRow, ExceptionRow, ImpreciseRow, row_of, exception_of, imprecise_of};
ghost use Rattle.spdx_tables.specs.TableReading.{date_in, rows_of, tables_in};
ghost use Rattle.spdx_tables.specs.Places.{renumbered};
ghost use Rattle.spdx_tables.specs.Written.{license_data, exception_data, imprecise_data, tables_data, license_fits, exception_fits, imprecise_fits, Fit};
ghost use Rattle.spdx_list.specs.Made.{IsRefused, IsTextOf};
ghost use Rattle.spdx_requirement.specs.Failures.{IfRefused};
ghost use Rattle.spdx_list.specs.Shown.{shown_extras};

use crate::date::release_date;
use crate::error::ListFault;
use crate::extras::Extras;
use crate::tables::tables_of;
use serde_json::{Value, json};
use spdx_catalogue::Catalogue;
use spdx_requirement::failure::Failure;
use spdx_requirement::row::{Exception, ImpreciseName, License};
use spdx_tables::Tables;
use std::alloc::{AllocError, Global};

/// A row that is written as a JSON object.
trait Written: Drop {
    ghost Shown: { Type 0 };

    ghost shown: { Self → Shown };

    ghost as_data: { Shown → Data };

    ghost fits: { Shown → Bool };

    fn value(&self, alloc: Global) -> Result<Value, AllocError>
        ensures value { IfOk result (λ v. view v ≡ as_data (shown self.now)) }
        ensures fit { fits (shown self.now) ≡ true };
}

impl Written for License {
    ghost Shown = { LicenseRow };

    ghost shown = { row_of };

    ghost as_data = { license_data };

    ghost fits = { license_fits };

    fn value(&self, alloc: Global) -> Result<Value, AllocError> {
        let name = self.name.as_str();
        let full_name = self.full_name.as_str();
        let flags = self.flags;
        json!(in alloc; {"flags": flags, "full_name": full_name, "name": name})
    }
}

impl Written for Exception {
    ghost Shown = { ExceptionRow };

    ghost shown = { exception_of };

    ghost as_data = { exception_data };

    ghost fits = { exception_fits };

    fn value(&self, alloc: Global) -> Result<Value, AllocError> {
        let name = self.name.as_str();
        let flags = self.flags;
        json!(in alloc; {"flags": flags, "name": name})
    }
}

impl Written for ImpreciseName {
    ghost Shown = { ImpreciseRow };

    ghost shown = { imprecise_of };

    ghost as_data = { imprecise_data };

    ghost fits = { imprecise_fits };

    fn value(&self, alloc: Global) -> Result<Value, AllocError> {
        let prefix = self.prefix.as_str();
        let name = self.name.as_str();
        json!(in alloc; {"name": name, "prefix": prefix})
    }
}

fn values_of<R: Written>(alloc: Global, rows: &[R]) -> Result<Vec<Value>, AllocError>
    ensures values { IfOk result (λ v. map view v.items ≡ map R.as_data (map R.shown rows.now)) }
    ensures fit { IfOk result (λ _. list_all R.fits (map R.shown rows.now) ≡ true) }
{
    let mut values = Vec::new(alloc);
    for row in rows {
        let value = row.value(alloc)?;
        values.push(value)?;
    }
    Ok(values)
}

fn value_of(alloc: Global, tables: &Tables, date: &Option<String>) -> Result<Value, AllocError>
    ensures value { IfOk result (λ v.
        view v ≡ tables_data (rows_of tables.now) (option_map string_bytes date.now)) }
    ensures fit { IfOk result (λ _. Fit (rows_of tables.now)) }
{
    let exceptions = values_of(alloc, &tables.exceptions)?;
    let imprecise = values_of(alloc, &tables.imprecise)?;
    let licenses = values_of(alloc, &tables.licenses)?;
    let version = tables.version.as_str();
    match date {
        Some(date) => {
            let date = date.as_str();
            json!(in alloc; {
                "exceptions": exceptions, "imprecise": imprecise, "licenses": licenses,
                "version": version, "version_date": date
            })
        }
        None => json!(in alloc; {
            "exceptions": exceptions, "imprecise": imprecise, "licenses": licenses,
            "version": version
        }),
    }
}

/// The tables as JSON, as `Tables::from_json` reads them: the same rows, each with its place as its
/// index; and the date of their version, as `version_date` reads it.
pub fn text_of(alloc: Global, tables: &Tables, date: &Option<String>) -> Result<String, AllocError>
    ensures tables { IfOk result (λ text.
        tables_in (string_bytes text) ≡ Ok (renumbered (rows_of tables.now))) }
    ensures date { IfOk result (λ text.
        date_in (string_bytes text) ≡ option_map string_bytes date.now) }
{
    let value = value_of(alloc, tables, date)?;
    value.to_string_pretty(alloc)
}

/// The catalogue that SPDX's files make, as JSON: `Catalogue::from_json` reads it back as the
/// catalogue that `catalogue_of` makes of them, and `version_date` the day on which the licences were
/// released, if they tell it.
///
/// # Errors
///
/// Those of `catalogue_of`.
pub fn list_text(
    alloc: Global,
    licenses: &[u8],
    exceptions: &[u8],
    extras: &Extras,
) -> Result<String, Failure<ListFault>>
    ensures ok { IfOk result (λ text.
        IsTextOf licenses.now exceptions.now (shown_extras extras.now) (string_bytes text)) }
    ensures err { IfErr result (IfRefused (
        IsRefused licenses.now exceptions.now (shown_extras extras.now))) }
{
    let tables = tables_of(alloc, licenses, exceptions, extras)?;
    let date = release_date(alloc, licenses)?;
    let text = text_of(alloc, &tables, &date)?;
    match Catalogue::new(
        tables.version,
        tables.licenses,
        tables.exceptions,
        tables.imprecise,
    ) {
        Ok(_catalogue) => Ok(text),
        Err(fault) => Err(Failure::Refused(ListFault::Catalogue(fault))),
    }
}
