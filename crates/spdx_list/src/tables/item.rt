// Rows, each an item of a JSON array.

ghost use Rattle.std.specs.Prelude.{◌≡◌, List, ℕ, Result, Ok, Err, IfOk, IfErr, map, string_bytes};
ghost use Rattle.serde_json.specs.Data.{Data};
ghost use Rattle.serde_json.specs.View.{view, items_view};
ghost use Rattle.spdx_requirement.specs.Failures.{IfRefused};
ghost use Rattle.spdx_requirement.specs.Rows.{ExceptionRow, ImpreciseRow, exception_of, imprecise_of};
ghost use Rattle.spdx_list.specs.declared.error.Member.{Member};
ghost use Rattle.spdx_list.specs.Files as spec;
ghost use Rattle.spdx_list.specs.Items.{rows_from, rows_at};
ghost use Rattle.spdx_list.specs.Shown.{entry_of, shown_replacement};

use crate::error::{ListFault, Member, Table};
use crate::extras::Replacement;
use crate::json::{flag_at, items_at, text_at};
use crate::names::exception_flags;
use serde_json::Value;
use spdx_requirement::failure::Failure;
use spdx_requirement::row::{Exception, ImpreciseName};
use std::alloc::Global;

/// What SPDX's file states of a licence.
#[derive(Drop)]
pub(crate) struct Entry {
    pub name: String,
    pub full_name: String,
    pub fsf_libre: bool,
    pub osi_approved: bool,
    pub deprecated: bool,
}

/// A row that an item of an array is.
pub(crate) trait Item: Drop {
    ghost Shown: { Type 0 };

    ghost shown: { Self → Shown };

    ghost reads: { Data → Result Shown Member };

    /// The row that the value is, or the first member that it lacks.
    fn read(alloc: Global, value: &Value) -> Result<Self, Failure<Member>>
        ensures ok { IfOk result (λ r. reads (view value.now) ≡ Ok (shown r)) }
        ensures err { IfErr result (IfRefused (λ m. reads (view value.now) ≡ Err m)) };
}

impl Item for Entry {
    ghost Shown = { spec.EntryRow };

    ghost shown = { entry_of };

    ghost reads = { spec.entry_row };

    fn read(alloc: Global, value: &Value) -> Result<Entry, Failure<Member>> {
        let Some(name) = text_at(value, "licenseId") else {
            return Err(Failure::Refused(Member::LicenseId));
        };
        let Some(full_name) = text_at(value, "name") else {
            return Err(Failure::Refused(Member::Name));
        };
        let Some(fsf_libre) = flag_at(value, "isFsfLibre") else {
            return Err(Failure::Refused(Member::FsfLibre));
        };
        let Some(osi_approved) = flag_at(value, "isOsiApproved") else {
            return Err(Failure::Refused(Member::OsiApproved));
        };
        let Some(deprecated) = flag_at(value, "isDeprecatedLicenseId") else {
            return Err(Failure::Refused(Member::Deprecated));
        };
        Ok(Entry {
            name: String::from_str(alloc, name)?,
            full_name: String::from_str(alloc, full_name)?,
            fsf_libre,
            osi_approved,
            deprecated,
        })
    }
}

impl Item for Exception {
    ghost Shown = { ExceptionRow };

    ghost shown = { exception_of };

    ghost reads = { spec.exception_row };

    // Its place is not known yet.
    fn read(alloc: Global, value: &Value) -> Result<Exception, Failure<Member>> {
        let Some(name) = text_at(value, "licenseExceptionId") else {
            return Err(Failure::Refused(Member::ExceptionId));
        };
        let Some(deprecated) = flag_at(value, "isDeprecatedLicenseId") else {
            return Err(Failure::Refused(Member::Deprecated));
        };
        Ok(Exception {
            name: String::from_str(alloc, name)?,
            index: 0,
            flags: exception_flags(deprecated),
        })
    }
}

impl Item for String {
    ghost Shown = { List ℕ };

    ghost shown = { string_bytes };

    ghost reads = { spec.copyleft_name };

    fn read(alloc: Global, value: &Value) -> Result<String, Failure<Member>> {
        let Some(name) = value.as_str() else {
            return Err(Failure::Refused(Member::Itself));
        };
        Ok(String::from_str(alloc, name)?)
    }
}

impl Item for ImpreciseName {
    ghost Shown = { ImpreciseRow };

    ghost shown = { imprecise_of };

    ghost reads = { spec.imprecise_row };

    fn read(alloc: Global, value: &Value) -> Result<ImpreciseName, Failure<Member>> {
        let Some(prefix) = text_at(value, "prefix") else {
            return Err(Failure::Refused(Member::Prefix));
        };
        let Some(name) = text_at(value, "name") else {
            return Err(Failure::Refused(Member::Name));
        };
        Ok(ImpreciseName {
            prefix: String::from_str(alloc, prefix)?,
            name: String::from_str(alloc, name)?,
        })
    }
}

impl Item for Replacement {
    ghost Shown = { spec.ReplacementRow };

    ghost shown = { shown_replacement };

    ghost reads = { spec.replacement_row };

    fn read(alloc: Global, value: &Value) -> Result<Replacement, Failure<Member>> {
        let Some(name) = text_at(value, "name") else {
            return Err(Failure::Refused(Member::Name));
        };
        let Some(write) = text_at(value, "write") else {
            return Err(Failure::Refused(Member::Write));
        };
        Ok(Replacement {
            name: String::from_str(alloc, name)?,
            write: String::from_str(alloc, write)?,
        })
    }
}

// The rows that the items of a table are, if each of them is one.
fn items_of<R: Item>(
    alloc: Global,
    table: Table,
    items: &Vec<Value>,
) -> Result<Vec<R>, Failure<ListFault>>
    ensures ok { IfOk result (λ rows. rows_from R.reads table 0 (items_view items.now.items)
        ≡ Ok (map R.shown rows.items)) }
    ensures err { IfErr result (IfRefused (λ f.
        rows_from R.reads table 0 (items_view items.now.items) ≡ Err f)) }
{
    let mut rows = Vec::new(alloc);
    for (index, item) in items.iter().enumerate() {
        match R::read(alloc, item) {
            Ok(row) => rows.push(row)?,
            Err(Failure::Refused(member)) => {
                return Err(Failure::Refused(ListFault::Item(table, index, member)));
            }
            Err(Failure::Memory(error)) => return Err(Failure::Memory(error)),
        }
    }
    Ok(rows)
}

/// The rows of the table at a key.
pub(crate) fn table_at<R: Item>(
    alloc: Global,
    value: &Value,
    table: Table,
    key: &str,
) -> Result<Vec<R>, Failure<ListFault>>
    ensures ok { IfOk result (λ rows. rows_at R.reads table key.now (view value.now)
        ≡ Ok (map R.shown rows.items)) }
    ensures err { IfErr result (IfRefused (λ f.
        rows_at R.reads table key.now (view value.now) ≡ Err f)) }
{
    match items_at(value, key) {
        Some(items) => items_of(alloc, table, items),
        None => Err(Failure::Refused(ListFault::NoTable(table))),
    }
}
