// A list made of SPDX's files.

ghost use Rattle.std.specs.Prelude.{◌≡◌, Ok, Err, IfOk, IfErr, map, filter, string_bytes};
ghost use Rattle.serde_json.specs.View.{view};
ghost use Rattle.spdx_requirement.specs.Failures.{IfRefused};
ghost use Rattle.spdx_requirement.specs.Rows.{row_of, exception_of, imprecise_of};
ghost use Rattle.spdx_tables.specs.TableReading.{rows_of};
ghost use Rattle.spdx_list.specs.Files as spec;
ghost use Rattle.spdx_list.specs.Made.{IsInOrder, Makes, IsRefused};
ghost use Rattle.spdx_list.specs.Names.{Has};
ghost use Rattle.spdx_list.specs.FullNames.{ReadsFullNames};
ghost use Rattle.spdx_list.specs.Forms.{ReadsForms};
ghost use Rattle.spdx_list.specs.Shown.{entry_of, shown_stated, shown_extras};

pub(crate) mod item;
pub(crate) mod order;

use crate::error::{File, ListFault, Table};
use crate::extras::Extras;
use crate::forms::with_forms;
use crate::json::{text_at, value_of};
use crate::names::{ends_in_plus, is_gnu_name, license_flags};
use crate::tables::item::{Entry, table_at};
use crate::tables::order::in_order;
use serde_json::Value;
use spdx_catalogue::Catalogue;
use spdx_requirement::failure::Failure;
use spdx_requirement::row::{Exception, ImpreciseName, License};
use spdx_tables::Tables;
use std::alloc::{AllocError, Global};
use std::collections::BTreeSet;

// What SPDX's licences state.
#[derive(Drop)]
struct Stated {
    version: String,
    entries: Vec<Entry>,
}

fn stated_of(alloc: Global, value: &Value) -> Result<Stated, Failure<ListFault>>
    ensures ok { IfOk result (λ s. spec.stated_of (view value.now) ≡ Ok (shown_stated s)) }
    ensures err { IfErr result (IfRefused (λ f. spec.stated_of (view value.now) ≡ Err f)) }
{
    let Some(version) = text_at(value, "licenseListVersion") else {
        return Err(Failure::Refused(ListFault::NoVersion));
    };
    let entries = table_at(alloc, value, Table::Licenses, "licenses")?;
    Ok(Stated {
        version: String::from_str(alloc, version)?,
        entries,
    })
}

#[tactic(auto, unfolding(crate::specs::Files::stated_in))]
fn stated_in(alloc: Global, bytes: &[u8]) -> Result<Stated, Failure<ListFault>>
    ensures ok { IfOk result (λ s. spec.stated_in bytes.now ≡ Ok (shown_stated s)) }
    ensures err { IfErr result (IfRefused (λ f. spec.stated_in bytes.now ≡ Err f)) }
{
    let value = value_of(alloc, File::Licenses, bytes)?;
    stated_of(alloc, &value)
}

fn exceptions_of(alloc: Global, value: &Value) -> Result<Vec<Exception>, Failure<ListFault>>
    ensures ok { IfOk result (λ v.
        spec.exceptions_of (view value.now) ≡ Ok (map exception_of v.items)) }
    ensures err { IfErr result (IfRefused (λ f. spec.exceptions_of (view value.now) ≡ Err f)) }
{
    table_at(alloc, value, Table::Exceptions, "exceptions")
}

#[tactic(auto, unfolding(crate::specs::Files::exceptions_in))]
fn exceptions_in(alloc: Global, bytes: &[u8]) -> Result<Vec<Exception>, Failure<ListFault>>
    ensures ok { IfOk result (λ v. spec.exceptions_in bytes.now ≡ Ok (map exception_of v.items)) }
    ensures err { IfErr result (IfRefused (λ f. spec.exceptions_in bytes.now ≡ Err f)) }
{
    let value = value_of(alloc, File::Exceptions, bytes)?;
    exceptions_of(alloc, &value)
}

// The names, each once, to be looked up.
fn set_of(alloc: Global, names: &[String]) -> Result<BTreeSet<String>, AllocError>
    ensures { IfOk result (λ set. Has set (map string_bytes names.now)) }
{
    let mut set = BTreeSet::new(alloc);
    for name in names {
        set.insert(String::from_str(alloc, name.as_str())?)?;
    }
    Ok(set)
}

// The licence of an entry, whose place is not known yet.
fn license_of(entry: Entry, is_copyleft: bool) -> License
    ensures { row_of result ≡ spec.license_row is_copyleft (entry_of entry) }
{
    let flags = license_flags(
        entry.fsf_libre,
        entry.osi_approved,
        entry.deprecated,
        is_copyleft,
        is_gnu_name(entry.name.as_str()),
    );
    License {
        name: entry.name,
        full_name: entry.full_name,
        index: 0,
        flags,
    }
}

fn licenses_of(
    alloc: Global,
    entries: Vec<Entry>,
    copyleft: &[String],
) -> Result<Vec<License>, AllocError>
    ensures { IfOk result (λ rows. map row_of rows.items
        ≡ map (spec.license_of (map string_bytes copyleft.now))
        (filter spec.is_listed (map entry_of entries.items))) }
{
    let names = set_of(alloc, copyleft)?;
    let mut rows = Vec::new(alloc);
    for entry in entries {
        if !ends_in_plus(entry.name.as_str()) {
            let is_copyleft = names.contains(entry.name.as_str());
            rows.push(license_of(entry, is_copyleft))?;
        }
    }
    Ok(rows)
}

fn copies(alloc: Global, rows: &[ImpreciseName]) -> Result<Vec<ImpreciseName>, AllocError>
    ensures { IfOk result (λ v. map imprecise_of v.items ≡ map imprecise_of rows.now) }
{
    let mut copies = Vec::new(alloc);
    for row in rows {
        let prefix = String::from_str(alloc, row.prefix.as_str())?;
        let name = String::from_str(alloc, row.name.as_str())?;
        copies.push(ImpreciseName { prefix, name })?;
    }
    Ok(copies)
}

// The rows of the files, in their order there.
#[tactic(auto, unfolding(crate::specs::Files::gathered))]
fn gathered(
    alloc: Global,
    licenses: &[u8],
    exceptions: &[u8],
    extras: &Extras,
) -> Result<Tables, Failure<ListFault>>
    ensures ok { IfOk result (λ t.
        spec.gathered licenses.now exceptions.now (shown_extras extras.now) ≡ Ok (rows_of t)) }
    ensures err { IfErr result (IfRefused (λ f.
        spec.gathered licenses.now exceptions.now (shown_extras extras.now) ≡ Err f)) }
{
    let stated = stated_in(alloc, licenses)?;
    let exceptions = exceptions_in(alloc, exceptions)?;
    Ok(Tables {
        version: stated.version,
        licenses: licenses_of(alloc, stated.entries, &extras.copyleft)?,
        exceptions,
        imprecise: copies(alloc, &extras.imprecise)?,
    })
}

fn arranged(alloc: Global, tables: Tables) -> Result<Tables, AllocError>
    ensures { IfOk result (λ t. IsInOrder (rows_of tables) (rows_of t)) }
{
    let licenses = in_order(alloc, tables.licenses)?;
    let exceptions = in_order(alloc, tables.exceptions)?;
    let imprecise = with_forms(alloc, &licenses, &exceptions, tables.imprecise)?;
    Ok(Tables {
        version: tables.version,
        licenses,
        exceptions,
        imprecise,
    })
}

/// The tables that SPDX's files make: its licences but for those whose names end in `+`, and its
/// exceptions, in the order of their names, by bytes, whatever their order there. A flag is set
/// exactly where its member is true; one that is missing is false. The copyleft flag comes from the
/// extras, the GNU flag from the name: those that begin with `GPL-`, `LGPL-`, `AGPL-` or `GFDL-` have
/// it. Other keys are ignored, and numbers there may be floats; of a key that stands twice the last
/// value counts.
///
/// The imprecise names are full names of licences, in the order of these, behind them those of the
/// extras, and at last forms of full names: the version as `2.0` and as `v2.0`, with the word `License`
/// before it and without, and a full name without that word at the end. A full name or a form is left
/// out where its licence is deprecated, where it begins with the name of a listed licence or exception,
/// as `MIT License`, and where it begins the full name of another licence that isn't deprecated, or one
/// of the extras' imprecise names; a form, too, where it begins a form of another licence, or where one
/// of the names in front of it begins it.
///
/// # Errors
///
/// The first `ListFault` of the licences, else of the exceptions, or that memory was refused.
pub fn tables_of(
    alloc: Global,
    licenses: &[u8],
    exceptions: &[u8],
    extras: &Extras,
) -> Result<Tables, Failure<ListFault>>
    ensures ok { IfOk result (λ t.
        Makes licenses.now exceptions.now (shown_extras extras.now) (rows_of t)) }
    ensures err { IfErr result (IfRefused (λ f.
        spec.gathered licenses.now exceptions.now (shown_extras extras.now) ≡ Err f)) }
{
    let tables = gathered(alloc, licenses, exceptions, extras)?;
    Ok(arranged(alloc, tables)?)
}

/// The catalogue that SPDX's files make: that of `tables_of`. By its imprecise names each full name
/// that stands among them is its licence's, and so is each form of one; each of the extras' is what it
/// was, and so is any text that one of the names before the forms begins.
///
/// # Errors
///
/// Those of `tables_of`, else the first rule that the rows break, or that memory was refused.
pub fn catalogue_of(
    alloc: Global,
    licenses: &[u8],
    exceptions: &[u8],
    extras: &Extras,
) -> Result<Catalogue, Failure<ListFault>>
    ensures ok { IfOk result (λ c.
        Makes licenses.now exceptions.now (shown_extras extras.now) c) }
    ensures full { IfOk result (λ c. ReadsFullNames c.licenses c.exceptions
        (shown_extras extras.now).imprecise c.imprecise) }
    ensures forms { IfOk result (λ c. ReadsForms c.licenses c.exceptions
        (shown_extras extras.now).imprecise c.imprecise) }
    ensures err { IfErr result (IfRefused (
        IsRefused licenses.now exceptions.now (shown_extras extras.now))) }
{
    let tables = tables_of(alloc, licenses, exceptions, extras)?;
    match Catalogue::new(
        tables.version,
        tables.licenses,
        tables.exceptions,
        tables.imprecise,
    ) {
        Ok(catalogue) => Ok(catalogue),
        Err(fault) => Err(Failure::Refused(ListFault::Catalogue(fault))),
    }
}
