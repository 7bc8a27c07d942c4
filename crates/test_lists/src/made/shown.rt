// Tables and faults as the rows write them.

use spdx_list::ListFault;
use spdx_requirement::row::{Exception, ImpreciseName, License};
use spdx_tables::Tables;
use std::alloc::{AllocError, Global};

pub(super) fn fault_text(alloc: Global, fault: ListFault) -> Result<String, AllocError> {
    format!(in alloc; "fault: {fault}")
}

/// What `Rows` has of these tables.
pub(super) fn tables_text(alloc: Global, tables: &Tables) -> Result<String, AllocError> {
    rows_text(
        alloc,
        Rows {
            version: tables.version.as_str(),
            licenses: &tables.licenses,
            exceptions: &tables.exceptions,
            imprecise: &tables.imprecise,
        },
    )
}

/// The rows of a list.
#[derive(Clone, Copy)]
pub(crate) struct Rows<'t> {
    pub(crate) version: &'t str,
    pub(crate) licenses: &'t [License],
    pub(crate) exceptions: &'t [Exception],
    pub(crate) imprecise: &'t [ImpreciseName],
}

/// `VERSION; NAME@INDEX=FLAGS FULL NAME, ..; NAME@INDEX=FLAGS, ..; PREFIX>NAME, ..`
pub(crate) fn rows_text(alloc: Global, rows: Rows<'_>) -> Result<String, AllocError> {
    let mut text = String::from_str(alloc, rows.version)?;
    let mut before = "; ";
    for row in rows.licenses {
        let (name, full_name) = (row.name.as_str(), row.full_name.as_str());
        let (index, flags) = (row.index, row.flags);
        write!(text, "{before}{name}@{index}={flags} {full_name}")?;
        before = ", ";
    }
    before = "; ";
    for row in rows.exceptions {
        let (name, index, flags) = (row.name.as_str(), row.index, row.flags);
        write!(text, "{before}{name}@{index}={flags}")?;
        before = ", ";
    }
    before = "; ";
    for row in rows.imprecise {
        let (prefix, name) = (row.prefix.as_str(), row.name.as_str());
        write!(text, "{before}{prefix}>{name}")?;
        before = ", ";
    }
    Ok(text)
}
