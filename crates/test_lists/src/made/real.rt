// The real list, made of files in SPDX's form.

use crate::made::shown::{fault_text, tables_text};
use spdx_catalogue::Failure;
use spdx_known::{EXTRAS, LIST};
use spdx_list::{Extras, ListFault, list_text, tables_of};
use spdx_tables::Tables;
use std::alloc::{AllocError, Global};

// The tables that the files make, and those that their text is read as; `None` where that is none.
fn made(
    alloc: Global,
    licenses: &[u8],
    exceptions: &[u8],
) -> Result<(Tables, Option<Tables>), Failure<ListFault>> {
    let extras = Extras::from_json(alloc, EXTRAS.as_bytes())?;
    let tables = tables_of(alloc, licenses, exceptions, &extras)?;
    let text = list_text(alloc, licenses, exceptions, &extras)?;
    Ok((tables, Tables::from_json(alloc, text.as_bytes()).ok()))
}

/// What became of the files: how many rows they make, and whether these are the rows of the list inside.
pub(crate) fn real(
    alloc: Global,
    licenses: &[u8],
    exceptions: &[u8],
) -> Result<String, AllocError> {
    let (tables, back) = match made(alloc, licenses, exceptions) {
        Ok(made) => made,
        Err(Failure::Refused(fault)) => return fault_text(alloc, fault),
        Err(Failure::Memory(error)) => return Err(error),
    };
    let (Some(back), Ok(list)) = (back, Tables::from_json(alloc, LIST.as_bytes())) else {
        return String::from_str(alloc, "not read back, or no list inside");
    };
    let text = tables_text(alloc, &tables)?;
    let is_list = tables_text(alloc, &list)? == text;
    let is_back = tables_text(alloc, &back)? == text;
    let counts = (tables.licenses.len(), tables.exceptions.len());
    let (licenses, exceptions) = counts;
    let imprecise = tables.imprecise.len();
    format!(in alloc;
        "{licenses} licences, {exceptions} exceptions, {imprecise} imprecise names; the list inside: {is_list}; read back: {is_back}"
    )
}
