// All names of a list.

ghost use Rattle.std.specs.Prelude.{◌≡◌, ◌++◌, IfOk, OnOk, flat_map, map, option_map, string_bytes};
ghost use Rattle.spdx_requirement.specs.Rows.{exception_name, exception_of, license_name, row_of};
ghost use Rattle.list_told.specs.Told as spec;

use spdx_catalogue::Catalogue;
use spdx_requirement::row::{Exception, License};
use std::alloc::{AllocError, Global};

// The version of the list with its day, where it is known, and each name of it, a line each.
#[tactic(auto, unfolding(crate::specs::Told::names_text))]
pub(crate) fn names_text(
    alloc: Global,
    catalogue: &Catalogue,
    day: &Option<String>,
) -> Result<Vec<u8>, AllocError>
    ensures { IfOk result (λ text. text.items
        ≡ spec.names_text catalogue.now (option_map string_bytes day.now)) }
{
    let mut text = Vec::new(alloc);
    text.extend_from_slice(b"SPDX license list ")?;
    text.extend_from_slice(catalogue.license_version().as_bytes())?;
    put_day(&mut text, day)?;
    text.extend_from_slice(b"\n")?;
    put_licenses(&mut text, catalogue.licenses())?;
    put_exceptions(&mut text, catalogue.exceptions())?;
    Ok(text)
}

fn put_day(text: &mut Vec<u8>, day: &Option<String>) -> Result<(), AllocError>
    ensures { OnOk result (text.new.items
        ≡ text.old.items ++ spec.day_text (option_map string_bytes day.now)) }
{
    match day {
        Some(day) => {
            text.extend_from_slice(b" of ")?;
            text.extend_from_slice(day.as_bytes())
        }
        None => Ok(()),
    }
}

fn put_licenses(text: &mut Vec<u8>, rows: &[License]) -> Result<(), AllocError>
    ensures { OnOk result (text.new.items ≡ text.old.items
        ++ flat_map spec.name_line (map license_name (map row_of rows.now))) }
{
    for row in rows {
        text.extend_from_slice(row.name.as_bytes())?;
        text.extend_from_slice(b"\n")?;
    }
    Ok(())
}

fn put_exceptions(text: &mut Vec<u8>, rows: &[Exception]) -> Result<(), AllocError>
    ensures { OnOk result (text.new.items ≡ text.old.items
        ++ flat_map spec.name_line (map exception_name (map exception_of rows.now))) }
{
    for row in rows {
        text.extend_from_slice(row.name.as_bytes())?;
        text.extend_from_slice(b"\n")?;
    }
    Ok(())
}
