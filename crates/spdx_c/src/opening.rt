// What a call is given: the number of a mode, and the bytes of a list.

ghost use Rattle.std.specs.Prelude.{◌≡◌, IfOk, IfErr, Ok, Some};
ghost use Rattle.spdx_catalogue.specs.Reading.{catalogue_in};
ghost use Rattle.spdx_c.specs.Modes as spec;
ghost use Rattle.spdx_c.specs.Modes.{IsUnopened};

use crate::report::{LIST, MEMORY, Report, plain};
use spdx::{Catalogue, Failure, ParseMode};
use spdx_lines::LineMode;
use std::alloc::Global;

pub(crate) fn mode_of(number: u32) -> Option<ParseMode>
    ensures { result ≡ spec.mode_of number }
{
    match number {
        0 => Some(ParseMode::STRICT),
        1 => Some(ParseMode::LAX),
        _ => None,
    }
}

pub(crate) fn line_mode_of(number: u32) -> Option<LineMode>
    ensures { result ≡ spec.line_mode_of number }
{
    match number {
        0 => Some(LineMode::Strict),
        1 => Some(LineMode::Lax),
        2 => Some(LineMode::Normal),
        _ => None,
    }
}

/// The list that these bytes are.
pub(crate) fn read(alloc: Global, list: &[u8]) -> Result<Box<Catalogue, Global>, Report>
    ensures ok { IfOk result (λ catalogue. catalogue_in list.now ≡ Ok catalogue.value) }
    ensures err { IfErr result (IsUnopened list.now) }
{
    match Catalogue::from_json(alloc, list) {
        Ok(catalogue) => match Box::new(alloc, catalogue) {
            Ok(catalogue) => Ok(catalogue),
            Err(_) => Err(plain(MEMORY)),
        },
        Err(Failure::Refused(_)) => Err(plain(LIST)),
        Err(Failure::Memory(_)) => Err(plain(MEMORY)),
    }
}
