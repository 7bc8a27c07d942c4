// The findings of a file.

ghost use Rattle.std.specs.Prelude.{◌≡◌, ◌+◌, ◌++◌, ◌<◌, ◌^◌, ◌&&◌, not, IfOk, length, map};
ghost use Rattle.spdx_check.specs.Checking.{replacements_in};
ghost use Rattle.spdx_check.specs.Found.{finding_of};
ghost use Rattle.check_sources.specs.Findings.{ChecksWritten, findings_text, refused_count};
ghost use Rattle.check_sources.specs.Stood.{source_of, stood};

pub(crate) mod declared;
pub(crate) mod tags;
pub(crate) mod written;

use crate::cursor::Cursor;
use crate::findings::written::{Written, put_written};
use line_engine::lines::Summary;
use spdx_check::Check;
use std::alloc::{AllocError, Global};

/// A file whose expressions are checked: how it is told, and its bytes.
#[derive(Clone, Copy, Debug)]
pub struct Source<'f> {
    pub path: &'f str,
    pub bytes: &'f [u8],
}

/// What is written of the expressions of a file, and how many they are and are refused.
#[derive(Drop, Debug)]
pub struct Findings {
    pub text: Vec<u8>,
    pub summary: Summary,
}

/// The findings of these expressions of a file.
pub(crate) fn findings_of(
    alloc: Global,
    check: &Check<'_>,
    is_first: bool,
    source: Source<'_>,
    all: &[Written<'_>],
) -> Result<Findings, AllocError>
    ensures { IfOk result (λ found. ChecksWritten check.now is_first (source_of source.entry)
        (map stood all.now) found.text.items found.summary) }
{
    let mut text = Vec::new(alloc);
    let mut cursor = Cursor::new(source.bytes);
    let mut refused: usize = 0;
    for written in all {
        let is_first = is_first && refused == 0;
        if put_written(
            alloc,
            check,
            is_first,
            source,
            &mut cursor,
            *written,
            &mut text,
        )? {
            refused += 1;
        }
    }
    Ok(Findings {
        text,
        summary: Summary {
            lines: all.len() as u64,
            refused: refused as u64,
        },
    })
}
