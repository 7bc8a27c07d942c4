// License tags.

ghost use Rattle.std.specs.Prelude.{◌≡◌, IfOk, map};
ghost use Rattle.check_sources.specs.Findings.{ChecksWritten};
ghost use Rattle.check_sources.specs.Stood.{source_of, stood};
ghost use Rattle.check_sources.specs.Tags.{is_binary, tagged, tagged_at};

use crate::findings::written::{Written, slice_in};
use crate::findings::{Findings, Source, findings_of};
use license_tags::{Tag, comment_of, tags};
use spdx_check::Check;
use std::alloc::{AllocError, Global};

/// Whether the bytes are no text: a byte 0 stands among the first 8,192.
pub fn is_binary(bytes: &[u8]) -> bool
    ensures { result ≡ is_binary bytes.now }
{
    bytes.iter().take(8192).any(|byte| *byte == 0)
}

/// What is wrong with the expressions behind the license tags of a file, those that `license_tags::tags` gives of a file of
/// that path: each is told at its line and column, with its line and carets under the fault. Bytes that are no text, as
/// `is_binary` has it, have no tags. `is_first` says that no finding stands before these, which counts in SARIF alone.
///
/// Linear in the file, but for its refused expressions, each of which costs what `spdx_check::refusal_of` does.
///
/// # Errors
///
/// Memory was refused.
pub fn check_tags(
    alloc: Global,
    check: &Check<'_>,
    is_first: bool,
    source: Source<'_>,
) -> Result<Findings, AllocError>
    ensures { IfOk result (λ found. ChecksWritten check.now is_first (source_of source.entry)
        (tagged (source_of source.entry)) found.text.items found.summary) }
{
    let all = tagged(alloc, source)?;
    findings_of(alloc, check, is_first, source, &all)
}

// The expressions behind the tags of a file.
fn tagged<'f>(alloc: Global, source: Source<'f>) -> Result<Vec<Written<'f>>, AllocError>
    ensures { IfOk result (λ all. map stood all.items ≡ tagged (source_of source.entry)) }
{
    let mut all = Vec::new(alloc);
    if is_binary(source.bytes) {
        return Ok(all);
    }
    for tag in tags(alloc, source.bytes, comment_of(source.path))? {
        all.push(tagged_at(source.bytes, tag))?;
    }
    Ok(all)
}

// The expression behind a tag.
fn tagged_at(bytes: &[u8], tag: Tag) -> Written<'_>
    ensures { stood result ≡ tagged_at bytes.now tag }
{
    Written {
        start: tag.start,
        end: tag.end,
        text: slice_in(bytes, tag.start, tag.end),
    }
}
