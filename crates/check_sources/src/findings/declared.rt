// Manifests.

ghost use Rattle.std.specs.Prelude.{◌≡◌, ◌+◌, ◌≤◌, IfOk, drop, length, map};
ghost use Rattle.std.specs.List.{prefix_len};
ghost use Rattle.check_sources.specs.Findings.{ChecksWritten};
ghost use Rattle.check_sources.specs.Manifests.{
  AreOrdered,
  ChecksManifest,
  continues,
  declared_at,
  fault_part,
  mode_in,
  reason_text,
  sites_in,
  told_of_file,
  told_whole,
};
ghost use Rattle.check_sources.specs.Stood.{part_of, source_of, stood};
ghost use Rattle.finding_forms.specs.Finding.{seen_of, told};
ghost use Rattle.finding_forms.specs.Forms.{finding_text};
ghost use Rattle.spdx_check.specs.Checking.{spot_of};

use crate::cursor::Cursor;
use crate::findings::written::{Part, Written, part_excerpt};
use crate::findings::{Findings, Source, findings_of};
use finding_forms::{Finding, Help, Place, Sight, put_finding};
use line_engine::lines::Summary;
use manifests::{Fault, Form, ManifestError, Reason, Site, reads_slash, sites};
use spdx_check::Check;
use spdx_lexer::token::ParseMode;
use std::alloc::{AllocError, Global};

/// How expressions are read in manifests of this form.
pub fn mode_in(form: Form, mode: ParseMode) -> ParseMode
    ensures { result ≡ mode_in form mode }
{
    ParseMode {
        allow_slash_as_or_operator: mode.allow_slash_as_or_operator || reads_slash(form),
        ..mode
    }
}

/// Why a file is no manifest, in words.
pub fn reason_text(reason: Reason) -> &'static str
    ensures { result.now ≡ reason_text reason }
{
    match reason {
        Reason::NotUtf8 => "not UTF-8",
        Reason::NotJson => "not JSON",
        Reason::NotToml => "not TOML",
        Reason::NoPlace => "it can't be told where the license stands",
    }
}

/// A manifest that is checked.
#[derive(Drop)]
pub struct CheckedManifest {
    /// What is written of it.
    pub found: Findings,
    /// The expressions that it declares, in the order of their places; none where the file is refused as a whole.
    pub sites: Option<Vec<Site>>,
}

/// What is wrong with the expressions that a file declares as a manifest of the form, as `manifests::sites` gives them: each
/// is told at its line and column, in the order of their places, with its line and carets under the fault; under all of the
/// expression where it is written with escapes. A file that isn't what the form is written in is told itself, at its fault, and
/// counts as one expression. The expressions are handed back. `is_first` is that of `check_tags`.
///
/// The form's reader reads the file twice; else as `check_tags`.
///
/// # Errors
///
/// Memory was refused.
pub fn check_manifest(
    alloc: Global,
    check: &Check<'_>,
    is_first: bool,
    form: Form,
    source: Source<'_>,
) -> Result<CheckedManifest, AllocError>
    ensures { IfOk result (λ checked. ChecksManifest check.now is_first form
        (source_of source.entry) (sites_in checked.sites) checked.found.text.items
        checked.found.summary) }
{
    match sites(alloc, form, source.bytes) {
        Ok(found) => {
            let check = Check {
                mode: mode_in(form, check.mode),
                ..*check
            };
            let ordered = in_order(found)?;
            let found = sites_found(alloc, &check, is_first, source, &ordered)?;
            Ok(CheckedManifest {
                found,
                sites: Some(ordered),
            })
        }
        Err(ManifestError::Refused(fault)) => {
            let found = fault_found(alloc, check, is_first, source, fault)?;
            Ok(CheckedManifest { found, sites: None })
        }
        Err(ManifestError::NoMemory) => Err(AllocError),
    }
}

// In the order of their places.
fn in_order(sites: Vec<Site>) -> Result<Vec<Site>, AllocError>
    ensures { IfOk result (λ ordered. AreOrdered sites.items ordered.items) }
{
    let mut ordered = sites;
    ordered.sort_by_key(|site| site.span.start)?;
    Ok(ordered)
}

// The findings of the expressions at these sites.
fn sites_found(
    alloc: Global,
    check: &Check<'_>,
    is_first: bool,
    source: Source<'_>,
    sites: &[Site],
) -> Result<Findings, AllocError>
    ensures { IfOk result (λ found. ChecksWritten check.now is_first (source_of source.entry)
        (map declared_at sites.now) found.text.items found.summary) }
{
    let all = declared(alloc, sites)?;
    findings_of(alloc, check, is_first, source, &all)
}

// The expressions of these sites.
fn declared(alloc: Global, sites: &[Site]) -> Result<Vec<Written<'_>>, AllocError>
    ensures { IfOk result (λ all. map stood all.items ≡ map declared_at sites.now) }
{
    let mut all = Vec::new(alloc);
    for site in sites {
        all.push(Written {
            start: site.span.start.saturating_add(site.quotes),
            end: site.span.end.saturating_sub(site.quotes),
            text: site.text.as_slice(),
        })?;
    }
    Ok(all)
}

// The finding of a file that is no manifest.
fn fault_found(
    alloc: Global,
    check: &Check<'_>,
    is_first: bool,
    source: Source<'_>,
    fault: Fault,
) -> Result<Findings, AllocError>
    ensures text { IfOk result (λ found. found.text.items ≡
        finding_text check.now.format is_first (told_of_file (source_of source.entry) fault)) }
    ensures summary { IfOk result (λ found. found.summary ≡
        record { lines = 1; refused = 1 }) }
{
    let mut cursor = Cursor::new(source.bytes);
    cursor.move_to(fault.offset);
    let shown = part_excerpt(alloc, cursor, fault_part(source.bytes, fault.offset))?;
    let place = Place {
        file: source.path,
        line: cursor.line(),
        column: cursor.column(),
    };
    let finding = finding_of_file(place, reason_text(fault.reason), shown.sight());
    let mut text = Vec::new(alloc);
    put_finding(alloc, &mut text, check.format, is_first, &finding)?;
    Ok(Findings {
        text,
        summary: Summary {
            lines: 1,
            refused: 1,
        },
    })
}

// What is told of a file as a whole, which is none for that reason.
fn finding_of_file<'t>(place: Place<'t>, reason: &'t str, sight: Sight<'t>) -> Finding<'t>
    ensures { told result ≡ told_whole (spot_of place.entry) reason.now (seen_of sight.entry) }
{
    Finding {
        place,
        expression: "",
        start: 0,
        end: 0,
        reason,
        help: Help::Nothing,
        sight: Some(sight),
    }
}

// The character at a place.
fn fault_part(bytes: &[u8], at: usize) -> Part
    ensures { part_of result ≡ fault_part bytes.now at }
{
    Part {
        from: at,
        len: 1 + continued_len(behind(bytes, at)),
    }
}

// What stands behind a byte.
fn behind(bytes: &[u8], at: usize) -> &[u8]
    ensures { result.now ≡ drop (at + 1) bytes.now }
{
    match bytes.get(at..) {
        Some([_, rest @ ..]) => rest,
        _ => &[],
    }
}

// How many bytes at their front continue a character.
fn continued_len(bytes: &[u8]) -> usize
    ensures value { result ≡ prefix_len continues bytes.now }
    ensures within { result ≤ length bytes.now }
{
    bytes
        .iter()
        .take_while(|byte| **byte & 0xc0 == 0x80)
        .count()
}
