// What becomes of the bytes of a file.

ghost use Rattle.std.specs.Prelude.{◌≡◌, ◌≤◌, ◌++◌, IfErr, IfOk, false, length};
ghost use Rattle.file_fixes.specs.Fixing.{bytes_after};
ghost use Rattle.file_fixes.specs.Accepted.{Accepts, Reads, Stays};
ghost use Rattle.file_fixes.specs.Mended as spec;
ghost use Rattle.file_fixes.specs.Mended.{
  AreTagged,
  IsDeclared,
  IsManifest,
  IsMended,
  IsNoManifest,
  IsNotDeclared,
  IsSource,
  IsUnmended,
};

use crate::fixed::fix_manifest;
use crate::fixing::{fix_lines, fix_tags};
use crate::{FixedManifest, FixedText};
use check_sources::Cursor;
use manifests::{Fault, Form, ManifestError, Reason};
use spdx_catalogue::Catalogue;
use std::alloc::{AllocError, Global};

/// Which expressions of a file are mended.
#[derive(Clone, Copy, PartialEq, Eq, Debug)]
pub enum Parts {
    /// One a line.
    Lines,
    /// What it declares as a manifest of the form, and what stands behind tags.
    Source { form: Option<Form>, tags: bool },
}

/// What a file holds that is read under this path.
#[derive(Clone, Copy)]
pub struct Content<'f> {
    pub path: &'f str,
    pub bytes: &'f [u8],
}

/// What becomes of the bytes of a file.
#[derive(Drop)]
pub struct Outcome {
    /// The bytes with what can be mended, where something is.
    pub bytes: Option<Vec<u8>>,
    /// Whether an expression is left that is refused.
    pub is_left: bool,
}

/// Why a manifest stays as it is: it isn't what it is called, on this line.
#[derive(Clone, Copy, PartialEq, Eq, Debug)]
pub struct ManifestFault {
    pub reason: Reason,
    pub line: u64,
}

/// Why it isn't told what becomes of a file.
#[derive(Clone, Copy, PartialEq, Eq, Debug)]
pub enum MendError {
    Manifest(ManifestFault),
    Memory,
}

impl From<AllocError> for MendError {
    ghost use Rattle.std.specs.Prelude.{◌≡◌};
    ghost use Rattle.file_fixes.specs.declared.mended.MendError.TheVariants.{Memory};

    ghost from_gives = { λ _ e. e ≡ Memory };

    fn from(_error: AllocError) -> MendError {
        MendError::Memory
    }
}

impl Outcome {
    // The bytes that come of these.
    fn bytes_or<'b>(&'b self, old: &'b [u8]) -> &'b [u8]
        ensures { result.now ≡ bytes_after old.now self.now.bytes }
    {
        match &self.bytes {
            Some(bytes) => bytes.as_slice(),
            None => old,
        }
    }
}

/// The bytes with each expression that is wanted and has a fix replaced by it: that of each line; or what the manifest
/// declares, behind a byte order mark, and then what stands behind tags.
///
/// # Errors
///
/// The manifest isn't what its form is written in, or memory was refused.
pub fn mended_of(
    alloc: Global,
    catalogue: &Catalogue,
    parts: Parts,
    content: Content<'_>,
) -> Result<Outcome, MendError>
    ensures ok { IfOk result
        (IsMended catalogue.now parts content.entry.path.now content.entry.bytes.now) }
    ensures err { IfErr result (IsUnmended catalogue.now parts content.entry.bytes.now) }
    ensures accepts { IfOk result (λ o. o.is_left ≡ false →
        Accepts catalogue.now parts content.entry.path.now content.entry.bytes.now
        (bytes_after content.entry.bytes.now o.bytes)) }
    ensures needless { IfOk result (λ o.
        Reads catalogue.now parts content.entry.path.now content.entry.bytes.now → Stays o) }
{
    let outcome = parts_mended(alloc, catalogue, parts, content)?;
    Ok(outcome)
}

fn parts_mended(
    alloc: Global,
    catalogue: &Catalogue,
    parts: Parts,
    content: Content<'_>,
) -> Result<Outcome, MendError>
    ensures ok { IfOk result
        (IsMended catalogue.now parts content.entry.path.now content.entry.bytes.now) }
    ensures err { IfErr result (IsUnmended catalogue.now parts content.entry.bytes.now) }
{
    match parts {
        Parts::Lines => Ok(outcome_of(fix_lines(alloc, catalogue, content.bytes)?)),
        Parts::Source { form, tags } => source_mended(alloc, catalogue, form, tags, content),
    }
}

fn outcome_of(fixed: FixedText) -> Outcome
    ensures bytes { result.bytes ≡ fixed.bytes }
    ensures left { result.is_left ≡ fixed.is_left }
{
    let FixedText { bytes, is_left } = fixed;
    Outcome { bytes, is_left }
}

fn source_mended(
    alloc: Global,
    catalogue: &Catalogue,
    form: Option<Form>,
    tags: bool,
    content: Content<'_>,
) -> Result<Outcome, MendError>
    ensures ok { IfOk result
        (IsSource catalogue.now form tags content.entry.path.now content.entry.bytes.now) }
    ensures err { IfErr result (IsNotDeclared catalogue.now form content.entry.bytes.now) }
{
    let declared = declared_mended(alloc, catalogue, form, content.bytes)?;
    if tags {
        let tagged = tags_mended(alloc, catalogue, content, declared)?;
        Ok(tagged)
    } else {
        Ok(declared)
    }
}

// Of what is declared the tags besides.
fn tags_mended(
    alloc: Global,
    catalogue: &Catalogue,
    content: Content<'_>,
    declared: Outcome,
) -> Result<Outcome, AllocError>
    ensures { IfOk result
        (AreTagged catalogue.now content.entry.path.now content.entry.bytes.now declared) }
{
    let text = declared.bytes_or(content.bytes);
    let tagged = fix_tags(alloc, catalogue, content.path, text)?;
    Ok(Outcome {
        is_left: declared.is_left || tagged.is_left,
        bytes: tagged.bytes.or(declared.bytes),
    })
}

// What mends the expressions that a manifest declares, if the file is one.
fn declared_mended(
    alloc: Global,
    catalogue: &Catalogue,
    form: Option<Form>,
    bytes: &[u8],
) -> Result<Outcome, MendError>
    ensures ok { IfOk result (IsDeclared catalogue.now form bytes.now) }
    ensures err { IfErr result (IsNotDeclared catalogue.now form bytes.now) }
{
    match form {
        Some(form) => manifest_mended(alloc, catalogue, form, bytes),
        None => Ok(Outcome {
            bytes: None,
            is_left: false,
        }),
    }
}

fn manifest_mended(
    alloc: Global,
    catalogue: &Catalogue,
    form: Form,
    bytes: &[u8],
) -> Result<Outcome, MendError>
    ensures ok { IfOk result (IsManifest catalogue.now form bytes.now) }
    ensures err { IfErr result (IsNoManifest catalogue.now form bytes.now) }
{
    let mark = mark_len(bytes);
    let behind = &bytes[mark..];
    match fix_manifest(alloc, catalogue, form, behind) {
        Ok(fixed) => Ok(behind_mark(alloc, &bytes[..mark], fixed)?),
        Err(ManifestError::Refused(fault)) => Err(MendError::Manifest(placed(behind, fault))),
        Err(ManifestError::NoMemory) => Err(MendError::Memory),
    }
}

// How long the byte order mark at the front is.
fn mark_len(bytes: &[u8]) -> usize
    ensures value { result ≡ spec.mark_len bytes.now }
    ensures within { result ≤ length bytes.now }
{
    if bytes.starts_with(b"\xef\xbb\xbf") {
        3
    } else {
        0
    }
}

// The same, with the mark before its bytes.
fn behind_mark(alloc: Global, mark: &[u8], fixed: FixedManifest) -> Result<Outcome, AllocError>
    ensures bytes { IfOk result (λ o.
        spec.bytes_in o.bytes ≡ spec.behind mark.now (spec.bytes_in fixed.bytes)) }
    ensures left { IfOk result (λ o. o.is_left ≡ fixed.is_left) }
{
    let FixedManifest { bytes, is_left } = fixed;
    match bytes {
        Some(new) => Ok(Outcome {
            bytes: Some(joined(alloc, mark, &new)?),
            is_left,
        }),
        None => Ok(Outcome {
            bytes: None,
            is_left,
        }),
    }
}

// One behind the other.
fn joined(alloc: Global, one: &[u8], other: &[u8]) -> Result<Vec<u8>, AllocError>
    ensures { IfOk result (λ bytes. bytes.items ≡ one.now ++ other.now) }
{
    let mut bytes = Vec::new(alloc);
    bytes.extend_from_slice(one)?;
    bytes.extend_from_slice(other)?;
    Ok(bytes)
}

// Why these bytes are no manifest, and on which line.
fn placed(bytes: &[u8], fault: Fault) -> ManifestFault
    ensures reason { result.reason ≡ fault.reason }
    ensures line { result.line ≡ spec.line_at bytes.now fault.offset }
{
    let mut cursor = Cursor::new(bytes);
    cursor.move_to(fault.offset);
    ManifestFault {
        reason: fault.reason,
        line: cursor.line(),
    }
}
