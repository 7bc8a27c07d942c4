// Packages in lines of text.

ghost use Rattle.std.specs.Prelude.{◌≡◌, ◌≤◌, ◌==◌, count_by, length, Ok, Err, IfOk, IfErr, map, option_map, string_bytes, true, false};
ghost use Rattle.std.specs.Str.{is_utf8};
ghost use Rattle.std.specs.List.{slice_split};
ghost use Rattle.package_readers.specs.Lines as spec;
ghost use Rattle.package_items.specs.Rows.{Says, row_of, license_of, not_utf8};

use package_items::{License, Package, SourceError, SourceFault, Spot, is_blank, license_in};
use std::alloc::{AllocError, Global};

pub(crate) fn trimmed(text: &str) -> &str
    ensures { result.now ≡ spec.trimmed text.now }
{
    text.trim_ascii()
}

pub(crate) fn text_lines(alloc: Global, text: &str) -> Result<Vec<&str>, AllocError>
    ensures { IfOk result (λ v. map (λ x. x.now) v.items ≡ slice_split (λ b. b == 10) text.now) }
{
    text.split('\n').collect(alloc)
}

// The package of a line, with this name, version and license.
pub(crate) fn on_line(
    alloc: Global,
    number: usize,
    name: String,
    version: Option<String>,
    license: License,
) -> Package
    ensures { row_of result ≡ spec.on_line_of number (string_bytes name)
        (option_map string_bytes version) (license_of license) }
{
    Package {
        name,
        version,
        license,
        folder: None,
        license_files: Vec::new(alloc),
        evidence: 0,
        is_own: false,
        spot: Spot::Line(number),
    }
}

// The package of a line that holds the text of a license, by its number from 1.
fn plain(alloc: Global, number: usize, line: &str) -> Result<Package, SourceError>
    ensures ok { IfOk result (λ p. spec.plain number line.now ≡ Ok (row_of p)) }
    ensures err { IfErr result (Says (λ f. spec.plain number line.now ≡ Err f)) }
{
    let name = format!(in alloc; "line {number}")?;
    let license = license_in(alloc, trimmed(line))?;
    Ok(on_line(alloc, number, name, None, license))
}

// The packages of the lines that aren't blank.
fn packages_of(alloc: Global, lines: &[&str]) -> Result<Vec<Package>, SourceError>
    ensures ok { IfOk result (λ ps. spec.each_line spec.plain 1 (map (λ x. x.now) lines.now)
        ≡ Ok (map row_of ps.items)) }
    ensures err { IfErr result (Says (λ f.
        spec.each_line spec.plain 1 (map (λ x. x.now) lines.now) ≡ Err f)) }
{
    let mut packages = Vec::new(alloc);
    for (index, line) in lines.iter().enumerate() {
        if !is_blank(line.as_bytes()) {
            packages.push(plain(alloc, index + 1, line)?)?;
        }
    }
    Ok(packages)
}

/// The packages of lines that are texts of licenses: of each that isn't blank, in their order.
pub fn packages_in_lines(alloc: Global, bytes: &[u8]) -> Result<Vec<Package>, SourceError>
    ensures ok { IfOk result (λ ps.
        spec.packages_in_lines bytes.now ≡ Ok (map row_of ps.items)) }
    ensures err { IfErr result (Says (λ f. spec.packages_in_lines bytes.now ≡ Err f)) }
{
    let text = text_of(bytes)?;
    let lines = text_lines(alloc, text)?;
    packages_of(alloc, lines.as_slice())
}

// How many lines end in the bytes.
fn newlines(bytes: &[u8]) -> usize
    ensures value { result ≡ count_by (λ b. b == 10) bytes.now }
    ensures bound { result ≤ length bytes.now }
{
    bytes.iter().filter(|b| **b == b'\n').count()
}

pub(crate) fn text_of(bytes: &[u8]) -> Result<&str, SourceError>
    ensures ok { IfOk result (λ t. (t.now ≡ bytes.now) × (is_utf8 bytes.now ≡ true)) }
    ensures err { IfErr result (Says (λ f.
        (f ≡ not_utf8 (spec.broken_line bytes.now)) × (is_utf8 bytes.now ≡ false))) }
{
    match std::str::from_utf8(bytes) {
        Ok(text) => Ok(text),
        Err(error) => {
            let line = newlines(&bytes[..error.valid_up_to()]) + 1;
            Err(SourceError::Refused(SourceFault::NotUtf8(line)))
        }
    }
}
