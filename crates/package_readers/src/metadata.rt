// A METADATA or PKG-INFO file of a Python package.

ghost use Rattle.std.specs.Prelude.{◌≡◌, ◌++◌, ◌≤◌, length, Ok, Err, IfOk, IfErr, OnOk, map, option_map, string_bytes, count_by, not};
ghost use Rattle.package_items.specs.Rows.{Says, license_of, row_of};
ghost use Rattle.package_items.specs.Texts.{is_blank as said_blank};
ghost use Rattle.package_readers.specs.Metadata as spec;

use crate::lines::{on_line, text_lines, text_of, trimmed};
use package_items::{License, Package, SourceError, SourceFault, is_blank, license_in};
use std::alloc::{AllocError, Global};

// Whether the line ends the fields: it is empty, but for a carriage return.
fn is_end(line: &str) -> bool
    ensures { result ≡ spec.is_end line.now }
{
    line.is_empty() || line == "\r"
}

// The lines before the first that ends the fields.
fn head_of<'t>(alloc: Global, lines: &[&'t str]) -> Result<Vec<&'t str>, AllocError>
    ensures { IfOk result (λ v. map (λ x. x.now) v.items
        ≡ spec.head_of (map (λ x. x.now) lines.now)) }
{
    let mut head = Vec::new(alloc);
    for line in lines {
        if is_end(line) {
            return Ok(head);
        }
        head.push(*line)?;
    }
    Ok(head)
}

// Whether the line goes on with the field before it.
fn is_folded(line: &str) -> bool
    ensures { result ≡ spec.is_folded line.now }
{
    let bytes = line.as_bytes();
    bytes.starts_with(b" ") || bytes.starts_with(b"\t")
}

// What stands behind the colon of a line that begins with this name.
fn behind_name<'t>(name: &str, line: &'t str) -> Option<&'t str>
    ensures { option_map (λ x. x.now) result ≡ spec.behind_name name.now line.now }
{
    let (front, text) = line.split_once(':')?;
    if front.eq_ignore_ascii_case(name) {
        return Some(text);
    }
    None
}

// The text, and the lines that go on with it.
fn with_folded<'t>(
    alloc: Global,
    text: &'t str,
    lines: &[&'t str],
) -> Result<Vec<&'t str>, AllocError>
    ensures { IfOk result (λ v. map (λ x. x.now) v.items
        ≡ spec.with_folded text.now (map (λ x. x.now) lines.now)) }
{
    let mut all = Vec::new(alloc);
    all.push(text)?;
    for line in lines {
        if !is_folded(line) {
            return Ok(all);
        }
        all.push(*line)?;
    }
    Ok(all)
}

// The lines of the first field of that name.
fn field<'t>(
    alloc: Global,
    name: &str,
    lines: &[&'t str],
) -> Result<Option<Vec<&'t str>>, AllocError>
    ensures { IfOk result (λ f. option_map (λ v. map (λ x. x.now) v.items) f
        ≡ spec.field name.now (map (λ x. x.now) lines.now)) }
{
    let mut rest = lines;
    while let [line, more @ ..] = rest {
        if let Some(text) = behind_name(name, line) {
            return Ok(Some(with_folded(alloc, text, more)?));
        }
        rest = more;
    }
    Ok(None)
}

// The lines behind one another, with a blank before each.
fn unfolded(alloc: Global, lines: &[&str]) -> Result<String, AllocError>
    ensures { IfOk result (λ t. string_bytes t ≡ spec.unfolded (map (λ x. x.now) lines.now)) }
{
    let mut text = String::new(alloc);
    for line in lines {
        text.push_str(" ")?;
        text.push_str(trimmed(line))?;
    }
    Ok(text)
}

// The text of lines, on one line.
fn text_in(alloc: Global, lines: &[&str]) -> Result<String, AllocError>
    ensures { IfOk result (λ t. string_bytes t ≡ spec.text_in (map (λ x. x.now) lines.now)) }
{
    let text = unfolded(alloc, lines)?;
    String::from_str(alloc, trimmed(text.as_str()))
}

// The text of the first field of that name, if it has one that isn't blank.
fn text_at(alloc: Global, name: &str, head: &[&str]) -> Result<Option<String>, AllocError>
    ensures { IfOk result (λ t. option_map string_bytes t
        ≡ spec.text_at name.now (map (λ x. x.now) head.now)) }
{
    let Some(lines) = field(alloc, name, head)? else {
        return Ok(None);
    };
    let text = text_in(alloc, lines.as_slice())?;
    if text.is_empty() {
        return Ok(None);
    }
    Ok(Some(text))
}

// The lines of each field of that name.
fn fields<'t>(alloc: Global, name: &str, lines: &[&'t str]) -> Result<Vec<Vec<&'t str>>, AllocError>
    ensures { IfOk result (λ fs. map (λ v. map (λ x. x.now) v.items) fs.items
        ≡ spec.fields name.now (map (λ x. x.now) lines.now)) }
{
    let mut all = Vec::new(alloc);
    let mut rest = lines;
    while let [line, more @ ..] = rest {
        if let Some(text) = behind_name(name, line) {
            all.push(with_folded(alloc, text, more)?)?;
        }
        rest = more;
    }
    Ok(all)
}

// The texts of all fields of that name that aren't blank.
fn texts_at(alloc: Global, name: &str, head: &[&str]) -> Result<Vec<String>, AllocError>
    ensures { IfOk result (λ ts. map string_bytes ts.items
        ≡ spec.texts_at name.now (map (λ x. x.now) head.now)) }
{
    let fields = fields(alloc, name, head)?;
    let mut texts = Vec::new(alloc);
    for lines in &fields {
        let text = text_in(alloc, lines.as_slice())?;
        if !text.is_empty() {
            texts.push(text)?;
        }
    }
    Ok(texts)
}

// How many lines aren't blank.
fn written(lines: &[&str]) -> usize
    ensures value { result ≡ spec.written (map (λ x. x.now) lines.now) }
    ensures bound { result ≤ length lines.now }
{
    let mut count = 0;
    for line in lines {
        if !is_blank(line.as_bytes()) {
            count += 1;
        }
    }
    count
}

// What the lines of the field `License` say: nothing if they are the text of a license, or `UNKNOWN`.
fn said_by_lines(alloc: Global, lines: &[&str]) -> Result<License, AllocError>
    ensures { IfOk result (λ l.
        license_of l ≡ spec.said_by_lines (map (λ x. x.now) lines.now)) }
{
    let text = text_in(alloc, lines)?;
    if written(lines) > 1 || text.as_str() == "UNKNOWN" {
        return Ok(License::Unstated);
    }
    license_in(alloc, text.as_str())
}

fn old_license(alloc: Global, head: &[&str]) -> Result<License, AllocError>
    ensures { IfOk result (λ l. license_of l ≡ spec.old_license (map (λ x. x.now) head.now)) }
{
    match field(alloc, "License", head)? {
        Some(lines) => said_by_lines(alloc, lines.as_slice()),
        None => Ok(License::Unstated),
    }
}

fn new_license(alloc: Global, head: &[&str]) -> Result<License, AllocError>
    ensures { IfOk result (λ l. license_of l ≡ spec.new_license (map (λ x. x.now) head.now)) }
{
    match text_at(alloc, "License-Expression", head)? {
        Some(text) => license_in(alloc, text.as_str()),
        None => Ok(License::Unstated),
    }
}

// The expression, or else what `License` says.
fn license(alloc: Global, head: &[&str]) -> Result<License, AllocError>
    ensures { IfOk result (λ l. license_of l ≡ spec.license (map (λ x. x.now) head.now)) }
{
    match new_license(alloc, head)? {
        License::Stated(text) => Ok(License::Stated(text)),
        License::Unstated => old_license(alloc, head),
    }
}

// How many texts of licenses the fields hold.
fn texts_held(alloc: Global, head: &[&str]) -> Result<usize, AllocError>
    ensures { IfOk result (λ n. n ≡ spec.texts_held (map (λ x. x.now) head.now)) }
{
    match field(alloc, "License", head)? {
        Some(lines) if written(lines.as_slice()) > 1 => Ok(1),
        _ => Ok(0),
    }
}

// The package that the fields tell.
fn package_of(alloc: Global, head: &[&str]) -> Result<Package, SourceError>
    ensures ok { IfOk result (λ p.
        spec.package_of (map (λ x. x.now) head.now) ≡ Ok (row_of p)) }
    ensures err { IfErr result (Says (λ f.
        spec.package_of (map (λ x. x.now) head.now) ≡ Err f)) }
{
    let Some(name) = text_at(alloc, "Name", head)? else {
        let name = String::from_str(alloc, "Name")?;
        return Err(SourceError::Refused(SourceFault::NoField(name)));
    };
    let version = text_at(alloc, "Version", head)?;
    let license = license(alloc, head)?;
    let mut package = on_line(alloc, 1, name, version, license);
    package.folder = Some(String::from_str(alloc, ".")?);
    package.license_files = texts_at(alloc, "License-File", head)?;
    package.evidence = texts_held(alloc, head)?;
    Ok(package)
}

/// The package of a METADATA or PKG-INFO file of Python: the fields before the first empty line tell it, by their names in
/// any case. A line that begins with a blank or a tab goes on with the field before it.
///
/// # Errors
///
/// That the file is no UTF-8, or has no name; or that memory was refused.
pub fn metadata_packages(alloc: Global, bytes: &[u8]) -> Result<Vec<Package>, SourceError>
    ensures ok { IfOk result (λ ps.
        spec.metadata_packages bytes.now ≡ Ok (map row_of ps.items)) }
    ensures err { IfErr result (Says (λ f. spec.metadata_packages bytes.now ≡ Err f)) }
{
    let lines = text_lines(alloc, text_of(bytes)?)?;
    let head = head_of(alloc, lines.as_slice())?;
    let mut packages = Vec::new(alloc);
    packages.push(package_of(alloc, head.as_slice())?)?;
    Ok(packages)
}
