// The page as Markdown.

ghost use Rattle.std.specs.Prelude.{◌≡◌, ◌≤◌, ◌++◌, OnOk, flat_map, length, map, replicate};
ghost use Rattle.license_notice.specs.Notices.{line_of, band_of, bands_of};
ghost use Rattle.notice_forms.specs.Told.{named, told};
ghost use Rattle.notice_forms.specs.Markdown.{longest_run, pad, code_span, span, markdown_version, markdown_line, markdown_entry, markdown_band, fence, last_newline, markdown_holders, markdown_text, markdown_page};

use crate::lines::{put_line_text, put_package_count};
use crate::pages::{LicenseText, Page};
use license_notice::{Group, Release};
use std::alloc::{AllocError, Global};

/// Appends the page as Markdown.
pub(crate) fn put_markdown(
    alloc: Global,
    page: &mut Vec<u8>,
    shown: &Page<'_, '_>,
) -> Result<(), AllocError>
    ensures { OnOk result (page.new.items ≡ page.old.items ++ markdown_page (told shown.now)) }
{
    page.extend_from_slice(b"# ")?;
    put_span(alloc, page, shown.title)?;
    page.extend_from_slice(b"\n\n## Licences\n\n")?;
    put_entries(alloc, page, shown.groups)?;
    page.extend_from_slice(b"\n## Packages\n")?;
    put_bands(alloc, page, shown.groups)?;
    page.extend_from_slice(b"\n## Texts\n")?;
    put_texts(alloc, page, shown.texts)?;
    Ok(())
}

// How many backquotes stand side by side, at most.
fn longest_run(bytes: &[u8]) -> usize
    ensures value { result ≡ longest_run bytes.now }
    ensures within { result ≤ length bytes.now }
{
    let mut at = bytes.len();
    let mut run = 0;
    let mut longest = 0;
    while at > 0 {
        at -= 1;
        run = if bytes[at] == b'`' { run + 1 } else { 0 };
        longest = longest.max(run);
    }
    longest
}

fn put_backquotes(page: &mut Vec<u8>, count: usize) -> Result<(), AllocError>
    ensures { OnOk result (page.new.items ≡ page.old.items ++ replicate count 96) }
{
    for _ in 0..count {
        page.push(b'`')?;
    }
    Ok(())
}

fn put_pad(page: &mut Vec<u8>, run: usize) -> Result<(), AllocError>
    ensures { OnOk result (page.new.items ≡ page.old.items ++ pad run) }
{
    if run != 0 {
        page.push(b' ')?;
    }
    Ok(())
}

#[tactic(auto, unfolding(crate::specs::Markdown::code_span))]
fn put_code_span(page: &mut Vec<u8>, run: usize, shown: &[u8]) -> Result<(), AllocError>
    ensures { OnOk result (page.new.items ≡ page.old.items ++ code_span run shown.now) }
{
    put_backquotes(page, run)?;
    page.extend_from_slice(b"`")?;
    put_pad(page, run)?;
    page.extend_from_slice(shown)?;
    put_pad(page, run)?;
    put_backquotes(page, run)?;
    page.extend_from_slice(b"`")?;
    Ok(())
}

fn put_span(alloc: Global, page: &mut Vec<u8>, name: &str) -> Result<(), AllocError>
    ensures { OnOk result (page.new.items ≡ page.old.items ++ span name.now) }
{
    if name.is_empty() {
        return Ok(());
    }
    let mut shown = Vec::new(alloc);
    put_line_text(alloc, &mut shown, name)?;
    put_code_span(page, longest_run(&shown), &shown)
}

fn put_entries(alloc: Global, page: &mut Vec<u8>, groups: &[Group<'_>]) -> Result<(), AllocError>
    ensures { OnOk result (page.new.items
        ≡ page.old.items ++ flat_map markdown_entry (bands_of groups.now)) }
{
    for group in groups {
        put_entry(alloc, page, group)?;
    }
    Ok(())
}

#[tactic(auto, unfolding(crate::specs::Markdown::markdown_entry))]
fn put_entry(alloc: Global, page: &mut Vec<u8>, group: &Group<'_>) -> Result<(), AllocError>
    ensures { OnOk result (page.new.items ≡ page.old.items ++ markdown_entry (band_of group.now)) }
{
    page.extend_from_slice(b"- ")?;
    put_span(alloc, page, group.requirement)?;
    page.extend_from_slice(b" (")?;
    put_package_count(alloc, page, group.packages.len())?;
    page.extend_from_slice(b")\n")
}

fn put_bands(alloc: Global, page: &mut Vec<u8>, groups: &[Group<'_>]) -> Result<(), AllocError>
    ensures { OnOk result (page.new.items
        ≡ page.old.items ++ flat_map markdown_band (bands_of groups.now)) }
{
    for group in groups {
        put_band(alloc, page, group)?;
    }
    Ok(())
}

#[tactic(auto, unfolding(crate::specs::Markdown::markdown_band))]
fn put_band(alloc: Global, page: &mut Vec<u8>, group: &Group<'_>) -> Result<(), AllocError>
    ensures { OnOk result (page.new.items ≡ page.old.items ++ markdown_band (band_of group.now)) }
{
    page.extend_from_slice(b"\n### ")?;
    put_span(alloc, page, group.requirement)?;
    page.extend_from_slice(b"\n\n")?;
    put_lines(alloc, page, &group.packages)
}

fn put_lines(alloc: Global, page: &mut Vec<u8>, packages: &[Release<'_>]) -> Result<(), AllocError>
    ensures { OnOk result (page.new.items
        ≡ page.old.items ++ flat_map markdown_line (map line_of packages.now)) }
{
    for release in packages {
        put_line(alloc, page, release)?;
    }
    Ok(())
}

#[tactic(auto, unfolding(crate::specs::Markdown::markdown_line))]
fn put_line(alloc: Global, page: &mut Vec<u8>, release: &Release<'_>) -> Result<(), AllocError>
    ensures { OnOk result (page.new.items ≡ page.old.items ++ markdown_line (line_of release.now)) }
{
    page.extend_from_slice(b"- ")?;
    put_span(alloc, page, release.name)?;
    put_version(alloc, page, release.version)?;
    page.extend_from_slice(b"\n")
}

// The version behind a blank, where there is one.
fn put_version(alloc: Global, page: &mut Vec<u8>, version: &str) -> Result<(), AllocError>
    ensures { OnOk result (page.new.items ≡ page.old.items ++ markdown_version version.now) }
{
    if version.is_empty() {
        return Ok(());
    }
    page.push(b' ')?;
    put_span(alloc, page, version)
}

fn put_texts(
    alloc: Global,
    page: &mut Vec<u8>,
    texts: &[LicenseText<'_, '_>],
) -> Result<(), AllocError>
    ensures { OnOk result (page.new.items
        ≡ page.old.items ++ flat_map markdown_text (map named texts.now)) }
{
    for text in texts {
        put_text(alloc, page, text)?;
    }
    Ok(())
}

fn put_text(alloc: Global, page: &mut Vec<u8>, text: &LicenseText<'_, '_>) -> Result<(), AllocError>
    ensures { OnOk result (page.new.items ≡ page.old.items ++ markdown_text (named text.now)) }
{
    page.extend_from_slice(b"\n### ")?;
    put_span(alloc, page, text.name)?;
    page.extend_from_slice(b"\n\n")?;
    put_holders(alloc, page, text.packages)?;
    put_fence(page, text.bytes)?;
    page.extend_from_slice(b"text\n")?;
    page.extend_from_slice(text.bytes)?;
    put_last_newline(page, text.bytes)?;
    put_fence(page, text.bytes)?;
    page.extend_from_slice(b"\n")?;
    Ok(())
}

// The packages that have a text, and an empty line, where there are any.
#[tactic(auto, unfolding(crate::specs::Markdown::markdown_holders))]
fn put_holders(
    alloc: Global,
    page: &mut Vec<u8>,
    packages: &[Release<'_>],
) -> Result<(), AllocError>
    ensures { OnOk result (page.new.items
        ≡ page.old.items ++ markdown_holders (map line_of packages.now)) }
{
    match packages {
        [] => Ok(()),
        [_, ..] => {
            put_lines(alloc, page, packages)?;
            page.extend_from_slice(b"\n")
        }
    }
}

fn put_fence(page: &mut Vec<u8>, bytes: &[u8]) -> Result<(), AllocError>
    ensures { OnOk result (page.new.items ≡ page.old.items ++ fence bytes.now) }
{
    put_backquotes(page, longest_run(bytes))?;
    page.extend_from_slice(b"```")
}

fn put_last_newline(page: &mut Vec<u8>, bytes: &[u8]) -> Result<(), AllocError>
    ensures { OnOk result (page.new.items ≡ page.old.items ++ last_newline bytes.now) }
{
    if !bytes.ends_with(b"\n") {
        page.push(b'\n')?;
    }
    Ok(())
}
