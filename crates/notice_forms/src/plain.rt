// The page as plain text.

ghost use Rattle.std.specs.Prelude.{◌≡◌, ◌++◌, OnOk, IfOk, flat_map, map};
ghost use Rattle.license_notice.specs.Notices.{line_of, band_of, bands_of};
ghost use Rattle.notice_forms.specs.Told.{named, told};
ghost use Rattle.notice_forms.specs.Plain.{plain_version, plain_line, plain_entry, plain_band, plain_rule, plain_text, plain_page};

use crate::lines::{put_line_text, put_package_count};
use crate::pages::{LicenseText, Page};
use license_notice::{Group, Release};
use std::alloc::{AllocError, Global};

/// Appends the page as plain text.
pub(crate) fn put_plain(
    alloc: Global,
    page: &mut Vec<u8>,
    shown: &Page<'_, '_>,
) -> Result<(), AllocError>
    ensures { OnOk result (page.new.items ≡ page.old.items ++ plain_page (told shown.now)) }
{
    put_line_text(alloc, page, shown.title)?;
    page.extend_from_slice(b"\n\nContents\n")?;
    put_entries(alloc, page, shown.groups)?;
    put_bands(alloc, page, shown.groups)?;
    put_texts(alloc, page, shown.texts)?;
    Ok(())
}

fn put_entries(alloc: Global, page: &mut Vec<u8>, groups: &[Group<'_>]) -> Result<(), AllocError>
    ensures { OnOk result (page.new.items
        ≡ page.old.items ++ flat_map plain_entry (bands_of groups.now)) }
{
    for group in groups {
        put_entry(alloc, page, group)?;
    }
    Ok(())
}

#[tactic(auto, unfolding(crate::specs::Plain::plain_entry))]
fn put_entry(alloc: Global, page: &mut Vec<u8>, group: &Group<'_>) -> Result<(), AllocError>
    ensures { OnOk result (page.new.items ≡ page.old.items ++ plain_entry (band_of group.now)) }
{
    page.extend_from_slice(b"  ")?;
    put_line_text(alloc, page, group.requirement)?;
    page.extend_from_slice(b" (")?;
    put_package_count(alloc, page, group.packages.len())?;
    page.extend_from_slice(b")\n")
}

fn put_bands(alloc: Global, page: &mut Vec<u8>, groups: &[Group<'_>]) -> Result<(), AllocError>
    ensures { OnOk result (page.new.items
        ≡ page.old.items ++ flat_map plain_band (bands_of groups.now)) }
{
    for group in groups {
        put_band(alloc, page, group)?;
    }
    Ok(())
}

#[tactic(auto, unfolding(crate::specs::Plain::plain_band))]
fn put_band(alloc: Global, page: &mut Vec<u8>, group: &Group<'_>) -> Result<(), AllocError>
    ensures { OnOk result (page.new.items ≡ page.old.items ++ plain_band (band_of group.now)) }
{
    page.push(b'\n')?;
    put_line_text(alloc, page, group.requirement)?;
    page.push(b'\n')?;
    put_lines(alloc, page, &group.packages)
}

fn put_lines(alloc: Global, page: &mut Vec<u8>, packages: &[Release<'_>]) -> Result<(), AllocError>
    ensures { OnOk result (page.new.items
        ≡ page.old.items ++ flat_map plain_line (map line_of packages.now)) }
{
    for release in packages {
        put_line(alloc, page, release)?;
    }
    Ok(())
}

#[tactic(auto, unfolding(crate::specs::Plain::plain_line))]
fn put_line(alloc: Global, page: &mut Vec<u8>, release: &Release<'_>) -> Result<(), AllocError>
    ensures { OnOk result (page.new.items ≡ page.old.items ++ plain_line (line_of release.now)) }
{
    page.extend_from_slice(b"  ")?;
    put_line_text(alloc, page, release.name)?;
    put_version(alloc, page, release.version)?;
    page.push(b'\n')?;
    Ok(())
}

// The version behind a blank, where there is one.
fn put_version(alloc: Global, page: &mut Vec<u8>, version: &str) -> Result<(), AllocError>
    ensures { OnOk result (page.new.items ≡ page.old.items ++ plain_version version.now) }
{
    if version.is_empty() {
        return Ok(());
    }
    page.push(b' ')?;
    put_line_text(alloc, page, version)
}

fn put_texts(
    alloc: Global,
    page: &mut Vec<u8>,
    texts: &[LicenseText<'_, '_>],
) -> Result<(), AllocError>
    ensures { OnOk result (page.new.items
        ≡ page.old.items ++ flat_map plain_text (map named texts.now)) }
{
    for text in texts {
        put_text(alloc, page, text)?;
    }
    Ok(())
}

#[tactic(auto, unfolding(crate::specs::Plain::plain_text))]
fn put_text(alloc: Global, page: &mut Vec<u8>, text: &LicenseText<'_, '_>) -> Result<(), AllocError>
    ensures { OnOk result (page.new.items ≡ page.old.items ++ plain_text (named text.now)) }
{
    page.push(b'\n')?;
    put_rule(page)?;
    put_line_text(alloc, page, text.name)?;
    page.push(b'\n')?;
    put_lines(alloc, page, text.packages)?;
    put_rule(page)?;
    page.extend_from_slice(text.bytes)?;
    page.push(b'\n')?;
    Ok(())
}

#[tactic(auto, unfolding(crate::specs::Plain::plain_rule))]
fn put_rule(page: &mut Vec<u8>) -> Result<(), AllocError>
    ensures { OnOk result (page.new.items ≡ page.old.items ++ plain_rule) }
{
    page.extend_from_slice(&[b'-'; 80])?;
    page.push(b'\n')?;
    Ok(())
}
