// The page as one file of HTML.

ghost use Rattle.std.specs.Prelude.{◌≡◌, ◌++◌, OnOk, IfErr, flat_map, map, codes, decimal};
ghost use Rattle.license_notice.specs.Notices.{line_of, band_of, bands_of};
ghost use Rattle.notice_forms.specs.Told.{named, with_bytes, told};
ghost use Rattle.notice_forms.specs.Numbered.{numbered};
ghost use Rattle.notice_forms.specs.Markup.{html_line, html_entry, html_text_entry, html_band, html_holders, html_text};
ghost use Rattle.notice_forms.specs.Html.{html_front, html_text_list, html_text_contents, html_contents, html_text_part, html_texts, html_page};
ghost use Rattle.notice_forms.specs.Refusals.{IsTextRefusal};

use crate::by_package::put_packages;
use crate::errors::PageError;
use crate::lines::put_package_count;
use crate::pages::{LicenseText, Page};
use crate::style::{HTML_HEAD, HTML_STYLE};
use foreign_text::html::put_text;
use license_notice::{Group, Release};
use std::alloc::{AllocError, Global};

/// Appends the page as HTML.
pub(crate) fn put_html<'t>(
    alloc: Global,
    page: &mut Vec<u8>,
    shown: &Page<'_, 't>,
) -> Result<(), PageError<'t>>
    ensures ok { OnOk result (page.new.items ≡ page.old.items ++ html_page (told shown.now)) }
    ensures err { IfErr result (IsTextRefusal (map named shown.now.texts.now)) }
{
    put_front(page, shown.title)?;
    put_contents(alloc, page, shown)?;
    page.extend_from_slice(b"<main>\n<h2>Packages by licence</h2>\n")?;
    put_bands(alloc, page, shown.groups)?;
    page.extend_from_slice(b"<h2 id=\"packages\">Packages</h2>\n<ul>\n")?;
    put_packages(alloc, page, shown.groups, shown.packages)?;
    page.extend_from_slice(b"</ul>\n")?;
    put_texts(alloc, page, shown.texts)?;
    page.extend_from_slice(b"</main>\n</body>\n</html>\n")?;
    Ok(())
}

#[tactic(auto, unfolding(crate::specs::Html::html_front))]
fn put_front(page: &mut Vec<u8>, title: &str) -> Result<(), AllocError>
    ensures { OnOk result (page.new.items ≡ page.old.items ++ html_front title.now) }
{
    page.extend_from_slice(HTML_HEAD.as_bytes())?;
    put_text(page, title)?;
    page.extend_from_slice(HTML_STYLE.as_bytes())?;
    put_text(page, title)?;
    page.extend_from_slice(b"</h1>\n")?;
    Ok(())
}

fn put_contents(alloc: Global, page: &mut Vec<u8>, shown: &Page<'_, '_>) -> Result<(), AllocError>
    ensures { OnOk result (page.new.items ≡ page.old.items
        ++ html_contents (told shown.now).bands (told shown.now).texts) }
{
    page.extend_from_slice(b"<nav>\n<h2>Licences</h2>\n<ol>\n")?;
    put_entries(alloc, page, shown.groups)?;
    page.extend_from_slice(b"</ol>\n<h2><a href=\"#packages\">Packages</a></h2>\n")?;
    put_text_contents(alloc, page, shown.texts)?;
    page.extend_from_slice(b"</nav>\n")?;
    Ok(())
}

// The texts in the table of contents, where there are any.
fn put_text_contents(
    alloc: Global,
    page: &mut Vec<u8>,
    texts: &[LicenseText<'_, '_>],
) -> Result<(), AllocError>
    ensures { OnOk result (page.new.items
        ≡ page.old.items ++ html_text_contents (map named texts.now)) }
{
    match texts {
        [] => Ok(()),
        [_, ..] => put_text_list(alloc, page, texts),
    }
}

#[tactic(auto, unfolding(crate::specs::Html::html_text_list))]
fn put_text_list(
    alloc: Global,
    page: &mut Vec<u8>,
    texts: &[LicenseText<'_, '_>],
) -> Result<(), AllocError>
    ensures { OnOk result (page.new.items
        ≡ page.old.items ++ html_text_list (map named texts.now)) }
{
    page.extend_from_slice(b"<h2>Licence texts</h2>\n<ol>\n")?;
    put_text_entries(alloc, page, texts)?;
    page.extend_from_slice(b"</ol>\n")?;
    Ok(())
}

/// Appends a number.
pub(crate) fn put_number(alloc: Global, page: &mut Vec<u8>, number: usize) -> Result<(), AllocError>
    ensures { OnOk result (page.new.items ≡ page.old.items ++ decimal number) }
{
    let digits = format!(in alloc; "{number}")?;
    page.extend_from_slice(digits.as_bytes())
}

fn put_entries(alloc: Global, page: &mut Vec<u8>, groups: &[Group<'_>]) -> Result<(), AllocError>
    ensures { OnOk result (page.new.items
        ≡ page.old.items ++ numbered html_entry 0 (bands_of groups.now)) }
{
    for (number, group) in groups.iter().enumerate() {
        put_entry(alloc, page, number, group)?;
    }
    Ok(())
}

#[tactic(auto, unfolding(crate::specs::Markup::html_entry))]
fn put_entry(
    alloc: Global,
    page: &mut Vec<u8>,
    number: usize,
    group: &Group<'_>,
) -> Result<(), AllocError>
    ensures { OnOk result (page.new.items
        ≡ page.old.items ++ html_entry number (band_of group.now)) }
{
    page.extend_from_slice(b"<li><a href=\"#l")?;
    put_number(alloc, page, number)?;
    page.extend_from_slice(b"\">")?;
    put_text(page, group.requirement)?;
    page.extend_from_slice(b"</a> <span>")?;
    put_package_count(alloc, page, group.packages.len())?;
    page.extend_from_slice(b"</span></li>\n")?;
    Ok(())
}

fn put_text_entries(
    alloc: Global,
    page: &mut Vec<u8>,
    texts: &[LicenseText<'_, '_>],
) -> Result<(), AllocError>
    ensures { OnOk result (page.new.items
        ≡ page.old.items ++ numbered html_text_entry 0 (map named texts.now)) }
{
    for (number, text) in texts.iter().enumerate() {
        put_text_entry(alloc, page, number, text)?;
    }
    Ok(())
}

#[tactic(auto, unfolding(crate::specs::Markup::html_text_entry))]
fn put_text_entry(
    alloc: Global,
    page: &mut Vec<u8>,
    number: usize,
    text: &LicenseText<'_, '_>,
) -> Result<(), AllocError>
    ensures { OnOk result (page.new.items
        ≡ page.old.items ++ html_text_entry number (named text.now)) }
{
    page.extend_from_slice(b"<li><a href=\"#t")?;
    put_number(alloc, page, number)?;
    page.extend_from_slice(b"\">")?;
    put_text(page, text.name)?;
    page.extend_from_slice(b"</a></li>\n")?;
    Ok(())
}

fn put_bands(alloc: Global, page: &mut Vec<u8>, groups: &[Group<'_>]) -> Result<(), AllocError>
    ensures { OnOk result (page.new.items
        ≡ page.old.items ++ numbered html_band 0 (bands_of groups.now)) }
{
    for (number, group) in groups.iter().enumerate() {
        put_band(alloc, page, number, group)?;
    }
    Ok(())
}

#[tactic(auto, unfolding(crate::specs::Markup::html_band))]
fn put_band(
    alloc: Global,
    page: &mut Vec<u8>,
    number: usize,
    group: &Group<'_>,
) -> Result<(), AllocError>
    ensures { OnOk result (page.new.items
        ≡ page.old.items ++ html_band number (band_of group.now)) }
{
    page.extend_from_slice(b"<section id=\"l")?;
    put_number(alloc, page, number)?;
    page.extend_from_slice(b"\">\n<h3>")?;
    put_text(page, group.requirement)?;
    page.extend_from_slice(b"</h3>\n<ul>\n")?;
    put_lines(page, &group.packages)?;
    page.extend_from_slice(b"</ul>\n</section>\n")?;
    Ok(())
}

fn put_lines(page: &mut Vec<u8>, packages: &[Release<'_>]) -> Result<(), AllocError>
    ensures { OnOk result (page.new.items
        ≡ page.old.items ++ flat_map html_line (map line_of packages.now)) }
{
    for release in packages {
        put_line(page, release)?;
    }
    Ok(())
}

#[tactic(auto, unfolding(crate::specs::Markup::html_line))]
fn put_line(page: &mut Vec<u8>, release: &Release<'_>) -> Result<(), AllocError>
    ensures { OnOk result (page.new.items ≡ page.old.items ++ html_line (line_of release.now)) }
{
    page.extend_from_slice(b"<li>")?;
    put_text(page, release.name)?;
    page.extend_from_slice(b" <span>")?;
    put_text(page, release.version)?;
    page.extend_from_slice(b"</span></li>\n")?;
    Ok(())
}

// The texts, where there are any.
fn put_texts<'t>(
    alloc: Global,
    page: &mut Vec<u8>,
    texts: &[LicenseText<'_, 't>],
) -> Result<(), PageError<'t>>
    ensures ok { OnOk result (page.new.items ≡ page.old.items ++ html_texts (map named texts.now)) }
    ensures err { IfErr result (IsTextRefusal (map named texts.now)) }
{
    match texts {
        [] => Ok(()),
        [_, ..] => put_text_part(alloc, page, texts),
    }
}

#[tactic(auto, unfolding(crate::specs::Html::html_text_part))]
fn put_text_part<'t>(
    alloc: Global,
    page: &mut Vec<u8>,
    texts: &[LicenseText<'_, 't>],
) -> Result<(), PageError<'t>>
    ensures ok { OnOk result (page.new.items
        ≡ page.old.items ++ html_text_part (map named texts.now)) }
    ensures err { IfErr result (IsTextRefusal (map named texts.now)) }
{
    page.extend_from_slice(b"<h2>Licence texts</h2>\n")?;
    put_each_text(alloc, page, texts)?;
    Ok(())
}

fn put_each_text<'t>(
    alloc: Global,
    page: &mut Vec<u8>,
    texts: &[LicenseText<'_, 't>],
) -> Result<(), PageError<'t>>
    ensures ok { OnOk result (page.new.items
        ≡ page.old.items ++ numbered html_text 0 (map named texts.now)) }
    ensures err { IfErr result (IsTextRefusal (map named texts.now)) }
{
    for (number, text) in texts.iter().enumerate() {
        let Ok(words) = str::from_utf8(text.bytes) else {
            return Err(PageError::NotUtf8(text.name));
        };
        put_folded(alloc, page, number, text, words)?;
    }
    Ok(())
}

// The packages that have a text, where there are any.
#[tactic(auto, unfolding(crate::specs::Markup::html_holders))]
fn put_holders(page: &mut Vec<u8>, packages: &[Release<'_>]) -> Result<(), AllocError>
    ensures { OnOk result (page.new.items
        ≡ page.old.items ++ html_holders (map line_of packages.now)) }
{
    match packages {
        [] => Ok(()),
        [_, ..] => {
            page.extend_from_slice(b"<ul>\n")?;
            put_lines(page, packages)?;
            page.extend_from_slice(b"</ul>\n")
        }
    }
}

#[tactic(auto, unfolding(crate::specs::Markup::html_text))]
fn put_folded(
    alloc: Global,
    page: &mut Vec<u8>,
    number: usize,
    text: &LicenseText<'_, '_>,
    words: &str,
) -> Result<(), AllocError>
    ensures { OnOk result (page.new.items ≡ page.old.items
        ++ html_text number (with_bytes text.now words.now)) }
{
    page.extend_from_slice(b"<details><summary>")?;
    put_text(page, text.name)?;
    page.extend_from_slice(b"</summary>\n")?;
    put_holders(page, text.packages)?;
    page.extend_from_slice(b"<pre id=\"t")?;
    put_number(alloc, page, number)?;
    page.extend_from_slice(b"\">\n")?;
    put_text(page, words)?;
    page.extend_from_slice(b"</pre>\n</details>\n")?;
    Ok(())
}
