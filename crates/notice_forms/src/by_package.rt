// The contents by package of the page of HTML.

ghost use Rattle.std.specs.Prelude.{◌≡◌, ◌++◌, OnOk, flat_map, map};
ghost use Rattle.license_notice.specs.Notices.{line_of, bands_of, names_of};
ghost use Rattle.license_notice.specs.Places.{ArePlaces};
ghost use Rattle.notice_forms.specs.Found.{found_at, links_at};
ghost use Rattle.notice_forms.specs.Markup.{html_version, html_link, html_package};

use crate::html::put_number;
use crate::places::group_places;
use foreign_text::html::put_text;
use license_notice::{Group, Place, Places, Release};
use std::alloc::{AllocError, Global};

/// Appends the packages, each with links to the requirements that it stands under.
pub(crate) fn put_packages<'t>(
    alloc: Global,
    page: &mut Vec<u8>,
    groups: &[Group<'t>],
    packages: &[Release<'t>],
) -> Result<(), AllocError>
    ensures { OnOk result (page.new.items ≡ page.old.items
        ++ flat_map (html_package (bands_of groups.now)) (map line_of packages.now)) }
{
    let places = group_places(alloc, groups)?;
    for release in packages {
        put_package(alloc, page, groups, &places, release)?;
    }
    Ok(())
}

#[tactic(auto, unfolding(crate::specs::Markup::html_package))]
fn put_package<'t>(
    alloc: Global,
    page: &mut Vec<u8>,
    groups: &[Group<'t>],
    places: &Places<'t>,
    release: &Release<'t>,
) -> Result<(), AllocError>
    requires { ArePlaces (map (λ b. b.lines) (bands_of groups.now)) places.now }
    ensures { OnOk result (page.new.items ≡ page.old.items
        ++ html_package (bands_of groups.now) (line_of release.now)) }
{
    page.extend_from_slice(b"<li>")?;
    put_text(page, release.name)?;
    put_version(page, release.version)?;
    put_links(alloc, page, groups, places.of(release))?;
    page.extend_from_slice(b"</li>\n")?;
    Ok(())
}

// A version, where there is one.
#[tactic(auto, unfolding(crate::specs::Markup::html_version))]
fn put_version(page: &mut Vec<u8>, version: &str) -> Result<(), AllocError>
    ensures { OnOk result (page.new.items ≡ page.old.items ++ html_version version.now) }
{
    if version.is_empty() {
        return Ok(());
    }
    page.extend_from_slice(b" <span>")?;
    put_text(page, version)?;
    page.extend_from_slice(b"</span>")
}

fn put_links(
    alloc: Global,
    page: &mut Vec<u8>,
    groups: &[Group<'_>],
    places: &[Place<'_>],
) -> Result<(), AllocError>
    ensures { OnOk result (page.new.items ≡ page.old.items
        ++ links_at (names_of (bands_of groups.now)) places.now) }
{
    for place in places {
        put_link_at(alloc, page, groups, place.number)?;
    }
    Ok(())
}

fn put_link_at(
    alloc: Global,
    page: &mut Vec<u8>,
    groups: &[Group<'_>],
    number: usize,
) -> Result<(), AllocError>
    ensures { OnOk result (page.new.items ≡ page.old.items
        ++ found_at html_link (names_of (bands_of groups.now)) number) }
{
    match groups.get(number) {
        Some(group) => put_link(alloc, page, number, group.requirement),
        None => Ok(()),
    }
}

#[tactic(auto, unfolding(crate::specs::Markup::html_link))]
fn put_link(
    alloc: Global,
    page: &mut Vec<u8>,
    number: usize,
    requirement: &str,
) -> Result<(), AllocError>
    ensures { OnOk result (page.new.items ≡ page.old.items ++ html_link number requirement.now) }
{
    page.extend_from_slice(b", <a href=\"#l")?;
    put_number(alloc, page, number)?;
    page.extend_from_slice(b"\">")?;
    put_text(page, requirement)?;
    page.extend_from_slice(b"</a>")?;
    Ok(())
}
