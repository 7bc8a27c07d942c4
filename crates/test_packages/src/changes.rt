// What changed between two lists of packages, how the license of one changed, and how it is written.
//
// A row has one of three forms:
//
//     changes PACKAGES | PACKAGES => CHANGES
//     license LICENSE | LICENSE => CHANGE
//     FORM HOW/NAME/RELEASE/RELEASE/BEFORE/NOW => WRITTEN
//
// PACKAGES are `NAME:VERSION:LICENSE` with `, ` between. CHANGES are `= OLD > NEW`, `- OLD` and `+ NEW`. A CHANGE is `kept`,
// `rewritten`, a word for machines with what was enough before and what is enough now, or `untold` with the reason of each side.
// FORM is `text`, `json` or `markdown`, HOW a word for machines, a RELEASE is `VERSION:LICENSE` or nothing, and in WRITTEN `~`
// stands for a newline. The wanted changes were found by queues of each name in another language, the written texts by hand.

mod licenses;

use crate::changes::licenses::license;
use package_changes::{
    Change, Format, How, Package, Reason, Release, Telling, changes_between, put_changes,
};
use spdx_catalogue::Catalogue;
use std::alloc::{AllocError, Global};

/// The answer to what stands before the arrow.
pub(crate) fn answer(
    alloc: Global,
    catalogue: &Catalogue,
    asked: &str,
) -> Result<String, AllocError> {
    let (word, rest) = asked.split_once(' ').unwrap_or((asked, ""));
    match word {
        "changes" => changes(alloc, rest),
        "license" => license(alloc, catalogue, rest),
        "text" => written(alloc, Format::Text, rest),
        "json" => written(alloc, Format::Json, rest),
        "markdown" => written(alloc, Format::Markdown, rest),
        _ => String::from_str(alloc, "no such row"),
    }
}

fn changes(alloc: Global, lists: &str) -> Result<String, AllocError> {
    let (old, new) = lists.split_once(" | ").unwrap_or((lists, ""));
    let old = packages_of(alloc, old)?;
    changes_from(alloc, &old, new)
}

fn changes_from(alloc: Global, old: &[Package<'_>], new: &str) -> Result<String, AllocError> {
    let new = packages_of(alloc, new)?;
    let changes = changes_between(alloc, old, &new)?;
    listed(alloc, &changes)
}

fn listed(alloc: Global, changes: &[Change<'_>]) -> Result<String, AllocError> {
    let mut shown = String::new(alloc);
    for change in changes {
        if !shown.is_empty() {
            shown.push_str(", ")?;
        }
        put_change(alloc, &mut shown, change)?;
    }
    Ok(shown)
}

fn packages_of<'t>(alloc: Global, text: &'t str) -> Result<Vec<Package<'t>>, AllocError> {
    let mut packages = Vec::new(alloc);
    for one in text.split(", ") {
        if !one.is_empty() {
            let (name, rest) = one.split_once(':').unwrap_or((one, ""));
            let (version, license) = rest.split_once(':').unwrap_or((rest, ""));
            packages.push(Package {
                name,
                version,
                license,
            })?;
        }
    }
    Ok(packages)
}

fn put_change(alloc: Global, shown: &mut String, change: &Change<'_>) -> Result<(), AllocError> {
    match change {
        Change::Stayed { old, new } => {
            put_package(alloc, shown, "= ", old)?;
            put_package(alloc, shown, " > ", new)
        }
        Change::Went(old) => put_package(alloc, shown, "- ", old),
        Change::Came(new) => put_package(alloc, shown, "+ ", new),
    }
}

fn put_package(
    alloc: Global,
    shown: &mut String,
    sign: &str,
    package: &Package<'_>,
) -> Result<(), AllocError> {
    let (name, version, license) = (package.name, package.version, package.license);
    let text = format!(in alloc; "{sign}{name}:{version}:{license}")?;
    shown.push_str(text.as_str())
}

fn written(alloc: Global, format: Format, told: &str) -> Result<String, AllocError> {
    let mut tellings = Vec::new(alloc);
    if !told.is_empty() {
        tellings.push(telling_of(told))?;
    }
    let mut text = Vec::new(alloc);
    put_changes(alloc, &mut text, format, &tellings)?;
    on_one_line(alloc, &text)
}

fn on_one_line(alloc: Global, text: &[u8]) -> Result<String, AllocError> {
    let text = String::from_utf8_lossy(alloc, text)?;
    let mut shown = String::new(alloc);
    for piece in text.as_str().chars() {
        shown.push(if piece == '\n' { '~' } else { piece })?;
    }
    Ok(shown)
}

fn telling_of<'t>(told: &'t str) -> Telling<'t> {
    let (how, rest) = told.split_once('/').unwrap_or((told, ""));
    let (name, rest) = rest.split_once('/').unwrap_or((rest, ""));
    let (old, rest) = rest.split_once('/').unwrap_or((rest, ""));
    let (new, rest) = rest.split_once('/').unwrap_or((rest, ""));
    let (enough_before, enough_now) = rest.split_once('/').unwrap_or((rest, ""));
    let how = how_of(how);
    Telling {
        how,
        name,
        old: release_of(old),
        new: release_of(new),
        enough_before,
        enough_now,
        untold_before: if how == How::Untold {
            Reason::Unread
        } else {
            Reason::Told
        },
        untold_now: Reason::Told,
        is_refused: how == How::More,
    }
}

fn how_of(word: &str) -> How {
    match word {
        "came" => How::Came,
        "went" => How::Went,
        "rewritten" => How::Rewritten,
        "same-meaning" => How::SameMeaning,
        "more" => How::More,
        "less" => How::Less,
        "other" => How::Other,
        _ => How::Untold,
    }
}

fn release_of<'t>(text: &'t str) -> Option<Release<'t>> {
    let (version, license) = text.split_once(':')?;
    Some(Release { version, license })
}
