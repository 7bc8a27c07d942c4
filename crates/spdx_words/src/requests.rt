// What the options are given, to the requests of the commands over expressions and lists.

ghost use Rattle.std.specs.Prelude.{◌≡◌, IfOk, IfSome, codes, is_some, not};
ghost use Rattle.clap.specs.Matches.{found_of};
ghost use Rattle.clap.specs.Walk.{first_of, rows_of};
ghost use Rattle.spdx_words.specs.Said as said;
ghost use Rattle.spdx_words.specs.Unfit as unfit;

use crate::request::{
    CheckRequest, CompareRequest, DiffRequest, FindingFormat, FixRequest, MakeRequest, ShowRequest,
    SimplifyRequest, Wanted,
};
use crate::values::{all, has, value};
use clap::ArgMatches;
use std::alloc::{AllocError, Global};

pub(crate) fn check_request<'w>(
    alloc: Global,
    matches: &ArgMatches<'w>,
) -> Result<CheckRequest<'w>, AllocError>
    ensures { IfOk result (said.IsCheck (rows_of (found_of matches.now))) }
{
    Ok(CheckRequest {
        list: value(matches, "list"),
        format: match value(matches, "format") {
            Some(name) => finding_format(name),
            None => FindingFormat::Human,
        },
        is_lax: has(matches, "lax"),
        wanted: wanted_of(matches),
        texts: value(matches, "texts"),
        untagged: has(matches, "untagged"),
        quiet: has(matches, "quiet"),
        summary: !has(matches, "no-summary"),
        paths: all(alloc, matches, "PATH")?,
    })
}

// The three words exclude one another.
fn wanted_of<'w>(matches: &ArgMatches<'w>) -> Wanted<'w>
    ensures { said.IsWanted (rows_of (found_of matches.now)) result }
{
    if let Some(form) = value(matches, "as") {
        Wanted::Form(form)
    } else if has(matches, "headers") {
        Wanted::Headers
    } else if has(matches, "manifests") {
        Wanted::Manifests
    } else {
        Wanted::ByName
    }
}

fn finding_format(name: &str) -> FindingFormat
    ensures { result ≡ said.finding_format name.now }
{
    if name == "short" {
        FindingFormat::Short
    } else if name == "json" {
        FindingFormat::Json
    } else if name == "github" {
        FindingFormat::Github
    } else if name == "sarif" {
        FindingFormat::Sarif
    } else {
        FindingFormat::Human
    }
}

pub(crate) fn fix_request<'w>(
    alloc: Global,
    matches: &ArgMatches<'w>,
) -> Result<FixRequest<'w>, AllocError>
    ensures { IfOk result (said.IsFix (rows_of (found_of matches.now))) }
{
    Ok(FixRequest {
        list: value(matches, "list"),
        write: has(matches, "write"),
        break_links: has(matches, "break-links"),
        wanted: wanted_of(matches),
        paths: all(alloc, matches, "PATH")?,
    })
}

pub(crate) fn compare_request<'w>(matches: &ArgMatches<'w>) -> Option<CompareRequest<'w>>
    ensures some { IfSome result (said.IsCompare (rows_of (found_of matches.now))) }
    ensures none { is_some result ≡ not (unfit.compare_unfit (rows_of (found_of matches.now))) }
{
    Some(CompareRequest {
        list: value(matches, "list"),
        is_lax: has(matches, "lax"),
        one: value(matches, "ONE")?,
        other: value(matches, "OTHER")?,
    })
}

pub(crate) fn simplify_request<'w>(
    alloc: Global,
    matches: &ArgMatches<'w>,
) -> Result<SimplifyRequest<'w>, AllocError>
    ensures { IfOk result (said.IsSimplify (rows_of (found_of matches.now))) }
{
    Ok(SimplifyRequest {
        list: value(matches, "list"),
        is_lax: has(matches, "lax"),
        paths: all(alloc, matches, "PATH")?,
    })
}

pub(crate) fn show_request<'w>(
    alloc: Global,
    matches: &ArgMatches<'w>,
) -> Result<ShowRequest<'w>, AllocError>
    ensures { IfOk result (said.IsShow (rows_of (found_of matches.now))) }
{
    Ok(ShowRequest {
        list: value(matches, "list"),
        names: all(alloc, matches, "NAME")?,
    })
}

pub(crate) fn make_request<'w>(matches: &ArgMatches<'w>) -> Option<MakeRequest<'w>>
    ensures some { IfSome result (said.IsMake (rows_of (found_of matches.now))) }
    ensures none { is_some result ≡ not (unfit.make_unfit (rows_of (found_of matches.now))) }
{
    Some(MakeRequest {
        licenses: value(matches, "LICENSES")?,
        exceptions: value(matches, "EXCEPTIONS")?,
        extras: value(matches, "extras"),
    })
}

// Of one list alone it is the newer one.
pub(crate) fn diff_request<'w>(matches: &ArgMatches<'w>) -> Option<DiffRequest<'w>>
    ensures some { IfSome result (said.AreLists
        (first_of (codes "OLD") (rows_of (found_of matches.now)))
        (first_of (codes "NEW") (rows_of (found_of matches.now)))) }
    ensures none { is_some result ≡ not (unfit.differ_unfit (rows_of (found_of matches.now))) }
{
    let first = value(matches, "OLD")?;
    match value(matches, "NEW") {
        Some(new) => Some(DiffRequest {
            old: Some(first),
            new,
        }),
        None => Some(DiffRequest {
            old: None,
            new: first,
        }),
    }
}
