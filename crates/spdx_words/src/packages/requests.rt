// What the options are given, to the requests of the commands over packages.

ghost use Rattle.std.specs.Prelude.{◌≡◌, IfOk, IfSome, Some, codes, is_some, not};
ghost use Rattle.clap.specs.Matches.{found_of};
ghost use Rattle.clap.specs.Walk.{first_of, rows_of};
ghost use Rattle.spdx_words.specs.Said as said;
ghost use Rattle.spdx_words.specs.Unfit as unfit;

use crate::packages::request::{
    Accepted, ChangesFormat, ChangesRequest, GateFormat, GateRequest, NoticeRequest, OwnTexts,
    PageFormat, Source, SourceForm,
};
use crate::values::{all, has, value};
use clap::ArgMatches;
use std::alloc::{AllocError, Global};

/// What `gate` is asked for, by this policy.
pub(crate) fn gate_request<'w>(
    alloc: Global,
    matches: &ArgMatches<'w>,
    policy: &'w str,
) -> Result<GateRequest<'w>, AllocError>
    ensures { IfOk result (λ r.
        Some policy.entry.now ≡ first_of (codes "policy") (rows_of (found_of matches.now)) →
        said.IsGate (rows_of (found_of matches.now)) r) }
{
    Ok(GateRequest {
        list: value(matches, "list"),
        policy,
        source: source(matches),
        format: gate_format_in(matches),
        baseline: value(matches, "baseline"),
        explain: value(matches, "explain"),
        quiet: has(matches, "quiet"),
        allow_empty: has(matches, "allow-empty"),
        tells_unused: !has(matches, "no-unused"),
        exclude_own: has(matches, "exclude-own"),
        paths: all(alloc, matches, "PATH")?,
    })
}

/// The form in which verdicts are told.
pub(crate) fn gate_format_in(matches: &ArgMatches<'_>) -> GateFormat
    ensures { result ≡ said.gate_format_in (rows_of (found_of matches.now)) }
{
    match value(matches, "format") {
        Some(name) => gate_format(name),
        None => GateFormat::Human,
    }
}

/// What `notice` is asked for, where this is accepted.
pub(crate) fn notice_request<'w>(
    alloc: Global,
    matches: &ArgMatches<'w>,
    accepted: Accepted<'w>,
) -> Result<NoticeRequest<'w>, AllocError>
    ensures { IfOk result (λ r. said.IsAccepted (rows_of (found_of matches.now)) accepted.entry →
        said.IsNotice (rows_of (found_of matches.now)) r) }
{
    Ok(NoticeRequest {
        list: value(matches, "list"),
        accepted,
        source: source(matches),
        texts: value(matches, "texts"),
        own: own_texts(matches),
        is_strict: has(matches, "strict"),
        follow: has(matches, "follow"),
        plain: has(matches, "plain"),
        one_for_all: has(matches, "one-for-all"),
        exclude_own: has(matches, "exclude-own"),
        format: match value(matches, "format") {
            Some(name) => page_format(name),
            None => PageFormat::Text,
        },
        paths: all(alloc, matches, "PATH")?,
    })
}

fn own_texts<'w>(matches: &ArgMatches<'w>) -> OwnTexts<'w>
    ensures { said.IsOwn (rows_of (found_of matches.now)) result }
{
    if let Some(folder) = value(matches, "sources") {
        OwnTexts::Below(folder)
    } else if has(matches, "installed") {
        OwnTexts::Installed
    } else {
        OwnTexts::Left
    }
}

/// What `diff` is asked for, of these two files.
pub(crate) fn changes_request<'w>(
    matches: &ArgMatches<'w>,
    old: &'w str,
    new: &'w str,
) -> ChangesRequest<'w>
    ensures { Some old.entry.now ≡ first_of (codes "OLD") (rows_of (found_of matches.now)) →
        Some new.entry.now ≡ first_of (codes "NEW") (rows_of (found_of matches.now)) →
        said.IsChanges (rows_of (found_of matches.now)) result }
{
    ChangesRequest {
        list: value(matches, "list"),
        policy: value(matches, "policy"),
        source: source(matches),
        format: match value(matches, "format") {
            Some(name) => changes_format(name),
            None => ChangesFormat::Text,
        },
        allow_empty: has(matches, "allow-empty"),
        exclude_own: has(matches, "exclude-own"),
        tells_totals: !has(matches, "no-summary"),
        old,
        new,
    }
}

/// The two files between which changes are told.
pub(crate) fn files<'w>(matches: &ArgMatches<'w>) -> Option<(&'w str, &'w str)>
    ensures some { IfSome result (λ files.
        (Some files.0.now ≡ first_of (codes "OLD") (rows_of (found_of matches.now)))
        × (Some files.1.now ≡ first_of (codes "NEW") (rows_of (found_of matches.now)))) }
    ensures none { is_some result
        ≡ not (unfit.files_unfit (rows_of (found_of matches.now))) }
{
    Some((value(matches, "OLD")?, value(matches, "NEW")?))
}

/// What is accepted, if that is said.
pub(crate) fn accepted<'w>(matches: &ArgMatches<'w>) -> Option<Accepted<'w>>
    ensures some { IfSome result (said.IsAccepted (rows_of (found_of matches.now))) }
    ensures none { is_some result
        ≡ not (unfit.accepted_missing (rows_of (found_of matches.now))) }
{
    if let Some(list) = value(matches, "accept") {
        Some(Accepted::List(list, has(matches, "lax")))
    } else if let Some(file) = value(matches, "policy") {
        Some(Accepted::Policy(file))
    } else {
        None
    }
}

fn source<'w>(matches: &ArgMatches<'w>) -> Source<'w>
    ensures { said.IsSource (rows_of (found_of matches.now)) result }
{
    if let Some(each) = value(matches, "each") {
        Source::At {
            each,
            name: value(matches, "name").unwrap_or("/name"),
            version: value(matches, "package-version"),
            license: value(matches, "license").unwrap_or("/license"),
        }
    } else if let Some(form) = form_in(matches) {
        Source::Named(form)
    } else {
        Source::Auto
    }
}

/// The form of packages that is named.
pub(crate) fn form_in(matches: &ArgMatches<'_>) -> Option<SourceForm>
    ensures { result ≡ said.form_in (rows_of (found_of matches.now)) }
{
    match value(matches, "from") {
        Some(name) => form_named(has(matches, "header"), name),
        None => None,
    }
}

// The form of packages of that name.
fn form_named(header: bool, name: &str) -> Option<SourceForm>
    ensures { result ≡ said.form_named header name.now }
{
    if name == "lines" {
        Some(SourceForm::Lines)
    } else if name == "tsv" {
        Some(SourceForm::Tsv { header })
    } else if name == "csv" {
        Some(SourceForm::Csv { header })
    } else if name == "verdicts" {
        Some(SourceForm::Verdicts)
    } else if name == "cargo" {
        Some(SourceForm::Cargo)
    } else if name == "npm" {
        Some(SourceForm::Npm)
    } else if name == "composer" {
        Some(SourceForm::Composer)
    } else {
        other_form_named(name)
    }
}

fn other_form_named(name: &str) -> Option<SourceForm>
    ensures { result ≡ said.other_form_named name.now }
{
    if name == "pip" {
        Some(SourceForm::Pip)
    } else if name == "cyclonedx" {
        Some(SourceForm::CycloneDx)
    } else if name == "spdx" {
        Some(SourceForm::Spdx)
    } else if name == "spdx-3" {
        Some(SourceForm::SpdxThree)
    } else if name == "license-checker" {
        Some(SourceForm::LicenseChecker)
    } else if name == "pnpm" {
        Some(SourceForm::Pnpm)
    } else if name == "metadata" {
        Some(SourceForm::Metadata)
    } else {
        None
    }
}

fn gate_format(name: &str) -> GateFormat
    ensures { result ≡ said.gate_format name.now }
{
    if name == "short" {
        GateFormat::Short
    } else if name == "json" {
        GateFormat::Json
    } else if name == "github" {
        GateFormat::Github
    } else if name == "sarif" {
        GateFormat::Sarif
    } else if name == "html" {
        GateFormat::Html
    } else {
        GateFormat::Human
    }
}

fn changes_format(name: &str) -> ChangesFormat
    ensures { result ≡ said.change_format name.now }
{
    if name == "json" {
        ChangesFormat::Json
    } else if name == "markdown" {
        ChangesFormat::Markdown
    } else {
        ChangesFormat::Text
    }
}

fn page_format(name: &str) -> PageFormat
    ensures { result ≡ said.page_format name.now }
{
    if name == "markdown" {
        PageFormat::Markdown
    } else if name == "html" {
        PageFormat::Html
    } else if name == "json" {
        PageFormat::Json
    } else {
        PageFormat::Text
    }
}
