// Refused packages for people, equal refusals told once.

ghost use Rattle.std.specs.Prelude.{◌≡◌, ◌++◌, [], OnOk, OnErr, IfOk, map, filter, string_bytes};
ghost use Rattle.std.specs.List.{list_any};
ghost use Rattle.gate_forms.specs.Report.{package_text, separated};
ghost use Rattle.gate_forms.specs.Refusals.{also_line, refusals_text, told_text};
ghost use Rattle.gate_forms.specs.Tellings.{is_alike, refusal_told, refusals_told, report_of, words_of};

use crate::messages::{put_package, put_verdict};
use crate::reports::Report;
use crate::text::human::{put_reasons, refused_lines};
use finding_forms::Style;
use foreign_text::Sink;
use std::alloc::{AllocError, Global};

// A package, and what is told of it behind its name; nothing where it passes.
#[derive(Drop)]
struct Told<'r> {
    report: Report<'r>,
    words: String,
}

/// Appends the refused packages as people read them, in their order, each as by `put_human`, but that equal refusals are
/// told once: of packages with the same verdict, expression and reasons the first is told so, and the others are named
/// behind it, in a line `  also: serde 1.0.2, libc 0.2.9`.
///
/// # Errors
///
/// Memory was refused, and the text is as it was.
pub fn put_refusals(
    alloc: Global,
    text: &mut Vec<u8>,
    style: Style,
    reports: &[Report<'_>],
) -> Result<(), AllocError>
    ensures ok { OnOk result (
        text.new.items ≡ text.old.items ++ refusals_text style reports.now) }
    ensures err { OnErr result (text.new.items ≡ text.old.items) }
{
    let lines = lines_of(alloc, style, reports)?;
    text.extend_from_slice(lines.as_bytes())
}

fn lines_of(alloc: Global, style: Style, reports: &[Report<'_>]) -> Result<String, AllocError>
    ensures { IfOk result (λ lines. string_bytes lines ≡ refusals_text style reports.now) }
{
    let all = all_told(alloc, style, reports)?;
    refusals(alloc, style, &all)
}

// What is told of each package.
fn all_told<'r>(
    alloc: Global,
    style: Style,
    reports: &[Report<'r>],
) -> Result<Vec<Told<'r>>, AllocError>
    ensures reports { IfOk result (λ all. map report_of all.items ≡ reports.now) }
    ensures words { IfOk result (λ all.
        map words_of all.items ≡ map (told_text style) reports.now) }
{
    let mut all = Vec::new(alloc);
    for report in reports {
        let words = words_behind(alloc, style, report)?;
        all.push(Told {
            report: *report,
            words,
        })?;
    }
    Ok(all)
}

fn words_behind(alloc: Global, style: Style, report: &Report<'_>) -> Result<String, AllocError>
    ensures { IfOk result (λ words. string_bytes words ≡ told_text style report.now) }
{
    let mut words = String::new(alloc);
    if !report.verdict.is_refused() {
        return Ok(words);
    }
    put_verdict(&mut words, Sink::Line, report)?;
    words.push('\n')?;
    put_reasons(alloc, &mut words, style, report)?;
    Ok(words)
}

fn refusals(alloc: Global, style: Style, all: &[Told<'_>]) -> Result<String, AllocError>
    ensures { IfOk result (λ lines. string_bytes lines ≡ refusals_told style [] all.now) }
{
    let mut lines = String::new(alloc);
    for number in 0..all.len() {
        put_refusal(
            alloc,
            &mut lines,
            style,
            &all[..number],
            &all[number],
            &all[number + 1..],
        )?;
    }
    Ok(lines)
}

// Appends a package of which is told what is told of no earlier one, and the later ones of which the same is.
fn put_refusal(
    alloc: Global,
    lines: &mut String,
    style: Style,
    earlier: &[Told<'_>],
    told: &Told<'_>,
    later: &[Told<'_>],
) -> Result<(), AllocError>
    ensures { OnOk result (string_bytes lines.new ≡
        string_bytes lines.old ++ refusal_told style earlier.now told.now later.now) }
{
    if !told.report.verdict.is_refused() || is_among(earlier, told) {
        return Ok(());
    }
    let refused = refused_lines(alloc, style, &told.report)?;
    let alike = alike_among(alloc, told, later)?;
    lines.push_str(refused.as_str())?;
    put_also(lines, &alike)?;
    Ok(())
}

// Whether the same is told of one of these.
fn is_among(others: &[Told<'_>], told: &Told<'_>) -> bool
    ensures { result ≡ list_any (is_alike told.now) others.now }
{
    others.iter().any(|other| is_alike(told, other))
}

fn is_alike(told: &Told<'_>, other: &Told<'_>) -> bool
    ensures { result ≡ is_alike told.now other.now }
{
    other.words.as_str() == told.words.as_str()
}

// Those of which the same is told.
fn alike_among<'r>(
    alloc: Global,
    told: &Told<'_>,
    others: &[Told<'r>],
) -> Result<Vec<Report<'r>>, AllocError>
    ensures { IfOk result (λ alike.
        alike.items ≡ map report_of (filter (is_alike told.now) others.now)) }
{
    let mut alike = Vec::new(alloc);
    for other in others {
        if is_alike(told, other) {
            alike.push(other.report)?;
        }
    }
    Ok(alike)
}

fn put_also(lines: &mut String, reports: &[Report<'_>]) -> Result<(), AllocError>
    ensures { OnOk result (
        string_bytes lines.new ≡ string_bytes lines.old ++ also_line reports.now) }
{
    if reports.is_empty() {
        return Ok(());
    }
    lines.push_str("  also: ")?;
    put_packages(lines, reports)?;
    lines.push('\n')?;
    Ok(())
}

/// Appends the packages, with commas between them.
pub(crate) fn put_packages(lines: &mut String, reports: &[Report<'_>]) -> Result<(), AllocError>
    ensures { OnOk result (string_bytes lines.new ≡
        string_bytes lines.old ++ separated (package_text Sink.Line) reports.now) }
{
    let Some((first, others)) = reports.split_first() else {
        return Ok(());
    };
    put_package(lines, Sink::Line, first)?;
    for other in others {
        lines.push_str(", ")?;
        put_package(lines, Sink::Line, other)?;
    }
    Ok(())
}
