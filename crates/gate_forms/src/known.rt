// Refusals that are known.

ghost use Rattle.std.specs.Prelude.{◌≡◌, ◌++◌, OnOk, OnErr, IfOk, filter, string_bytes};
ghost use Rattle.gate_forms.specs.Known.{is_known, is_known_state, known_line, known_text, known_words};

use crate::reports::{Baseline, Report};
use crate::text::refusals::put_packages;
use crate::totals::put_counted;
use foreign_text::{Sink, put_text};
use std::alloc::{AllocError, Global};

impl Report<'_> {
    /// Whether it is a refusal that the baseline has too.
    pub fn is_known(&self) -> bool
        ensures { result ≡ is_known self.now }
    {
        self.verdict.is_refused() && self.baseline.is_known()
    }
}

impl Baseline {
    fn is_known(self) -> bool
        ensures { result ≡ is_known_state self }
    {
        matches!(self, Baseline::Known)
    }
}

/// Appends a line with the refusals that the baseline has too, in their order:
/// `2 packages known from old.json: ring 0.17.0, libc 0.2.9`. Where there are none nothing is said.
///
/// # Errors
///
/// Memory was refused, and the text is as it was.
pub fn put_known(
    alloc: Global,
    text: &mut Vec<u8>,
    baseline: &str,
    reports: &[Report<'_>],
) -> Result<(), AllocError>
    ensures ok { OnOk result (
        text.new.items ≡ text.old.items ++ known_text baseline.now reports.now) }
    ensures err { OnErr result (text.new.items ≡ text.old.items) }
{
    let known = known_among(alloc, reports)?;
    let line = known_line(alloc, baseline, &known)?;
    text.extend_from_slice(line.as_bytes())
}

fn known_among<'r>(alloc: Global, reports: &[Report<'r>]) -> Result<Vec<Report<'r>>, AllocError>
    ensures { IfOk result (λ known. known.items ≡ filter is_known reports.now) }
{
    let mut known = Vec::new(alloc);
    for report in reports {
        if report.is_known() {
            known.push(*report)?;
        }
    }
    Ok(known)
}

fn known_line(alloc: Global, baseline: &str, known: &[Report<'_>]) -> Result<String, AllocError>
    ensures { IfOk result (λ line. string_bytes line ≡ known_line baseline.now known.now) }
{
    let mut line = String::new(alloc);
    if known.is_empty() {
        return Ok(line);
    }
    put_words(&mut line, baseline, known)?;
    Ok(line)
}

fn put_words(line: &mut String, baseline: &str, known: &[Report<'_>]) -> Result<(), AllocError>
    ensures { OnOk result (
        string_bytes line.new ≡ string_bytes line.old ++ known_words baseline.now known.now) }
{
    put_counted(line, known.len() as u64, "package")?;
    line.push_str(" known from ")?;
    put_text(line, Sink::Line, baseline)?;
    line.push_str(": ")?;
    put_packages(line, known)?;
    line.push_str("\n")?;
    Ok(())
}
