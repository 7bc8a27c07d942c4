// The page of HTML.

ghost use Rattle.std.specs.Prelude.{◌≡◌, ◌++◌, OnOk, OnErr, IfOk, flat_map};
ghost use Rattle.foreign_text.specs.PageHead.{BeginsPlainly};
ghost use Rattle.foreign_text.specs.PageText.{page_text};
ghost use Rattle.gate_forms.specs.Page.{allowed_part, allowed_section, expression_part, head_part, in_allowed, in_refused, in_unstated, item_sign, left_out, marks, news_part, page_with, refused_part, refused_section, title_part, tree_part, unstated_part, unstated_section, why_part};

pub(crate) mod pieces;
pub(crate) mod top;

use crate::page::pieces::{
    advice_words, package_words, put_decimal, put_element, put_node_item, verdict_words,
};
use crate::page::top::put_top;
use crate::reports::{Baseline, Node, Report, Totals, Verdict, Why};
use crate::totals::totals_words;
use std::alloc::{AllocError, Global};

/// Appends a page of HTML of the verdicts: the totals, the refused packages with the tree of their expressions and what
/// would help, those without a licence, and, folded, the allowed ones. Of each refusal it says whether it is new or
/// known, where there is a baseline. It needs no script and nothing beside it. What is
/// accepted in a tree stands behind `+`, and what is not behind `-`, besides the colour. No text of the reports adds
/// markup: `<`, `>` and quotes stand in the page as if each text were left out. Its head (`head`) loads nothing, runs
/// nothing, and has a style that hides nothing.
///
/// # Errors
///
/// Memory was refused, and the text is as it was.
pub fn put_page(
    alloc: Global,
    text: &mut Vec<u8>,
    policy: &str,
    totals: &Totals,
    reports: &[Report<'_>],
) -> Result<(), AllocError>
    ensures ok { OnOk result (text.new.items ≡
        text.old.items ++ page_with page_text policy.now totals.now reports.now) }
    ensures err { OnErr result (text.new.items ≡ text.old.items) }
    ensures no_markup { marks (page_with page_text policy.now totals.now reports.now)
        ≡ marks (page_with left_out policy.now totals.now reports.now) }
    ensures head { BeginsPlainly (page_with page_text policy.now totals.now reports.now) }
{
    let page = whole_page(alloc, policy, totals, reports)?;
    text.extend_from_slice(page.as_slice())
}

fn whole_page(
    alloc: Global,
    policy: &str,
    totals: &Totals,
    reports: &[Report<'_>],
) -> Result<Vec<u8>, AllocError>
    ensures { IfOk result (λ page. page.items
        ≡ page_with page_text policy.now totals.now reports.now) }
{
    let mut page = Vec::new(alloc);
    put_top(&mut page)?;
    put_title(alloc, &mut page, policy, totals)?;
    put_refused(alloc, &mut page, totals, reports)?;
    put_unstated(alloc, &mut page, totals, reports)?;
    put_allowed(alloc, &mut page, totals, reports)?;
    page.extend_from_slice(b"</main>\n</body>\n</html>\n")?;
    Ok(page)
}

fn put_title(
    alloc: Global,
    page: &mut Vec<u8>,
    policy: &str,
    totals: &Totals,
) -> Result<(), AllocError>
    ensures { OnOk result (page.new.items ≡
        page.old.items ++ title_part page_text policy.now totals.now) }
{
    let words = totals_words(alloc, totals)?;
    put_element(page, "<h1>Licences by ", policy, "</h1>\n")?;
    put_element(page, "<p>", words.as_str(), "</p>\n")?;
    Ok(())
}

fn put_refused(
    alloc: Global,
    page: &mut Vec<u8>,
    totals: &Totals,
    reports: &[Report<'_>],
) -> Result<(), AllocError>
    ensures { OnOk result (page.new.items ≡
        page.old.items ++ refused_section page_text totals.now reports.now) }
{
    page.extend_from_slice(b"<section>\n<h2>Refused: ")?;
    put_decimal(alloc, page, totals.refused)?;
    page.extend_from_slice(b"</h2>\n")?;
    put_refused_items(alloc, page, reports)?;
    page.extend_from_slice(b"</section>\n")?;
    Ok(())
}

fn put_refused_items(
    alloc: Global,
    page: &mut Vec<u8>,
    reports: &[Report<'_>],
) -> Result<(), AllocError>
    ensures { OnOk result (page.new.items ≡
        page.old.items ++ flat_map (λ r. in_refused page_text r r.verdict) reports.now) }
{
    for report in reports {
        put_if_refused(alloc, page, report)?;
    }
    Ok(())
}

fn put_if_refused(alloc: Global, page: &mut Vec<u8>, report: &Report<'_>) -> Result<(), AllocError>
    ensures { OnOk result (page.new.items ≡
        page.old.items ++ in_refused page_text report.now report.now.verdict) }
{
    match report.verdict {
        Verdict::Refused => put_refused_item(alloc, page, report),
        Verdict::Allowed | Verdict::ByException | Verdict::Unstated { .. } => Ok(()),
    }
}

fn put_refused_item(
    alloc: Global,
    page: &mut Vec<u8>,
    report: &Report<'_>,
) -> Result<(), AllocError>
    ensures { OnOk result (
        page.new.items ≡ page.old.items ++ refused_part page_text report.now) }
{
    put_item_head(alloc, page, report)?;
    put_element(page, "<pre>", report.expression, "</pre>\n")?;
    put_tree(alloc, page, report.nodes)?;
    put_why_part(alloc, page, report)?;
    page.extend_from_slice(b"</article>\n")?;
    Ok(())
}

fn put_item_head(alloc: Global, page: &mut Vec<u8>, report: &Report<'_>) -> Result<(), AllocError>
    ensures { OnOk result (page.new.items ≡ page.old.items ++ head_part page_text report.now) }
{
    let package = package_words(alloc, report)?;
    let verdict = verdict_words(alloc, report)?;
    put_element(page, "<article>\n<h3>", package.as_str(), "</h3>\n")?;
    put_news(page, report.baseline)?;
    put_element(page, "<p class=\"file\">", report.file, "</p>\n")?;
    put_element(
        page,
        "<p class=\"no\"><b>-</b> ",
        verdict.as_str(),
        "</p>\n",
    )?;
    Ok(())
}

// Whether the refusal is known, where there is a baseline.
fn put_news(page: &mut Vec<u8>, baseline: Baseline) -> Result<(), AllocError>
    ensures { OnOk result (page.new.items ≡ page.old.items ++ news_part baseline) }
{
    match baseline {
        Baseline::Absent => Ok(()),
        Baseline::New => page.extend_from_slice(b"<b>new</b>\n"),
        Baseline::Known => page.extend_from_slice(b"<span class=\"file\">known</span>\n"),
    }
}

fn put_tree(alloc: Global, page: &mut Vec<u8>, nodes: &[Node<'_>]) -> Result<(), AllocError>
    ensures { OnOk result (page.new.items ≡ page.old.items ++ tree_part page_text nodes.now) }
{
    page.extend_from_slice(b"<ul class=\"tree\">\n")?;
    for node in nodes {
        put_node_item(alloc, page, node)?;
    }
    page.extend_from_slice(b"</ul>\n")?;
    Ok(())
}

fn put_why_part(alloc: Global, page: &mut Vec<u8>, report: &Report<'_>) -> Result<(), AllocError>
    ensures { OnOk result (
        page.new.items ≡ page.old.items ++ why_part page_text report.now.why) }
{
    match report.why {
        Why::Nothing => Ok(()),
        Why::Fault { reason, .. } => put_element(page, "<p class=\"no\">", reason, "</p>\n"),
        Why::Missing { advice, .. } => {
            let words = advice_words(alloc, advice)?;
            put_element(page, "<p class=\"advice\">", words.as_str(), "</p>\n")?;
            Ok(())
        }
    }
}

fn put_unstated(
    alloc: Global,
    page: &mut Vec<u8>,
    totals: &Totals,
    reports: &[Report<'_>],
) -> Result<(), AllocError>
    ensures { OnOk result (page.new.items ≡
        page.old.items ++ unstated_section page_text totals.now reports.now) }
{
    page.extend_from_slice(b"<section>\n<h2>Without a licence: ")?;
    put_decimal(alloc, page, totals.unstated)?;
    page.extend_from_slice(b"</h2>\n<ul>\n")?;
    put_unstated_items(alloc, page, reports)?;
    page.extend_from_slice(b"</ul>\n</section>\n")?;
    Ok(())
}

fn put_unstated_items(
    alloc: Global,
    page: &mut Vec<u8>,
    reports: &[Report<'_>],
) -> Result<(), AllocError>
    ensures { OnOk result (page.new.items ≡
        page.old.items ++ flat_map (λ r. in_unstated page_text r r.verdict) reports.now) }
{
    for report in reports {
        put_if_unstated(alloc, page, report)?;
    }
    Ok(())
}

fn put_if_unstated(alloc: Global, page: &mut Vec<u8>, report: &Report<'_>) -> Result<(), AllocError>
    ensures { OnOk result (page.new.items ≡
        page.old.items ++ in_unstated page_text report.now report.now.verdict) }
{
    match report.verdict {
        Verdict::Unstated { allowed } => put_unstated_item(alloc, page, allowed, report),
        Verdict::Allowed | Verdict::ByException | Verdict::Refused => Ok(()),
    }
}

fn put_unstated_item(
    alloc: Global,
    page: &mut Vec<u8>,
    allowed: bool,
    report: &Report<'_>,
) -> Result<(), AllocError>
    ensures { OnOk result (
        page.new.items ≡ page.old.items ++ unstated_part page_text allowed report.now) }
{
    let package = package_words(alloc, report)?;
    put_element(page, item_sign(allowed), package.as_str(), " ")?;
    put_news(page, report.baseline)?;
    put_element(page, "<span class=\"file\">", report.file, "</span></li>\n")?;
    Ok(())
}

fn item_sign(accepted: bool) -> &'static str
    ensures { result.now ≡ item_sign accepted }
{
    if accepted {
        "<li class=\"yes\"><b>+</b> "
    } else {
        "<li class=\"no\"><b>-</b> "
    }
}

fn put_allowed(
    alloc: Global,
    page: &mut Vec<u8>,
    totals: &Totals,
    reports: &[Report<'_>],
) -> Result<(), AllocError>
    ensures { OnOk result (page.new.items ≡
        page.old.items ++ allowed_section page_text totals.now reports.now) }
{
    page.extend_from_slice(b"<details>\n<summary><h2>Allowed: ")?;
    put_decimal(alloc, page, totals.allowed)?;
    page.extend_from_slice(b"</h2></summary>\n<ul>\n")?;
    put_allowed_items(alloc, page, reports)?;
    page.extend_from_slice(b"</ul>\n</details>\n")?;
    Ok(())
}

fn put_allowed_items(
    alloc: Global,
    page: &mut Vec<u8>,
    reports: &[Report<'_>],
) -> Result<(), AllocError>
    ensures { OnOk result (page.new.items ≡
        page.old.items ++ flat_map (λ r. in_allowed page_text r r.verdict) reports.now) }
{
    for report in reports {
        put_if_allowed(alloc, page, report)?;
    }
    Ok(())
}

fn put_if_allowed(alloc: Global, page: &mut Vec<u8>, report: &Report<'_>) -> Result<(), AllocError>
    ensures { OnOk result (page.new.items ≡
        page.old.items ++ in_allowed page_text report.now report.now.verdict) }
{
    match report.verdict {
        Verdict::Allowed | Verdict::ByException => put_allowed_item(alloc, page, report),
        Verdict::Refused | Verdict::Unstated { .. } => Ok(()),
    }
}

fn put_allowed_item(
    alloc: Global,
    page: &mut Vec<u8>,
    report: &Report<'_>,
) -> Result<(), AllocError>
    ensures { OnOk result (
        page.new.items ≡ page.old.items ++ allowed_part page_text report.now) }
{
    let package = package_words(alloc, report)?;
    let verdict = verdict_words(alloc, report)?;
    put_element(page, "<li class=\"yes\"><b>+</b> ", package.as_str(), ": ")?;
    put_element(page, "", report.expression, " ")?;
    put_element(
        page,
        "<span class=\"file\">",
        verdict.as_str(),
        "</span></li>\n",
    )?;
    Ok(())
}
