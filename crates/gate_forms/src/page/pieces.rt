// Pieces of a page: a text of others between markup of ours.

ghost use Rattle.std.specs.Prelude.{◌≡◌, ◌++◌, OnOk, IfOk, codes, decimal, string_bytes};
ghost use Rattle.foreign_text.specs.PageText.{page_text};
ghost use Rattle.gate_forms.specs.Report.{advice_text, package_text, part_text, verdict_text};
ghost use Rattle.gate_forms.specs.Page.{depth_part, element, node_begins, node_part, sign_part};

use crate::messages::{put_advice, put_package, put_verdict};
use crate::reports::{Advice, Node, Part, Report};
use crate::text::tree::put_part;
use foreign_text::Sink;
use foreign_text::html::put_text;
use std::alloc::{AllocError, Global};

/// Appends markup, a text of others, and markup.
pub(crate) fn put_element(
    page: &mut Vec<u8>,
    before: &str,
    text: &str,
    after: &str,
) -> Result<(), AllocError>
    ensures { OnOk result (page.new.items ≡
        page.old.items ++ element page_text before.now text.now after.now) }
{
    page.extend_from_slice(before.as_bytes())?;
    put_text(page, text)?;
    page.extend_from_slice(after.as_bytes())?;
    Ok(())
}

/// Appends the number in digits.
pub(crate) fn put_decimal(alloc: Global, page: &mut Vec<u8>, number: u64) -> Result<(), AllocError>
    ensures { OnOk result (page.new.items ≡ page.old.items ++ decimal number) }
{
    let mut digits = String::new(alloc);
    match write!(digits, "{number}") {
        Ok(()) => page.extend_from_slice(digits.as_bytes()),
        Err(_) => Err(AllocError),
    }
}

pub(crate) fn package_words(alloc: Global, report: &Report<'_>) -> Result<String, AllocError>
    ensures { IfOk result (λ words. string_bytes words ≡ package_text Sink.Line report.now) }
{
    let mut words = String::new(alloc);
    put_package(&mut words, Sink::Line, report)?;
    Ok(words)
}

pub(crate) fn verdict_words(alloc: Global, report: &Report<'_>) -> Result<String, AllocError>
    ensures { IfOk result (λ words. string_bytes words ≡ verdict_text Sink.Line report.now) }
{
    let mut words = String::new(alloc);
    put_verdict(&mut words, Sink::Line, report)?;
    Ok(words)
}

pub(crate) fn advice_words(alloc: Global, advice: Advice<'_>) -> Result<String, AllocError>
    ensures { IfOk result (λ words. string_bytes words ≡ advice_text Sink.Line advice.entry) }
{
    let mut words = String::new(alloc);
    put_advice(&mut words, Sink::Line, advice)?;
    Ok(words)
}

fn part_words(alloc: Global, part: &Part<'_>) -> Result<String, AllocError>
    ensures { IfOk result (λ words. string_bytes words ≡ part_text Sink.Line part.now) }
{
    let mut words = String::new(alloc);
    put_part(&mut words, Sink::Line, part)?;
    Ok(words)
}

/// Appends a part of an expression as an item of its tree.
pub(crate) fn put_node_item(
    alloc: Global,
    page: &mut Vec<u8>,
    node: &Node<'_>,
) -> Result<(), AllocError>
    ensures { OnOk result (
        page.new.items ≡ page.old.items ++ node_part page_text node.now) }
{
    let words = part_words(alloc, &node.part)?;
    put_node_beginning(alloc, page, node)?;
    put_text(page, words.as_str())?;
    page.extend_from_slice(b"</li>\n")?;
    Ok(())
}

fn put_node_beginning(alloc: Global, page: &mut Vec<u8>, node: &Node<'_>) -> Result<(), AllocError>
    ensures { OnOk result (page.new.items ≡ page.old.items ++ node_begins node.now) }
{
    page.extend_from_slice(b"<li style=\"--d:")?;
    put_decimal(alloc, page, node.depth.min(24) as u64)?;
    put_sign_part(page, node.part.is_accepted())?;
    put_depth_part(alloc, page, node.depth)?;
    Ok(())
}

fn put_sign_part(page: &mut Vec<u8>, accepted: bool) -> Result<(), AllocError>
    ensures { OnOk result (page.new.items ≡ page.old.items ++ sign_part accepted) }
{
    if accepted {
        page.extend_from_slice(b"\" class=\"yes\"><b>+</b> ")
    } else {
        page.extend_from_slice(b"\" class=\"no\"><b>-</b> ")
    }
}

fn put_depth_part(alloc: Global, page: &mut Vec<u8>, depth: usize) -> Result<(), AllocError>
    ensures { OnOk result (page.new.items ≡ page.old.items ++ depth_part depth) }
{
    if depth <= 24 {
        return Ok(());
    }
    put_decimal(alloc, page, depth as u64)?;
    page.extend_from_slice(b": ")?;
    Ok(())
}
