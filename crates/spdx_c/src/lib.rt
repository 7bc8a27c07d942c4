//! The calls of `spdx_calls` as C makes them: slices cross as a pointer and a length, answers as one struct of
//! numbers, and a list that was read as a handle.
//!
//! `c/spdx.c` stands before these exports, turns null pointers away, and lends a copy of the handle to each call
//! that reads its list. `c/spdx.h` says what each call does; `samples/` calls them.
//!
//! `handle` is a list that was read, behind a pointer, so that C can keep it between its calls. It stands on `spdx_calls`.
#![tactic(auto)]

ghost use Rattle.std.specs.Prelude.{◌≡◌, ◌≢◌, None};
ghost use Rattle.spdx_c.specs.Lists.{rows_of, rows_lent};
ghost use Rattle.spdx_c.specs.Modes.{IsOpening, IsClosing};
ghost use Rattle.spdx_c.specs.Calls.{IsReasonCall, IsCheck, IsCanonicalCall, IsFixCall, IsNormalCall, IsEvaluation, IsBitsCall, IsRequirementsCall, IsChoiceCall, IsLinesCall, IsSimplifyCall, IsCompareCall, IsListedCall};

pub mod handle;
mod loan;
mod opening;
mod parts;
pub mod report;
mod slot;

pub use crate::handle::{ListHandle, ListLoan};
pub use crate::loan::Seen;
use crate::opening::{line_mode_of, mode_of, read};
use crate::report::{
    Report, of_answered, of_check, of_fix, of_listing, of_put, of_relation, of_truth, plain,
};
use spdx_calls::buffer::put_text;
use std::alloc::Global;

/// Puts what the reason of this number says into the buffer.
#[unsafe(no_mangle)]
pub extern "C" fn spdx_slices_reason(number: u32, out: &mut [u8]) -> Report
    ensures call { IsReasonCall number out.old out.new result }
    ensures unwritten { result.status ≢ 0 → out.new ≡ out.old }
{
    match spdx_calls::reason_text(number) {
        Some(text) => of_put(Ok(put_text(text.as_bytes(), out))),
        None => plain(report::ARGUMENT),
    }
}

/// Reads a list into a closed handle.
#[unsafe(no_mangle)]
pub extern "C" fn spdx_slices_open(alloc: Global, list: &[u8], handle: &mut ListHandle) -> Report
    ensures { IsOpening list.now (rows_of handle.old) (rows_of handle.new) result }
{
    if handle.is_open() {
        return plain(report::ARGUMENT);
    }
    match read(alloc, list) {
        Ok(read) => {
            handle.put(read);
            plain(report::OK)
        }
        Err(fault) => fault,
    }
}

/// Closes a handle, and gives the memory of its list back.
#[unsafe(no_mangle)]
pub extern "C" fn spdx_slices_close(alloc: Global, handle: &mut ListHandle) -> Report
    ensures closed { rows_of handle.new ≡ None }
    ensures answer { IsClosing (rows_of handle.old) result }
{
    match handle.take(alloc) {
        Some(list) => {
            drop(list);
            plain(report::OK)
        }
        None => plain(report::ARGUMENT),
    }
}

/// Tells what the list says of a name.
#[unsafe(no_mangle)]
pub extern "C" fn spdx_slices_listed(list: &mut ListLoan, name: &[u8]) -> Report
    ensures call { IsListedCall (rows_lent list.old) name.now result }
    ensures kept { rows_lent list.new ≡ rows_lent list.old }
{
    let Some(seen) = list.take() else {
        return plain(report::ARGUMENT);
    };
    let report = of_listing(spdx_calls::listed(seen.get(), name));
    list.put_back(seen);
    report
}

/// Whether the text is an expression.
#[unsafe(no_mangle)]
pub extern "C" fn spdx_slices_check(
    alloc: Global,
    list: &mut ListLoan,
    mode: u32,
    text: &[u8],
) -> Report
    ensures call { IsCheck (rows_lent list.old) mode text.now result }
    ensures kept { rows_lent list.new ≡ rows_lent list.old }
{
    let Some(seen) = list.take() else {
        return plain(report::ARGUMENT);
    };
    let report = match mode_of(mode) {
        Some(mode) => of_check(spdx_calls::check(alloc, seen.get(), mode, text)),
        None => plain(report::ARGUMENT),
    };
    list.put_back(seen);
    report
}

/// Puts the canonical text of an expression into the buffer.
#[unsafe(no_mangle)]
pub extern "C" fn spdx_slices_canonical(
    alloc: Global,
    list: &mut ListLoan,
    mode: u32,
    text: &[u8],
    out: &mut [u8],
) -> Report
    ensures call { IsCanonicalCall (rows_lent list.old) mode text.now out.old out.new result }
    ensures unwritten { result.status ≢ 0 → out.new ≡ out.old }
    ensures kept { rows_lent list.new ≡ rows_lent list.old }
{
    let Some(seen) = list.take() else {
        return plain(report::ARGUMENT);
    };
    let report = match mode_of(mode) {
        Some(mode) => of_put(spdx_calls::canonical(alloc, seen.get(), mode, text, out)),
        None => plain(report::ARGUMENT),
    };
    list.put_back(seen);
    report
}

/// Puts the fix of a text into the buffer.
#[unsafe(no_mangle)]
pub extern "C" fn spdx_slices_fix(
    alloc: Global,
    list: &mut ListLoan,
    text: &[u8],
    out: &mut [u8],
) -> Report
    ensures call { IsFixCall (rows_lent list.old) text.now out.old out.new result }
    ensures unwritten { result.status ≢ 0 → out.new ≡ out.old }
    ensures kept { rows_lent list.new ≡ rows_lent list.old }
{
    let Some(seen) = list.take() else {
        return plain(report::ARGUMENT);
    };
    let report = of_fix(spdx_calls::fix(alloc, seen.get(), text, out));
    list.put_back(seen);
    report
}

/// Puts the normal text of an expression into the buffer.
#[unsafe(no_mangle)]
pub extern "C" fn spdx_slices_normal(
    alloc: Global,
    list: &mut ListLoan,
    mode: u32,
    text: &[u8],
    out: &mut [u8],
) -> Report
    ensures call { IsNormalCall (rows_lent list.old) mode text.now out.old out.new result }
    ensures unwritten { result.status ≢ 0 → out.new ≡ out.old }
    ensures kept { rows_lent list.new ≡ rows_lent list.old }
{
    let Some(seen) = list.take() else {
        return plain(report::ARGUMENT);
    };
    let report = match mode_of(mode) {
        Some(mode) => of_put(spdx_calls::normal(alloc, seen.get(), mode, text, out)),
        None => plain(report::ARGUMENT),
    };
    list.put_back(seen);
    report
}

/// Puts the meaning text of an expression into the buffer.
#[unsafe(no_mangle)]
pub extern "C" fn spdx_slices_simplify(
    alloc: Global,
    list: &mut ListLoan,
    mode: u32,
    text: &[u8],
    out: &mut [u8],
) -> Report
    ensures call { IsSimplifyCall (rows_lent list.old) mode text.now out.old out.new result }
    ensures unwritten { result.status ≢ 0 → out.new ≡ out.old }
    ensures kept { rows_lent list.new ≡ rows_lent list.old }
{
    let Some(seen) = list.take() else {
        return plain(report::ARGUMENT);
    };
    let report = match mode_of(mode) {
        Some(mode) => of_put(spdx_calls::simplify(alloc, seen.get(), mode, text, out)),
        None => plain(report::ARGUMENT),
    };
    list.put_back(seen);
    report
}

/// Tells how what two expressions ask compares.
#[unsafe(no_mangle)]
pub extern "C" fn spdx_slices_compare(
    alloc: Global,
    list: &mut ListLoan,
    mode: u32,
    one: &[u8],
    other: &[u8],
) -> Report
    ensures call { IsCompareCall (rows_lent list.old) mode one.now other.now result }
    ensures kept { rows_lent list.new ≡ rows_lent list.old }
{
    let Some(seen) = list.take() else {
        return plain(report::ARGUMENT);
    };
    let report = match mode_of(mode) {
        Some(mode) => of_relation(spdx_calls::compare(alloc, seen.get(), mode, one, other)),
        None => plain(report::ARGUMENT),
    };
    list.put_back(seen);
    report
}

/// Whether those who hold the licensees, one on each line, may use what comes under the expression.
#[unsafe(no_mangle)]
pub extern "C" fn spdx_slices_evaluate(
    alloc: Global,
    list: &mut ListLoan,
    mode: u32,
    text: &[u8],
    licensees: &[u8],
) -> Report
    ensures call { IsEvaluation (rows_lent list.old) mode text.now licensees.now result }
    ensures kept { rows_lent list.new ≡ rows_lent list.old }
{
    let Some(seen) = list.take() else {
        return plain(report::ARGUMENT);
    };
    let report = match mode_of(mode) {
        Some(mode) => { of_truth(spdx_calls::evaluate(alloc, seen.get(), mode, text, licensees)) }
        None => plain(report::ARGUMENT),
    };
    list.put_back(seen);
    report
}

/// Whether the expression is true where bit `i` tells whether requirement `i`, from the left, is met.
#[unsafe(no_mangle)]
pub extern "C" fn spdx_slices_evaluate_bits(
    alloc: Global,
    list: &mut ListLoan,
    mode: u32,
    text: &[u8],
    bits: &[u8],
    count: usize,
) -> Report
    ensures call { IsBitsCall (rows_lent list.old) mode text.now bits.now count result }
    ensures kept { rows_lent list.new ≡ rows_lent list.old }
{
    let Some(seen) = list.take() else {
        return plain(report::ARGUMENT);
    };
    let report = match mode_of(mode) {
        Some(mode) => {
            of_truth(spdx_calls::evaluate_bits(alloc, seen.get(), mode, text, bits, count))
        }
        None => plain(report::ARGUMENT),
    };
    list.put_back(seen);
    report
}

/// Puts the requirements of an expression into the buffer, from left to right, one on each line.
#[unsafe(no_mangle)]
pub extern "C" fn spdx_slices_requirements(
    alloc: Global,
    list: &mut ListLoan,
    mode: u32,
    text: &[u8],
    out: &mut [u8],
) -> Report
    ensures call { IsRequirementsCall (rows_lent list.old) mode text.now out.old out.new result }
    ensures unwritten { result.status ≢ 0 → out.new ≡ out.old }
    ensures kept { rows_lent list.new ≡ rows_lent list.old }
{
    let Some(seen) = list.take() else {
        return plain(report::ARGUMENT);
    };
    let report = match mode_of(mode) {
        Some(mode) => of_put(spdx_calls::requirements(alloc, seen.get(), mode, text, out)),
        None => plain(report::ARGUMENT),
    };
    list.put_back(seen);
    report
}

/// Puts the requirements of the least choice among the licensees into the buffer, one on each line.
#[unsafe(no_mangle)]
pub extern "C" fn spdx_slices_choose(
    alloc: Global,
    list: &mut ListLoan,
    mode: u32,
    text: &[u8],
    licensees: &[u8],
    out: &mut [u8],
) -> Report
    ensures call { IsChoiceCall (rows_lent list.old) mode text.now licensees.now
        out.old out.new result }
    ensures unwritten { result.status ≢ 0 → out.new ≡ out.old }
    ensures kept { rows_lent list.new ≡ rows_lent list.old }
{
    let Some(seen) = list.take() else {
        return plain(report::ARGUMENT);
    };
    let report = match mode_of(mode) {
        Some(mode) => { of_put(spdx_calls::choose(alloc, seen.get(), mode, text, licensees, out)) }
        None => plain(report::ARGUMENT),
    };
    list.put_back(seen);
    report
}

/// Puts the verdicts of all lines of the input into the buffer: what `spdx_lines` writes.
#[unsafe(no_mangle)]
pub extern "C" fn spdx_slices_lines(
    alloc: Global,
    list: &mut ListLoan,
    mode: u32,
    licensees: &[u8],
    input: &[u8],
    out: &mut [u8],
) -> Report
    ensures call { IsLinesCall (rows_lent list.old) mode licensees.now input.now
        out.old out.new result }
    ensures unwritten { result.status ≢ 0 → out.new ≡ out.old }
    ensures kept { rows_lent list.new ≡ rows_lent list.old }
{
    let Some(seen) = list.take() else {
        return plain(report::ARGUMENT);
    };
    let report = match line_mode_of(mode) {
        Some(mode) => {
            of_answered(spdx_calls::lines(alloc, seen.get(), mode, licensees, input, out))
        }
        None => plain(report::ARGUMENT),
    };
    list.put_back(seen);
    report
}
