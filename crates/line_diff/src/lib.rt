//! The difference of two texts, as a unified diff that `patch` and `git apply` take.
//!
//! The lines are compared place by place, as suits a text some of whose lines were rewritten: moved lines are not
//! looked for, and each old line stands directly before the new one.
//!
//! ```rust
//! // crates/test_packages/src/tags/answers.rt
//! put_diff(alloc, &mut diff, "f", &old, &new)?;
//! ```
//!
//! It stands on `foreign_text` alone.
#![tactic(auto)]

ghost use Rattle.std.specs.Prelude.{◌≡◌, ◌++◌, OnOk, Some};
ghost use Rattle.line_diff.specs.Applied.{applied};
ghost use Rattle.line_diff.specs.Diff.{AreTheTexts, NamesThisFile, names_text, rows_of, diff_of};

mod hunks;
mod rows;

use crate::hunks::put_rows;
use crate::rows::{any_changed, rows_of};
use foreign_text::put_header_name;
use std::alloc::{AllocError, Global};

#[tactic(auto, unfolding(crate::specs::Diff::names_text))]
fn put_names(alloc: Global, text: &mut Vec<u8>, name: &str) -> Result<(), AllocError>
    ensures { OnOk result (text.new.items ≡ text.old.items ++ names_text name.now) }
{
    let old = format!(in alloc; "a/{name}")?;
    let new = format!(in alloc; "b/{name}")?;
    text.extend_from_slice(b"--- ")?;
    put_header_name(text, old.as_str())?;
    text.extend_from_slice(b"+++ ")?;
    put_header_name(text, new.as_str())
}

/// Appends the unified diff of two texts behind `text`, with three lines of context, under the names `a/NAME` and
/// `b/NAME`. These are written as git writes them, so that whatever a name holds, its line is read as this name. Of equal
/// texts it appends nothing. The diff, applied to the old text line by line, gives the new one. Linear.
///
/// # Errors
///
/// Memory was refused; then a beginning was appended.
pub fn put_diff(
    alloc: Global,
    text: &mut Vec<u8>,
    name: &str,
    old: &[u8],
    new: &[u8],
) -> Result<(), AllocError>
    ensures ok { OnOk result (text.new.items
        ≡ text.old.items ++ diff_of name.now (rows_of old.now new.now)) }
    ensures names { NamesThisFile name.now }
    ensures texts { AreTheTexts old.now new.now (rows_of old.now new.now) }
    ensures applies { applied (diff_of name.now (rows_of old.now new.now)) old.now ≡ Some new.now }
{
    let rows = rows_of(alloc, old, new)?;
    if !any_changed(&rows) {
        return Ok(());
    }
    put_names(alloc, text, name)?;
    put_rows(alloc, text, &rows)
}
