// Names in lines, and counts.

ghost use Rattle.std.specs.Prelude.{◌≡◌, ◌++◌, OnOk, IfOk, string_bytes};
ghost use Rattle.notice_forms.specs.Told.{line_text, package_count};

use foreign_text::{Sink, text_for};
use std::alloc::{AllocError, Global};

/// Appends a name, which can't end its line.
pub(crate) fn put_line_text(alloc: Global, page: &mut Vec<u8>, text: &str) -> Result<(), AllocError>
    ensures { OnOk result (page.new.items ≡ page.old.items ++ line_text text.now) }
{
    let line = text_for(alloc, Sink::Line, text)?;
    page.extend_from_slice(line.as_bytes())
}

/// Appends how many packages there are.
pub(crate) fn put_package_count(
    alloc: Global,
    page: &mut Vec<u8>,
    count: usize,
) -> Result<(), AllocError>
    ensures { OnOk result (page.new.items ≡ page.old.items ++ package_count count) }
{
    let text = package_count(alloc, count)?;
    page.extend_from_slice(text.as_bytes())
}

#[tactic(auto, unfolding(crate::specs::Told::package_count))]
fn package_count(alloc: Global, count: usize) -> Result<String, AllocError>
    ensures { IfOk result (λ text. string_bytes text ≡ package_count count) }
{
    let ending = if count == 1 { "" } else { "s" };
    format!(in alloc; "{count} package{ending}")
}
