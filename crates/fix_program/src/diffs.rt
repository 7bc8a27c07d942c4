// The diff that mends a file.

ghost use Rattle.std.specs.Prelude.{◌≡◌, IfOk, map, option_map, string_bytes};
ghost use Rattle.line_diff.specs.Diff.{diff_of, rows_of};
ghost use Rattle.fix_program.specs.Diffs as spec;

use line_diff::put_diff;
use std::alloc::{AllocError, Global};

/// The path as a diff names it, without slashes at its start and without `.`, as `git apply` wants it; none where it leads above
/// the folder of the diff, for no program applies that.
///
/// # Errors
///
/// Memory was refused.
pub(crate) fn diff_name(alloc: Global, path: &str) -> Result<Option<String>, AllocError>
    ensures { IfOk result (λ name. option_map string_bytes name ≡ spec.diff_name path.now) }
{
    if leads_above(path) {
        return Ok(None);
    }
    Ok(Some(plain_name(alloc, path)?))
}

fn leads_above(path: &str) -> bool
    ensures { result ≡ spec.leads_above path.now }
{
    path.split('/').any(|part| part == "..")
}

#[tactic(auto, using(crate::proofs::Joined::joined))]
fn plain_name(alloc: Global, path: &str) -> Result<String, AllocError>
    ensures { IfOk result (λ name. string_bytes name ≡ spec.plain_name path.now) }
{
    let parts = named_parts(alloc, path)?;
    parts.join(alloc, "/")
}

fn named_parts<'p>(alloc: Global, path: &'p str) -> Result<Vec<&'p str>, AllocError>
    ensures { IfOk result (λ parts.
        map (λ part. part.now) parts.items ≡ spec.named_parts path.now) }
{
    path.split('/')
        .filter(|part| is_named(*part))
        .collect(alloc)
}

// Whether the part leads anywhere.
fn is_named(part: &str) -> bool
    ensures { result ≡ spec.is_named part.now }
{
    !part.is_empty() && part != "."
}

/// The diff of the two under that name.
pub(crate) fn diff_text(
    alloc: Global,
    name: &str,
    old: &[u8],
    new: &[u8],
) -> Result<Vec<u8>, AllocError>
    ensures { IfOk result (λ text. text.items ≡ diff_of name.now (rows_of old.now new.now)) }
{
    let mut text = Vec::new(alloc);
    put_diff(alloc, &mut text, name, old, new)?;
    Ok(text)
}
