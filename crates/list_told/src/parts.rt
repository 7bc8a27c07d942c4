// Lines of several parts.

ghost use Rattle.std.specs.Prelude.{◌≡◌, ◌++◌, OnOk, flat_map};
ghost use Rattle.spdx_list.specs.Diff.{nows};
ghost use Rattle.list_told.specs.Texts.{line};

use std::alloc::AllocError;

#[tactic(auto, unfolding(crate::specs::Texts::line))]
pub(crate) fn put_line(text: &mut Vec<u8>, parts: &[&str]) -> Result<(), AllocError>
    ensures { OnOk result (text.new.items ≡ text.old.items ++ line (nows parts.now)) }
{
    put_parts(text, parts)?;
    text.extend_from_slice(b"\n")
}

fn put_parts(text: &mut Vec<u8>, parts: &[&str]) -> Result<(), AllocError>
    ensures { OnOk result (text.new.items
        ≡ text.old.items ++ flat_map (λ part. part) (nows parts.now)) }
{
    for part in parts {
        text.extend_from_slice(part.as_bytes())?;
    }
    Ok(())
}
