// The flags of a row, in words.

ghost use Rattle.std.specs.Prelude.{◌≡◌, ◌++◌, IfOk, OnOk, codes, flat_map, map};
ghost use Rattle.spdx_requirement.specs.Ids.{exception_row, id_row};
ghost use Rattle.spdx_list.specs.Diff.{nows};
ghost use Rattle.list_told.specs.Flags as spec;

use spdx_requirement::id::{ExceptionId, LicenseId};
use std::alloc::{AllocError, Global};

// The words of those that are set.
#[tactic(auto, unfolding(crate::specs::Flags::license_flags))]
pub(crate) fn license_flags(
    alloc: Global,
    id: LicenseId<'_>,
) -> Result<Vec<&'static str>, AllocError>
    ensures { IfOk result (λ words. nows words.items ≡ spec.license_flags (id_row id.entry)) }
{
    let flags = [
        (id.is_osi_approved(), "OSI approved"),
        (id.is_fsf_free_libre(), "FSF libre"),
        (id.is_copyleft(), "copyleft"),
        (id.is_gnu(), "GNU"),
        (id.is_deprecated(), "deprecated"),
    ];
    set_words(alloc, &flags)
}

#[tactic(auto, unfolding(crate::specs::Flags::exception_flags))]
pub(crate) fn exception_flags(
    alloc: Global,
    id: ExceptionId<'_>,
) -> Result<Vec<&'static str>, AllocError>
    ensures { IfOk result (λ words.
        nows words.items ≡ spec.exception_flags (exception_row id.entry)) }
{
    set_words(alloc, &[(id.is_deprecated(), "deprecated")])
}

fn set_words<'w>(alloc: Global, flags: &[(bool, &'w str)]) -> Result<Vec<&'w str>, AllocError>
    ensures { IfOk result (λ words.
        nows words.items ≡ spec.set_words (map spec.flag_of flags.entry.now)) }
{
    let mut words = Vec::new(alloc);
    for flag in flags {
        if flag.0 {
            words.push(flag.1)?;
        }
    }
    Ok(words)
}

// Appends the line of these words, where there are any.
pub(crate) fn put_flags(text: &mut Vec<u8>, words: &[&str]) -> Result<(), AllocError>
    ensures { OnOk result (text.new.items
        ≡ text.old.items ++ spec.flags_line (nows words.now)) }
{
    let Some((first, others)) = words.split_first() else {
        return Ok(());
    };
    text.extend_from_slice(b"  flags: ")?;
    text.extend_from_slice(first.as_bytes())?;
    put_others(text, others)?;
    text.extend_from_slice(b"\n")
}

fn put_others(text: &mut Vec<u8>, words: &[&str]) -> Result<(), AllocError>
    ensures { OnOk result (text.new.items ≡ text.old.items
        ++ flat_map (λ w. codes ", " ++ w) (nows words.now)) }
{
    for word in words {
        text.extend_from_slice(b", ")?;
        text.extend_from_slice(word.as_bytes())?;
    }
    Ok(())
}
