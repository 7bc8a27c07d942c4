// The two endings of GNU names.

ghost use Rattle.std.specs.Prelude.{◌≡◌};
ghost use Rattle.std.specs.Option.{option_copied};
ghost use Rattle.spdx_requirement.specs.Endings as spec;

/// What stands before the ending, if the name has it.
pub fn without<'n>(ending: &[u8], name: &'n [u8]) -> Option<&'n [u8]>
    ensures { option_copied result ≡ spec.without ending.now name.now }
{
    if name.ends_with(ending) {
        Some(&name[..name.len() - ending.len()])
    } else {
        None
    }
}

/// Whether a name ends in `-only` or `-or-later`.
pub fn has_suffix(name: &[u8]) -> bool
    ensures { result ≡ spec.has_suffix name.now }
{
    name.ends_with(b"-only") || name.ends_with(b"-or-later")
}

/// The ending of a GNU name.
pub fn ending(or_later: bool) -> &'static [u8]
    ensures { result.now ≡ spec.ending or_later }
{
    if or_later { b"-or-later" } else { b"-only" }
}
