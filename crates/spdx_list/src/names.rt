// What the name of a licence says, and the bits of a row's flags.

ghost use Rattle.std.specs.Prelude.{◌≡◌};
ghost use Rattle.spdx_list.specs.Files as spec;
ghost use Rattle.spdx_requirement.specs.Flags as flag;

use spdx_requirement::flags::{IS_COPYLEFT, IS_DEPRECATED, IS_FSF_LIBRE, IS_GNU, IS_OSI_APPROVED};

/// Whether the name is one of those that SPDX lists beside the name without the `+`.
pub(crate) fn ends_in_plus(name: &str) -> bool
    ensures { result ≡ spec.ends_in_plus name.now }
{
    name.as_bytes().ends_with(b"+")
}

/// Whether the name is of the GNU family.
pub(crate) fn is_gnu_name(name: &str) -> bool
    ensures { result ≡ spec.is_gnu_name name.now }
{
    let name = name.as_bytes();
    name.starts_with(b"GPL-")
        || name.starts_with(b"LGPL-")
        || name.starts_with(b"AGPL-")
        || name.starts_with(b"GFDL-")
}

fn bit(flag: u8, is: bool) -> u8
    ensures { result ≡ spec.bit flag is }
{
    if is { flag } else { 0 }
}

/// The flags of an exception, which may be deprecated.
pub(crate) fn exception_flags(deprecated: bool) -> u8
    ensures { result ≡ spec.bit 4 deprecated }
{
    bit(IS_DEPRECATED, deprecated)
}

/// The flags of a licence: each is set exactly where its argument is true.
pub(crate) fn license_flags(
    fsf_libre: bool,
    osi_approved: bool,
    deprecated: bool,
    copyleft: bool,
    gnu: bool,
) -> u8
    ensures value { result ≡ spec.flags_of fsf_libre osi_approved deprecated copyleft gnu }
    ensures fsf { flag.is_fsf_free_libre result ≡ fsf_libre }
    ensures osi { flag.is_osi_approved result ≡ osi_approved }
    ensures deprecation { flag.is_deprecated result ≡ deprecated }
    ensures copyleft_bit { flag.is_copyleft result ≡ copyleft }
    ensures gnu_bit { flag.is_gnu result ≡ gnu }
{
    bit(IS_FSF_LIBRE, fsf_libre)
        + bit(IS_OSI_APPROVED, osi_approved)
        + bit(IS_DEPRECATED, deprecated)
        + bit(IS_COPYLEFT, copyleft)
        + bit(IS_GNU, gnu)
}
