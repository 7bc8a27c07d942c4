// Ids, which borrow their row.

ghost use Rattle.std.specs.Prelude.{◌≡◌, ◌==◌, ◌<◌, ◌≤◌, nat_eq, string_bytes, Some};
ghost use Rattle.std.proofs.Common.{rules};
ghost use Rattle.std.specs.Cmp.{partial_order_from_own_ties};
ghost use Rattle.std.specs.Cmp.Rules.{comparing};
ghost use Rattle.std.specs.Ordering.{nat_cmp, on, as_partial_cmp};
ghost use Rattle.spdx_requirement.specs.Ids.{license_in, id_row, exception_in, exception_row};
ghost use Rattle.spdx_requirement.specs.Flags as flag;
ghost use Rattle.std.specs.Prelude.{find, take_while};
ghost use Rattle.std.specs.Option.{option_copied};
ghost use Rattle.spdx_requirement.specs.Versions as parted;

use crate::flags::{IS_COPYLEFT, IS_DEPRECATED, IS_FSF_LIBRE, IS_GNU, IS_OSI_APPROVED};
use crate::row::{Exception, License};
use crate::versions::is_version;
use std::cmp::Ordering;
use std::fmt;

/// A listed licence. Two are compared by their index, which is the order of their names.
#[derive(Clone, Copy)]
pub struct LicenseId<'c> {
    row: &'c License,
}

/// A listed exception. Two are compared by their index, which is the order of their names.
#[derive(Clone, Copy)]
pub struct ExceptionId<'c> {
    row: &'c Exception,
}

impl<'c> LicenseId<'c> {
    /// The id of a row.
    pub fn new(row: &'c License) -> LicenseId<'c>
        ensures { license_in result ≡ row.now }
    {
        LicenseId { row }
    }

    /// The licence's row.
    pub fn license(self) -> &'c License
        ensures { result.now ≡ license_in self.entry }
    {
        self.row
    }

    /// Whether the Free Software Foundation lists the licence as free.
    pub fn is_fsf_free_libre(self) -> bool
        ensures { result ≡ flag.is_fsf_free_libre (id_row self.entry).flags }
    {
        self.row.flags & IS_FSF_LIBRE != 0
    }

    /// Whether the Open Source Initiative has approved the licence.
    pub fn is_osi_approved(self) -> bool
        ensures { result ≡ flag.is_osi_approved (id_row self.entry).flags }
    {
        self.row.flags & IS_OSI_APPROVED != 0
    }

    /// Whether the licence's name is deprecated.
    pub fn is_deprecated(self) -> bool
        ensures { result ≡ flag.is_deprecated (id_row self.entry).flags }
    {
        self.row.flags & IS_DEPRECATED != 0
    }

    /// Whether the licence is copyleft.
    pub fn is_copyleft(self) -> bool
        ensures { result ≡ flag.is_copyleft (id_row self.entry).flags }
    {
        self.row.flags & IS_COPYLEFT != 0
    }

    /// Whether the licence is one of the GNU family, which says its later versions by its name.
    pub fn is_gnu(self) -> bool
        ensures { result ≡ flag.is_gnu (id_row self.entry).flags }
    {
        self.row.flags & IS_GNU != 0
    }

    /// The version that the name states: the first of its parts between hyphens that is of digits
    /// and dots alone, as `2.0` of `GPL-2.0-only`. An empty part counts.
    pub fn version(self) -> Option<&'c str>
        ensures { option_copied result ≡ parted.version (id_row self.entry).name }
    {
        version_of(self.row.name.as_str())
    }

    /// What stands before the name's first hyphen, or the whole name, as `GPL` of `GPL-2.0-only`.
    pub fn base(self) -> &'c str
        ensures { result.now ≡ parted.base (id_row self.entry).name }
    {
        base_of(self.row.name.as_str())
    }
}

fn version_of(name: &str) -> Option<&str>
    ensures { option_copied result ≡ parted.version name.now }
{
    name.split('-').find(|part| is_version(part.as_bytes()))
}

fn base_of(name: &str) -> &str
    ensures { result.now ≡ parted.base name.now }
{
    match name.split_once('-') {
        Some((front, _)) => front,
        None => name,
    }
}

impl<'c> ExceptionId<'c> {
    /// The id of a row.
    pub fn new(row: &'c Exception) -> ExceptionId<'c>
        ensures { exception_in result ≡ row.now }
    {
        ExceptionId { row }
    }

    /// The exception's row.
    pub fn exception(self) -> &'c Exception
        ensures { result.now ≡ exception_in self.entry }
    {
        self.row
    }

    /// Whether the exception's name is deprecated.
    pub fn is_deprecated(self) -> bool
        ensures { result ≡ flag.is_deprecated (exception_row self.entry).flags }
    {
        self.exception().flags & IS_DEPRECATED != 0
    }
}

impl PartialEq for LicenseId<'_> {
    ghost eq = { on (λ i. (license_in i).index) nat_eq };

    ghost laws = { Prim.search (comparing, rules) };

    fn eq(&self, other: &Self) -> bool {
        self.row.index == other.row.index
    }
}

impl Eq for LicenseId<'_> {
    ghost laws = { Prim.search (comparing, rules) };
}

impl Ord for LicenseId<'_> {
    ghost cmp = { on (λ i. (license_in i).index) nat_cmp };

    ghost total = { Prim.search (comparing, rules) };

    ghost matches_partial_cmp = { Prim.search (comparing, rules) };

    ghost matches_eq = { Prim.search (comparing, rules) };

    fn cmp(&self, other: &Self) -> Ordering {
        self.row.index.cmp(&other.row.index)
    }
}

impl PartialOrd for LicenseId<'_> {
    ghost partial_cmp = { as_partial_cmp (on (λ i. (license_in i).index) nat_cmp) };

    ghost laws = { partial_order_from_own_ties
        (Prim.search (comparing, rules)) (Prim.search (comparing, rules)) };

    fn partial_cmp(&self, other: &Self) -> Option<Ordering> {
        Some(self.cmp(other))
    }
}

impl fmt::Debug for LicenseId<'_> {
    ghost debug_output = { λ i. Some (string_bytes (license_in i).name) };

    fn fmt<W: fmt::Write>(&self, f: &mut fmt::Formatter<W>) -> fmt::Result {
        f.write_str(self.row.name.as_str())
    }
}

impl PartialEq for ExceptionId<'_> {
    ghost eq = { on (λ i. (exception_in i).index) nat_eq };

    ghost laws = { Prim.search (comparing, rules) };

    fn eq(&self, other: &Self) -> bool {
        self.exception().index == other.exception().index
    }
}

impl Eq for ExceptionId<'_> {
    ghost laws = { Prim.search (comparing, rules) };
}

impl Ord for ExceptionId<'_> {
    ghost cmp = { on (λ i. (exception_in i).index) nat_cmp };

    ghost total = { Prim.search (comparing, rules) };

    ghost matches_partial_cmp = { Prim.search (comparing, rules) };

    ghost matches_eq = { Prim.search (comparing, rules) };

    fn cmp(&self, other: &Self) -> Ordering {
        self.row.index.cmp(&other.row.index)
    }
}

impl PartialOrd for ExceptionId<'_> {
    ghost partial_cmp = { as_partial_cmp (on (λ i. (exception_in i).index) nat_cmp) };

    ghost laws = { partial_order_from_own_ties
        (Prim.search (comparing, rules)) (Prim.search (comparing, rules)) };

    fn partial_cmp(&self, other: &Self) -> Option<Ordering> {
        Some(self.cmp(other))
    }
}

impl fmt::Debug for ExceptionId<'_> {
    ghost debug_output = { λ i. Some (string_bytes (exception_in i).name) };

    fn fmt<W: fmt::Write>(&self, f: &mut fmt::Formatter<W>) -> fmt::Result {
        f.write_str(self.row.name.as_str())
    }
}
