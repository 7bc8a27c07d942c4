//! The family and the version that a licence's name tells.

ghost use Rattle.std.specs.Prelude.{◌≡◌, ◌==◌, ◌+◌, ◌<◌, ◌≤◌, IsTrue, IfSome, true, false};
ghost use Rattle.std.specs.List.{after_first, before_first, list_all, position};
ghost use Rattle.std.specs.Option.{option_copied};
ghost use Rattle.std.specs.Char.{is_ascii_digit};
ghost use Rattle.std.specs.Ordering.{nat_cmp};
ghost use Rattle.std.specs.Str.Parse.{digits_value};
ghost use Rattle.spdx_requirement.specs.Versions as parted;
ghost use Rattle.spdx_licensee.specs.Version as spec;

use spdx_requirement::versions::is_version;
use std::cmp::Ordering;

// Where a byte stands first.
fn first_place(text: &[u8], sought: u8) -> Option<usize>
    ensures { result ≡ position (λ b. b == sought) text.now }
{
    text.iter().position(|byte| *byte == sought)
}

// What stands before the first dot, and what stands behind it.
fn split_at_dot(version: &[u8]) -> (&[u8], &[u8])
    ensures front { result.0.now ≡ before_first (λ b. b == 46) version.now }
    ensures rest { result.1.now ≡ after_first (λ b. b == 46) version.now }
{
    match first_place(version, b'.') {
        Some(dot) => (&version[..dot], &version[dot + 1..]),
        None => (version, &[]),
    }
}

// The digits from the first that is not 0 on.
fn without_leading_zeros(digits: &[u8]) -> &[u8]
    requires { IsTrue (list_all is_ascii_digit digits.now) }
    ensures digits { IsTrue (list_all is_ascii_digit result.now) }
    ensures number { digits_value 10 result.now ≡ digits_value 10 digits.now }
    ensures no_zero { spec.leads_with_zero result.now ≡ false }
{
    let mut rest = digits;
    while let Some((b'0', behind)) = rest.split_first() {
        rest = behind;
    }
    rest
}

// How the number of some digits stands to that of others, of any length.
fn compare_numbers(a: &[u8], b: &[u8]) -> Ordering
    requires a_digits { IsTrue (list_all is_ascii_digit a.now) }
    requires b_digits { IsTrue (list_all is_ascii_digit b.now) }
    ensures { result ≡ nat_cmp (digits_value 10 a.now) (digits_value 10 b.now) }
{
    let a = without_leading_zeros(a);
    let b = without_leading_zeros(b);
    a.len().cmp(&b.len()).then(a.cmp(b))
}

/// Whether one version comes before the other. Its parts between dots are compared as whole numbers of any length,
/// and an empty or missing one is 0.
pub(crate) fn is_older(a: &[u8], b: &[u8]) -> bool
    requires a_version { IsTrue (parted.is_version a.now) }
    requires b_version { IsTrue (parted.is_version b.now) }
    ensures { result ≡ spec.older a.now b.now }
{
    let mut left = a;
    let mut right = b;
    while !left.is_empty() || !right.is_empty() {
        let (left_number, left_rest) = split_at_dot(left);
        let (right_number, right_rest) = split_at_dot(right);
        match compare_numbers(left_number, right_number) {
            Ordering::Less => return true,
            Ordering::Greater => return false,
            Ordering::Equal => {
                left = left_rest;
                right = right_rest;
            }
        }
    }
    false
}

/// The parts of a name between hyphens, in order, but for its version.
#[derive(Drop)]
struct FamilyParts<'n> {
    // what is not read yet
    rest: Option<&'n [u8]>,
    version_passed: bool,
}

impl<'n> FamilyParts<'n> {
    ghost use Rattle.std.specs.Iterator.{YieldsFirstBy};
    ghost use Rattle.spdx_licensee.specs.Families.{parts_left, family_left};

    fn of(name: &'n [u8]) -> Self
        ensures { family_left result ≡ parted.without_version (parted.parts name.now) }
    {
        FamilyParts {
            rest: Some(name),
            version_passed: false,
        }
    }

    // The next part, be it the version.
    fn next_part(&mut self) -> Option<&'n [u8]>
        ensures part { YieldsFirstBy (λ p. p.now) parts_left self.old result self.new }
        ensures version { self.new.version_passed ≡ self.old.version_passed }
    {
        let rest = self.rest?;
        match first_place(rest, b'-') {
            Some(hyphen) => {
                self.rest = Some(&rest[hyphen + 1..]);
                Some(&rest[..hyphen])
            }
            None => {
                self.rest = None;
                Some(rest)
            }
        }
    }
}

impl<'n> Iterator for FamilyParts<'n> {
    ghost use Rattle.std.specs.Iterator.{YieldsFirstBy, item_count};
    ghost use Rattle.spdx_licensee.specs.Families.{family_left};

    type Item = &'n [u8];

    ghost next_gives = { YieldsFirstBy (λ p. p.now) family_left };

    ghost remaining = { item_count family_left };

    fn next(&mut self) -> Option<&'n [u8]> {
        let part = self.next_part()?;
        if self.version_passed || !is_version(part) {
            return Some(part);
        }
        self.version_passed = true;
        self.next_part()
    }
}

/// Whether two names begin with different letters, so that their families differ.
pub(crate) fn begin_apart(a: &[u8], b: &[u8]) -> bool
    ensures { result ≡ true → spec.same_parts (parted.without_version (parted.parts a.now))
        (parted.without_version (parted.parts b.now)) ≡ false }
{
    let ([one, ..], [other, ..]) = (a, b) else {
        return false;
    };
    one != other && one.is_ascii_alphabetic() && other.is_ascii_alphabetic()
}

/// Whether two names have the same parts between hyphens, in order, but for their versions.
pub(crate) fn same_family(a: &[u8], b: &[u8]) -> bool
    ensures { result ≡ spec.same_parts (parted.without_version (parted.parts a.now))
        (parted.without_version (parted.parts b.now)) }
{
    let mut others = FamilyParts::of(b);
    for part in FamilyParts::of(a) {
        match others.next() {
            Some(other) => {
                if part != other {
                    return false;
                }
            }
            None => return false,
        }
    }
    others.next().is_none()
}

/// The version of a name, the first of its parts between hyphens that is of digits and dots alone.
pub(crate) fn version(name: &[u8]) -> Option<&[u8]>
    ensures first { option_copied result ≡ parted.version name.now }
    ensures version { IfSome result (λ part. IsTrue (parted.is_version part.now)) }
{
    name.split(|byte| *byte == b'-')
        .find(|part| is_version(part))
}
