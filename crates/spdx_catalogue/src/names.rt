// What a licence's name may be, and the names that texts may write for it.

ghost use Rattle.std.specs.Prelude.{◌≡◌, ◌++◌, ◌<◌, ◌≤◌, false};
ghost use Rattle.std.specs.Option.{option_copied, option_map_or};
ghost use Rattle.std.specs.List.{list_all};
ghost use Rattle.std.specs.Ordering.{nat_cmp};
ghost use Rattle.std.specs.Cmp.Lexicographic.{slice_cmp};
ghost use Rattle.spdx_requirement.specs.Endings.{has_suffix};
ghost use Rattle.spdx_catalogue.specs.Names as spec;

use spdx_requirement::endings::{has_suffix, without};
use std::cmp::Ordering;

// Each byte that a name may have stands at its own place, and a comma at every other place.
static NAME_BYTES: [u8; 256] = *b"\
    ,,,,,,,,,,,,,,,,,,,,,,,,,,,,,,,,\
    ,,,,,,,,,,,,,-.,0123456789,,,,,,\
    ,ABCDEFGHIJKLMNOPQRSTUVWXYZ,,,,,\
    ,abcdefghijklmnopqrstuvwxyz,,,,,\
    ,,,,,,,,,,,,,,,,,,,,,,,,,,,,,,,,\
    ,,,,,,,,,,,,,,,,,,,,,,,,,,,,,,,,\
    ,,,,,,,,,,,,,,,,,,,,,,,,,,,,,,,,\
    ,,,,,,,,,,,,,,,,,,,,,,,,,,,,,,,,";

/// Whether a name may have the byte: an ASCII letter or digit, `-` or `.`.
pub fn is_name_byte(b: u8) -> bool
    ensures { result ≡ spec.is_name_byte b }
{
    NAME_BYTES[b as usize] != b','
}

fn has_name_bytes(name: &str) -> bool
    ensures { result ≡ list_all spec.is_name_byte name.now }
{
    name.bytes().all(|b| is_name_byte(b))
}

pub(crate) fn is_name(name: &str) -> bool
    ensures { result ≡ spec.is_name name.now }
{
    !name.is_empty() && has_name_bytes(name)
}

pub(crate) fn is_operator(name: &str) -> bool
    ensures { result ≡ spec.is_operator name.now }
{
    name == "AND"
        || name == "and"
        || name == "OR"
        || name == "or"
        || name == "WITH"
        || name == "with"
}

pub(crate) fn is_above(before: Option<&str>, name: &str) -> bool
    ensures { result ≡ spec.is_above (option_copied before.entry) name.now }
{
    match before {
        None => true,
        Some(before) => before.cmp(name).is_lt(),
    }
}

fn still_has_suffix(front: Option<&[u8]>) -> bool
    ensures { result ≡ option_map_or has_suffix (option_copied front.entry) false }
{
    match front {
        None => false,
        Some(front) => has_suffix(front),
    }
}

pub(crate) fn has_two_suffixes(name: &[u8]) -> bool
    ensures { result ≡ spec.has_two_suffixes name.now }
{
    still_has_suffix(without(b"-only", name)) || still_has_suffix(without(b"-or-later", name))
}

/// The name, every `+` at its end taken off.
pub(crate) fn without_plus(name: &[u8]) -> &[u8]
    ensures { result.now ≡ spec.without_plus name.now }
{
    let mut end = name.len();
    while 0 < end && name[end - 1] == b'+' {
        end -= 1;
    }
    &name[..end]
}

// How a name stands to a front and an ending, as if the two were joined.
pub(crate) fn compare_joined(name: &[u8], front: &[u8], ending: &[u8]) -> Ordering
    ensures { result ≡ slice_cmp nat_cmp name.now (front.now ++ ending.now) }
{
    if name.len() < front.len() {
        return name.cmp(front);
    }
    let (head, tail) = name.split_at(front.len());
    match head.cmp(front) {
        Ordering::Less => Ordering::Less,
        Ordering::Equal => tail.cmp(ending),
        Ordering::Greater => Ordering::Greater,
    }
}

// Whether the text begins with the prefix, the case of ASCII letters aside.
pub(crate) fn begins_caseless(prefix: &str, text: &str) -> bool
    ensures { result ≡ spec.begins_caseless prefix.now text.now }
{
    let bytes = text.as_bytes();
    bytes.len() >= prefix.len() && bytes[..prefix.len()].eq_ignore_ascii_case(prefix.as_bytes())
}
