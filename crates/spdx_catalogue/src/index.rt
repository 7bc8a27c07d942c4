// Rows by a key of their names: only those with the key of what is looked for are compared with it.

ghost use Rattle.std.specs.Prelude.{◌≡◌, ◌+◌, ℕ, slice_index, ◌<◌, ◌≤◌, ◌^◌, List, Option, Some, true, IfSome, find, length, map, option_map, string_bytes};
ghost use Rattle.std.specs.Option.{option_copied};
ghost use Rattle.std.specs.List.{fold};
ghost use Rattle.std.specs.List.Sorted.{IsNonDecreasing};
ghost use Rattle.std.specs.Bool.{OnTrue};
ghost use Rattle.spdx_catalogue.specs.Index as spec;
ghost use Rattle.spdx_catalogue.specs.CatalogueModel.{IsIndexed, IsLicenseIndex};
ghost use Rattle.spdx_catalogue.specs.LookUps.{listed};
ghost use Rattle.spdx_requirement.specs.Rows.{imprecise_of, row_of};

use crate::names::begins_caseless;
use spdx_requirement::row::{Exception, ImpreciseName, License};
use std::alloc::Global;

// Places are below it, and so are keys.
const SPAN: u64 = 4_294_967_296;

// An odd number near 2^64 over the golden ratio: the upper bits of a product with it, which tell the bucket, hang on
// all bits.
const SPREAD: u64 = 11_400_714_819_323_198_485;

// So many bytes of a prefix make its key.
const FRONT: usize = 3;

/// Of each row a code, made of its key and its place, in order: rows with the same key stand
/// together there, by place. The starts are hints, which a look-up tries before it halves.
#[derive(Drop)]
pub(crate) struct Index {
    codes: Vec<u64>,
    starts: Vec<u32>,
}

/// A row that is found by a text.
pub(crate) trait Keyed {
    ghost text_of: { Self → List ℕ };

    ghost keyed_of: { Self → Option (List ℕ) };

    /// The text.
    fn text(&self) -> &str
        ensures { result.now ≡ text_of self.now };

    /// The bytes that make the row's key, if it can have one.
    fn keyed(&self) -> Option<&[u8]>
        ensures { option_copied result ≡ keyed_of self.now };
}

impl Keyed for License {
    ghost text_of = { λ r. string_bytes r.name };

    ghost keyed_of = { λ r. Some (string_bytes r.name) };

    fn text(&self) -> &str {
        self.name.as_str()
    }

    fn keyed(&self) -> Option<&[u8]> {
        Some(self.name.as_bytes())
    }
}

impl Keyed for Exception {
    ghost text_of = { λ r. string_bytes r.name };

    ghost keyed_of = { λ r. Some (string_bytes r.name) };

    fn text(&self) -> &str {
        self.name.as_str()
    }

    fn keyed(&self) -> Option<&[u8]> {
        Some(self.name.as_bytes())
    }
}

impl Keyed for ImpreciseName {
    ghost text_of = { λ r. (imprecise_of r).prefix };

    ghost keyed_of = { λ r. spec.whole_front (imprecise_of r).prefix };

    fn text(&self) -> &str {
        self.prefix.as_str()
    }

    fn keyed(&self) -> Option<&[u8]> {
        self.prefix.as_bytes().get(..FRONT)
    }
}

/// What is looked for.
#[derive(Clone, Copy)]
pub(crate) enum Sought<'t> {
    /// A name.
    Named(&'t [u8]),
    /// A name, the case of ASCII letters aside.
    Alike(&'t str),
    /// A prefix with which the text begins, the case of ASCII letters aside.
    Front(&'t str),
}

// A sum with one more byte. Whatever it gives, a look-up finds the same, if perhaps later.
fn mixed(sum: u64, b: u8) -> u64
    ensures { result ≡ spec.mixed sum b }
{
    sum.wrapping_mul(9).wrapping_add(u64::from(b | 0x20))
}

fn sum_of_all(bytes: &[u8]) -> u64
    ensures { result ≡ fold spec.mixed 0 bytes.now }
{
    let mut sum = 0;
    for b in bytes {
        sum = mixed(sum, *b);
    }
    sum
}

// Eight bytes as one number, which takes one step where a walk over them takes eight.
fn eight_at(bytes: &[u8], at: usize) -> u64
    requires { at + 8 ≤ length bytes.now }
    ensures { result ≡ spec.eight_at bytes.now at }
{
    u64::from_le_bytes([
        bytes[at] | 0x20,
        bytes[at + 1] | 0x20,
        bytes[at + 2] | 0x20,
        bytes[at + 3] | 0x20,
        bytes[at + 4] | 0x20,
        bytes[at + 5] | 0x20,
        bytes[at + 6] | 0x20,
        bytes[at + 7] | 0x20,
    ])
}

// Of many bytes the first and the last eight, and how many there are: few names share these.
fn sum_of_ends(bytes: &[u8]) -> u64
    requires { 8 ≤ length bytes.now }
    ensures { result ≡ spec.sum_of_ends bytes.now }
{
    let last = eight_at(bytes, bytes.len() - 8);
    eight_at(bytes, 0)
        .wrapping_mul(9)
        .wrapping_add(last)
        .wrapping_add(bytes.len() as u64)
}

// The same for bytes that differ in the case of ASCII letters alone.
fn key_of(bytes: &[u8]) -> u32
    ensures { result ≡ spec.key_of bytes.now }
{
    let sum = if bytes.len() < 8 {
        sum_of_all(bytes)
    } else {
        sum_of_ends(bytes)
    };
    (sum.wrapping_mul(SPREAD) / SPAN) as u32
}

fn code(key: u32, place: usize) -> u64
    requires { place < 2 ^ 32 }
    ensures { result ≡ spec.code key place }
{
    u64::from(key) * SPAN + place as u64
}

// Of as many buckets the one of that key; a greater key has no lesser one.
fn bucket(key: u32, buckets: usize) -> usize {
    (u64::from(key).wrapping_mul(buckets as u64) / SPAN) as usize
}

// Of each bucket where its codes begin, or those of the next bucket that has some.
fn starts_of(alloc: Global, codes: &[u64]) -> Option<Vec<u32>> {
    let mut starts = Vec::with_capacity(alloc, codes.len()).ok()?;
    for (place, code) in codes.iter().enumerate() {
        let own = bucket((*code / SPAN) as u32, codes.len());
        if starts.len() <= own {
            starts
                .resize(own.saturating_add(1), u32::try_from(place).ok()?)
                .ok()?;
        }
    }
    Some(starts)
}

/// The index of the rows, of twelve bytes for each, made in time n log n. There is none where
/// memory is refused, nor where a row has no key.
pub(crate) fn index_of<R: Keyed>(alloc: Global, rows: &[R]) -> Option<Index>
    ensures { IfSome result (λ i. spec.IsIndexOf R.keyed_of rows.now i.codes.items) }
{
    if rows.len() as u64 > SPAN {
        return None;
    }
    let mut codes = Vec::with_capacity(alloc, rows.len()).ok()?;
    for (place, row) in rows.iter().enumerate() {
        codes.push(code(key_of(row.keyed()?), place)).ok()?;
    }
    codes.sort_unstable();
    let starts = starts_of(alloc, &codes)?;
    Some(Index { codes, starts })
}

impl Sought<'_> {
    #[inline(always)]
    fn key(self) -> u32
        ensures { result ≡ spec.sought_key self.entry }
    {
        match self {
            Sought::Named(name) => key_of(name),
            Sought::Alike(name) => key_of(name.as_bytes()),
            Sought::Front(text) => {
                let bytes = text.as_bytes();
                key_of(&bytes[..bytes.len().min(FRONT)])
            }
        }
    }

    #[inline(always)]
    fn fits(self, text: &str) -> bool
        ensures { result ≡ spec.fits self.entry text.now }
    {
        match self {
            Sought::Named(name) => text.as_bytes() == name,
            Sought::Alike(name) => text.eq_ignore_ascii_case(name),
            Sought::Front(begun) => begins_caseless(text, begun),
        }
    }
}

// Whether the codes before that place are known to be less.
fn is_behind_less(codes: &[u64], at: usize, least: u64) -> bool
    requires { IsNonDecreasing codes.now }
    ensures { OnTrue result ((m : ℕ) → m < at → slice_index codes.now m < least) }
{
    match at.checked_sub(1) {
        None => true,
        Some(last) => last < codes.len() && codes[last] < least,
    }
}

// Where the codes of that key begin, or some place before that.
fn least_at(index: &Index, key: u32) -> usize
    requires { IsNonDecreasing index.now.codes.items }
    ensures { (m : ℕ) → m < result → slice_index index.now.codes.items m < spec.code key 0 }
{
    let least = code(key, 0);
    let codes = index.codes.as_slice();
    if let Some(start) = index.starts.get(bucket(key, codes.len()))
        && is_behind_less(codes, *start as usize, least)
    {
        return *start as usize;
    }
    codes.partition_point(|code| *code < least)
}

// The first row that fits, by the index.
#[inline(always)]
fn first_indexed<'c, R: Keyed>(rows: &'c [R], index: &Index, sought: Sought<'_>) -> Option<&'c R>
    requires index { spec.IsIndexOf R.keyed_of rows.now index.now.codes.items }
    requires relevant { spec.IsRelevant R.keyed_of R.text_of sought }
    ensures { option_copied result ≡ find (λ r. spec.fits sought.entry (R.text_of r)) rows.now }
{
    let key = sought.key();
    let wanted = u64::from(key);
    let codes = index.codes.as_slice();
    for at in least_at(index, key)..codes.len() {
        let own = codes[at] / SPAN;
        if own > wanted {
            return None;
        }
        if own == wanted
            && let Some(row) = rows.get((codes[at] % SPAN) as usize)
            && sought.fits(row.text())
        {
            return Some(row);
        }
    }
    None
}

/// The licence of that name, of which nothing is taken off.
pub(crate) fn license_named<'c>(
    rows: &'c [License],
    index: &Option<Index>,
    name: &[u8],
) -> Option<&'c License>
    requires { IsLicenseIndex rows.now index.now }
    ensures { option_map row_of (option_copied result) ≡ listed (map row_of rows.now) name.now }
{
    first(rows, index, Sought::Named(name))
}

/// The first row that fits. Where there is no index, a walk over the rows. It is inlined, so that
/// each look-up compares in its own way alone.
#[inline(always)]
pub(crate) fn first<'c, R: Keyed>(
    rows: &'c [R],
    index: &Option<Index>,
    sought: Sought<'_>,
) -> Option<&'c R>
    requires index { IsIndexed R.keyed_of rows.now index.now }
    requires relevant { spec.IsRelevant R.keyed_of R.text_of sought }
    ensures { option_copied result ≡ find (λ r. spec.fits sought.entry (R.text_of r)) rows.now }
{
    match index {
        Some(index) => first_indexed(rows, index, sought),
        None => rows.iter().find(|row| sought.fits(row.text())),
    }
}
