// By what a list differs from an older one.

ghost use Rattle.std.specs.Prelude.{◌≡◌, ℕ, Bool, List, IfOk, map, option_map, find, bytes_eq};
ghost use Rattle.std.specs.Option.{option_copied};
ghost use Rattle.spdx_requirement.specs.Rows.{LicenseRow, ExceptionRow, row_of, exception_of, license_name, exception_name};
ghost use Rattle.spdx_list.specs.Diff as spec;
ghost use Rattle.spdx_list.specs.Diff.{nows, is_same_license, is_same_exception, TellsEach};
ghost use Rattle.spdx_list.specs.DiffShown.{pair_of};

use spdx_requirement::row::{Exception, License};
use std::alloc::{AllocError, Global};

/// A row that two lists may both have.
pub trait Listed {
    ghost Shown: { Type 0 };

    ghost shown: { Self → Shown };

    ghost name_of: { Shown → List ℕ };

    ghost is_same: { Shown → Shown → Bool };

    /// Its name.
    fn name(&self) -> &str
        ensures { result.now ≡ name_of (shown self.now) };

    /// Whether two rows of one name say the same, their places aside.
    fn is_same(&self, other: &Self) -> bool
        ensures { result ≡ is_same (shown self.now) (shown other.now) };
}

impl Listed for License {
    ghost Shown = { LicenseRow };

    ghost shown = { row_of };

    ghost name_of = { license_name };

    ghost is_same = { is_same_license };

    fn name(&self) -> &str {
        self.name.as_str()
    }

    fn is_same(&self, other: &License) -> bool {
        self.full_name.as_bytes() == other.full_name.as_bytes() && self.flags == other.flags
    }
}

impl Listed for Exception {
    ghost Shown = { ExceptionRow };

    ghost shown = { exception_of };

    ghost name_of = { exception_name };

    ghost is_same = { is_same_exception };

    fn name(&self) -> &str {
        self.name.as_str()
    }

    fn is_same(&self, other: &Exception) -> bool {
        self.flags == other.flags
    }
}

/// A row of a name that both lists have, as the older and as the newer one has it.
#[derive(Clone, Copy)]
pub struct RowChange<'c, R> {
    pub old: &'c R,
    pub new: &'c R,
}

/// By what rows differ from older ones, each in the order of its list.
#[derive(Drop)]
pub struct RowDifferences<'c, R> {
    /// Those whose names the older rows haven't.
    pub added: Vec<&'c R>,
    /// Older ones whose names the newer rows haven't.
    pub removed: Vec<&'c R>,
    /// Those that say something else than the older ones of their names.
    pub changed: Vec<RowChange<'c, R>>,
}

fn first_named<'c, R: Listed>(rows: &'c [R], name: &str) -> Option<&'c R>
    ensures { option_copied result
        ≡ find (λ (r : R). bytes_eq (R.name_of (R.shown r)) name.now) rows.now }
{
    rows.iter().find(|row| row.name() == name)
}

fn named<'c, R: Listed>(rows: &'c [R], name: &str) -> Option<&'c R>
    ensures { option_map R.shown (option_copied result)
        ≡ spec.named R.name_of (map R.shown rows.now) name.now }
{
    first_named(rows, name)
}

fn is_unnamed<R: Listed>(rows: &[R], name: &str) -> bool
    ensures { result ≡ spec.is_none
        (spec.named R.name_of (map R.shown rows.now) name.now) }
{
    match named(rows, name) {
        Some(_) => false,
        None => true,
    }
}

fn only_here<'c, R: Listed>(
    alloc: Global,
    rows: &'c [R],
    others: &[R],
) -> Result<Vec<&'c R>, AllocError>
    ensures { IfOk result (λ found. map R.shown (nows found.items)
        ≡ spec.only_here R.name_of (map R.shown rows.now) (map R.shown others.now)) }
{
    let mut found = Vec::new(alloc);
    for row in rows {
        if is_unnamed(others, row.name()) {
            found.push(row)?;
        }
    }
    Ok(found)
}

fn change<'c, R: Listed>(olds: &'c [R], new: &'c R) -> Option<RowChange<'c, R>>
    ensures { option_map (pair_of R.shown) result ≡ spec.change R.is_same
        (spec.named R.name_of (map R.shown olds.now) (R.name_of (R.shown new.now)))
        (R.shown new.now) }
{
    let old = named(olds, new.name())?;
    if old.is_same(new) {
        return None;
    }
    Some(RowChange { old, new })
}

fn changes<'c, R: Listed>(
    alloc: Global,
    olds: &'c [R],
    news: &'c [R],
) -> Result<Vec<RowChange<'c, R>>, AllocError>
    ensures { IfOk result (λ found. map (pair_of R.shown) found.items
        ≡ spec.changes R.name_of R.is_same (map R.shown olds.now) (map R.shown news.now)) }
{
    let mut found = Vec::new(alloc);
    for new in news {
        if let Some(pair) = change(olds, new) {
            found.push(pair)?;
        }
    }
    Ok(found)
}

fn told<'c, R: Listed>(
    alloc: Global,
    olds: &'c [R],
    news: &'c [R],
) -> Result<RowDifferences<'c, R>, AllocError>
    ensures { IfOk result (λ d. (map R.shown (nows d.added.items)
        ≡ spec.only_here R.name_of (map R.shown news.now) (map R.shown olds.now))
        × (map R.shown (nows d.removed.items)
        ≡ spec.only_here R.name_of (map R.shown olds.now) (map R.shown news.now))
        × (map (pair_of R.shown) d.changed.items
        ≡ spec.changes R.name_of R.is_same (map R.shown olds.now) (map R.shown news.now))) }
{
    Ok(RowDifferences {
        added: only_here(alloc, news, olds)?,
        removed: only_here(alloc, olds, news)?,
        changed: changes(alloc, olds, news)?,
    })
}

/// By what the newer rows differ from the older ones: each difference once, and none missed.
/// Quadratic in the rows.
///
/// # Errors
///
/// Memory was refused.
pub fn differences<'c, R: Listed>(
    alloc: Global,
    olds: &'c [R],
    news: &'c [R],
) -> Result<RowDifferences<'c, R>, AllocError>
    ensures added { IfOk result (λ d. map R.shown (nows d.added.items)
        ≡ spec.only_here R.name_of (map R.shown news.now) (map R.shown olds.now)) }
    ensures removed { IfOk result (λ d. map R.shown (nows d.removed.items)
        ≡ spec.only_here R.name_of (map R.shown olds.now) (map R.shown news.now)) }
    ensures changed { IfOk result (λ d. map (pair_of R.shown) d.changed.items
        ≡ spec.changes R.name_of R.is_same (map R.shown olds.now) (map R.shown news.now)) }
    ensures each { IfOk result (λ d. TellsEach R.name_of R.is_same (map R.shown olds.now)
        (map R.shown news.now) (map R.shown (nows d.added.items))
        (map R.shown (nows d.removed.items)) (map (pair_of R.shown) d.changed.items)) }
{
    told(alloc, olds, news)
}
