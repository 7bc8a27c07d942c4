//! How many packages pass.

ghost use Rattle.std.specs.Prelude.{◌≡◌, ◌+◌, length, count_by};
ghost use Rattle.spdx_gate.specs.Reports as spec;

use crate::package::Verdict;
use crate::report::Row;

/// How many packages there are. Each is allowed, refused or unstated.
#[derive(Clone, Copy, Debug)]
pub struct Totals {
    pub packages: usize,
    /// Those whose expressions pass.
    pub allowed: usize,
    /// Of the allowed, those that would not pass without their exceptions.
    pub by_exception: usize,
    /// Those whose texts don't pass, or can't be read.
    pub refused: usize,
    /// Those without a licence, whether that is allowed or not.
    pub unstated: usize,
}

impl Totals {
    // The totals of these rows.
    pub(crate) fn of(rows: &[Row]) -> Totals
        ensures packages { result.packages ≡ length rows.now }
        ensures allowed { result.allowed ≡
            count_by (λ row. spec.counts_allowed row.verdict) rows.now }
        ensures by_exception { result.by_exception ≡
            count_by (λ row. spec.counts_by_exception row.verdict) rows.now }
        ensures refused { result.refused ≡
            count_by (λ row. spec.counts_refused row.verdict) rows.now }
        ensures unstated { result.unstated ≡
            count_by (λ row. spec.counts_unstated row.verdict) rows.now }
        ensures sum { result.allowed + result.refused + result.unstated ≡ result.packages }
    {
        let allowed = count_allowed(rows);
        let by_exception = count_by_exception(rows);
        let refused = count_refused(rows);
        let unstated = count_unstated(rows);
        Totals {
            packages: rows.len(),
            allowed,
            by_exception,
            refused,
            unstated,
        }
    }
}

fn counts_allowed(verdict: Verdict) -> bool
    ensures { result ≡ spec.counts_allowed verdict }
{
    matches!(verdict, Verdict::Allowed | Verdict::ByException)
}

fn counts_by_exception(verdict: Verdict) -> bool
    ensures { result ≡ spec.counts_by_exception verdict }
{
    matches!(verdict, Verdict::ByException)
}

fn counts_refused(verdict: Verdict) -> bool
    ensures { result ≡ spec.counts_refused verdict }
{
    matches!(verdict, Verdict::Refused | Verdict::Unreadable)
}

fn counts_unstated(verdict: Verdict) -> bool
    ensures { result ≡ spec.counts_unstated verdict }
{
    matches!(verdict, Verdict::Unstated(_))
}

fn count_allowed(rows: &[Row]) -> usize
    ensures { result ≡ count_by (λ row. spec.counts_allowed row.verdict) rows.now }
{
    rows.iter()
        .filter(|row| counts_allowed(row.verdict))
        .count()
}

fn count_by_exception(rows: &[Row]) -> usize
    ensures { result ≡ count_by (λ row. spec.counts_by_exception row.verdict) rows.now }
{
    rows.iter()
        .filter(|row| counts_by_exception(row.verdict))
        .count()
}

fn count_refused(rows: &[Row]) -> usize
    ensures { result ≡ count_by (λ row. spec.counts_refused row.verdict) rows.now }
{
    rows.iter()
        .filter(|row| counts_refused(row.verdict))
        .count()
}

fn count_unstated(rows: &[Row]) -> usize
    ensures { result ≡ count_by (λ row. spec.counts_unstated row.verdict) rows.now }
{
    rows.iter()
        .filter(|row| counts_unstated(row.verdict))
        .count()
}
