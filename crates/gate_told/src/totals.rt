// How many packages pass, as it is told.

ghost use Rattle.std.specs.Prelude.{◌≡◌, ◌+◌};
ghost use Rattle.gate_told.specs.Totals.{totals_of};

use gate_forms::Totals;
use spdx_gate::Report;

/// How many packages of the report there are, and of which verdict. Each is allowed, refused or without a licence.
pub fn told_totals(report: &Report<'_>) -> Totals
    ensures exact { result ≡ totals_of report.now }
    ensures sum { result.allowed + result.refused + result.unstated ≡ result.packages }
{
    let totals = report.totals();
    Totals {
        packages: totals.packages as u64,
        allowed: totals.allowed as u64,
        by_exception: totals.by_exception as u64,
        refused: totals.refused as u64,
        unstated: totals.unstated as u64,
    }
}
