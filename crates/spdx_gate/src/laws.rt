//! Laws of verdicts and of reports.

ghost use Rattle.std.specs.Prelude.{◌≡◌, ℕ, List};
ghost use Rattle.spdx_requirement.specs.Rows.{Rows};
ghost use Rattle.spdx_parser.specs.Tree.{Tree};
ghost use Rattle.spdx_policy.specs.Rules.{Rules};
ghost use Rattle.spdx_gate.specs.declared.package.Package.{Package};
ghost use Rattle.spdx_gate.specs.declared.report.Report.{Report};
ghost use Rattle.spdx_gate.specs.Judging.{verdict_of};
ghost use Rattle.spdx_gate.specs.Reports.{IsReport};
ghost use Rattle.spdx_gate.specs.OneReport.{IsSameReport};
ghost use Rattle.spdx_gate.specs.Rearranged.{IsRearranged};

/// Two reports that are right of the same packages, by one policy and one list, say the same of each: the same verdict,
/// exceptions and clarification, and a judgement of the same text that says the same. Does nothing.
pub fn report_is_one()
    ensures { (c : Rows) (p : Rules) (xs : List Package) (one other : Report) →
        IsReport c p xs one → IsReport c p xs other → IsSameReport one other }
{}

/// An expression whose operands are exchanged or grouped otherwise has the same verdict. Does nothing.
pub fn order_is_nothing()
    ensures { (p : Rules) (tables : List ℕ) (t u : Tree) →
        IsRearranged t u → verdict_of p tables t ≡ verdict_of p tables u }
{}
