// Packages, and what a policy says of them.

use gate_forms::{Baseline, Node, Report, Verdict, Why};

pub const HOSTILE: &str =
    "</h3><script>alert('1')</script>\"&amp;\x1b[31m\t\u{202e}名::\r\n::error::x";

/// A package of a lock file.
pub(crate) fn package<'r>(
    name: &'r str,
    expression: &'r str,
    verdict: Verdict,
    why: Why<'r>,
    nodes: &'r [Node<'r>],
) -> Report<'r> {
    Report {
        policy: "policy.toml",
        file: "a,b/Cargo lock",
        name,
        version: Some("1.0.14"),
        expression,
        verdict,
        baseline: Baseline::Absent,
        why,
        nodes,
    }
}
