//! An expression that a policy has judged.

ghost use Rattle.std.specs.Prelude.{◌≡◌, length, map};
ghost use Rattle.spdx_parser.specs.Tree.{leaves, node_of};
ghost use Rattle.spdx_evaluation.specs.Postfix.{IsPostfix, tree_in};

use crate::advice::Advice;
use crate::package::Verdict;
use spdx_parser::node::NodeList;
use spdx_policy::Decision;
use spdx_why::Remedy;

/// What a policy says of an expression.
#[derive(Drop)]
pub struct Judged<'c> {
    /// The nodes of its tree, in postfix order.
    pub nodes: NodeList<'c>,
    /// Of each requirement, in the order of the text, what the policy says of it.
    pub decisions: Vec<Decision>,
    /// The numbers of the requirements that a refusal hangs on.
    pub missing: Vec<usize>,
    /// What would make it pass.
    pub advice: Advice,
    /// The least choice among what is allowed.
    pub choice: Remedy,
    /// Whether it passes.
    pub verdict: Verdict,
    ghost postfix: { IsPostfix (map node_of nodes.items) },
    ghost each: { length decisions.items ≡ length (leaves (tree_in nodes.items)) },
}
