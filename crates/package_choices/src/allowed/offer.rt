//! Expressions of which requirements are allowed.

ghost use Rattle.std.specs.Prelude.{◌≡◌, IfOk, length, map};
ghost use Rattle.spdx_parser.specs.Tree.{leaves, node_of};
ghost use Rattle.spdx_evaluation.specs.Postfix.{IsPostfix, tree_in};
ghost use Rattle.spdx_gate.specs.Judging.{accepted_in};

use spdx_gate::Judged;
use spdx_parser::node::ExprNode;
use spdx_policy::Decision;
use std::alloc::{AllocError, Global};

/// An expression that a policy has judged, and of each of its requirements, from left to right, whether it is allowed.
#[derive(Drop)]
pub struct Offer<'j, 'c> {
    pub(crate) nodes: &'j [ExprNode<'c>],
    pub(crate) allowed: Vec<bool>,
    ghost postfix: { IsPostfix (map node_of nodes.now) },
    ghost each: { length allowed.items ≡ length (leaves (tree_in nodes.now)) },
}

impl<'j, 'c> Offer<'j, 'c> {
    ghost use Rattle.package_choices.specs.Choice.{offer_of};
    ghost use Rattle.package_choices.specs.Texts.{judged_offer, IsAllowedOf};

    /// What the policy allows of what it judged. Where that is of a text under some exceptions, as `judge` of `spdx_gate`
    /// has it, `choice` in it is the text's own least choice among what these allow.
    pub fn of(alloc: Global, judged: &'j Judged<'c>) -> Result<Offer<'j, 'c>, AllocError>
        ensures exact { IfOk result (λ offer. offer_of offer ≡ judged_offer judged.now) }
        ensures allowed { IfOk result (λ offer. IsAllowedOf judged.now (offer_of offer)) }
    {
        let allowed = allowed_of(alloc, judged.decisions.as_slice())?;
        Ok(Offer {
            nodes: judged.nodes.as_slice(),
            allowed,
        })
    }

    /// The nodes of its tree, in postfix order.
    pub fn nodes(&self) -> &[ExprNode<'c>]
        ensures { result.now ≡ self.now.nodes.now }
    {
        self.nodes
    }
}

// Whether each decision allows.
fn allowed_of(alloc: Global, decisions: &[Decision]) -> Result<Vec<bool>, AllocError>
    ensures { IfOk result (λ allowed. allowed.items ≡ accepted_in decisions.now) }
{
    let mut allowed = Vec::with_capacity(alloc, decisions.len())?;
    for decision in decisions {
        allowed.push(matches!(decision, Decision::Allowed(_)))?;
    }
    Ok(allowed)
}
