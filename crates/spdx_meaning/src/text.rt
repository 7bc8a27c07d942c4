//! The text of what an expression means.

ghost use Rattle.std.specs.Prelude.{◌≡◌, ◌++◌, codes, map, IfOk, IfErr, OnOk, IsOk, Err, string_bytes};
ghost use Rattle.spdx_requirement.specs.Failures.{IfRefused};
ghost use Rattle.spdx_requirement.specs.Items.{requirement_of};
ghost use Rattle.spdx_parser.specs.Tree.{node_of};
ghost use Rattle.spdx_evaluation.specs.Postfix.{IsPostfix, tree_in};
ghost use Rattle.selections.specs.Sets.{set_of};
ghost use Rattle.spdx_meaning.specs.MeaningText.{made_by_rank, IsMeaningText};
ghost use Rattle.spdx_meaning.specs.Joined.{joined};
ghost use Rattle.spdx_meaning.specs.Ranks.{name_at};

pub(crate) mod meaning_of_text;
pub(crate) mod ranking;
pub mod text_laws;

use crate::error::TooManySets;
use crate::made::sets_of;
use crate::text::ranking::{in_order, ranks_of};
use selections::order;
use spdx_catalogue::{Failure, LicenseReq};
use spdx_parser::node::ExprNode;
use std::alloc::{AllocError, Global};

/// The meaning text of an expression: its least sets of requirements, those of each joined by ` AND `, and the sets by
/// ` OR `. It has no parentheses. The requirements of a set ascend as `LicenseReq::cmp` has them, and the sets by size and
/// then by their first requirement that differs.
///
/// Two expressions that strict parsing gave over one catalogue have the same meaning text exactly if they are equivalent;
/// and it is read strictly as an equivalent expression, which has this text as its own.
///
/// # Errors
///
/// Memory was refused, or too many sets are made, as [`crate::minimal_sets`] says.
pub fn meaning_text(alloc: Global, nodes: &[ExprNode<'_>]) -> Result<String, Failure<TooManySets>>
    requires { IsPostfix (map node_of nodes.now) }
    ensures ok { IfOk result (λ text. IsMeaningText (tree_in nodes.now) (string_bytes text)) }
    ensures few { IfOk result (λ text. IsOk (made_by_rank (tree_in nodes.now))) }
    ensures err { IfErr result (IfRefused (λ e. made_by_rank (tree_in nodes.now) ≡ Err e.0)) }
{
    let requirements = in_order(alloc, nodes)?;
    let ranks = ranks_of(alloc, nodes, requirements.as_slice())?;
    let sets = sets_of(alloc, nodes, ranks.as_slice())?;
    let ordered = order::in_order(alloc, sets)?;
    let mut text = String::new(alloc);
    put_sets(&mut text, requirements.as_slice(), ordered.as_slice())?;
    Ok(text)
}

// Appends the sets.
fn put_sets(
    text: &mut String,
    requirements: &[LicenseReq<'_>],
    sets: &[Vec<usize>],
) -> Result<(), AllocError>
    ensures { OnOk result (string_bytes text.new ≡ string_bytes text.old ++ joined (codes " OR ")
        (λ s. joined (codes " AND ") (name_at (map requirement_of requirements.now)) (set_of s)) sets.now) }
{
    let Some((first, others)) = sets.split_first() else {
        return Ok(());
    };
    put_set(text, requirements, first.as_slice())?;
    for set in others {
        text.push_str(" OR ")?;
        put_set(text, requirements, set.as_slice())?;
    }
    Ok(())
}

// Appends the requirements of a set.
fn put_set(
    text: &mut String,
    requirements: &[LicenseReq<'_>],
    set: &[usize],
) -> Result<(), AllocError>
    ensures { OnOk result (string_bytes text.new ≡ string_bytes text.old
        ++ joined (codes " AND ") (name_at (map requirement_of requirements.now)) set.now) }
{
    let Some((first, others)) = set.split_first() else {
        return Ok(());
    };
    put_name(text, requirements, *first)?;
    for rank in others {
        text.push_str(" AND ")?;
        put_name(text, requirements, *rank)?;
    }
    Ok(())
}

// Appends the requirement that has the rank.
fn put_name(
    text: &mut String,
    requirements: &[LicenseReq<'_>],
    rank: usize,
) -> Result<(), AllocError>
    ensures { OnOk result (string_bytes text.new ≡ string_bytes text.old
        ++ name_at (map requirement_of requirements.now) rank) }
{
    match requirements.get(rank) {
        Some(requirement) => write!(text, "{requirement}"),
        None => Ok(()),
    }
}
