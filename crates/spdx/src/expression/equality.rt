//! Equality of expressions.

ghost use Rattle.std.specs.Prelude.{◌≡◌, ◌↔◌, IsTrue, true, map};
ghost use Rattle.spdx_requirement.specs.Rows.{Rows};
ghost use Rattle.spdx_parser.specs.Tree.{node_of};
ghost use Rattle.std.specs.Cmp.Lexicographic.{pointwise};
ghost use Rattle.spdx_parser.specs.Meaning.{IsOfRows};
ghost use Rattle.spdx.specs.Equality.{same_node, same_tree, tree_key};
ghost use Rattle.spdx.specs.EqualityLaws.{same_tree_laws};

use crate::expression::Expression;
use spdx_parser::node::ExprNode;

// Of rows the index alone is compared; over one catalogue, in which each row stands at its index,
// expressions are therefore equal exactly if their trees are.
impl<'c> PartialEq for Expression<'c> {
    ghost eq = { λ a b. same_tree a.tree b.tree };

    ghost laws = { record {
      symm = λ a b. same_tree_laws.symm a.tree b.tree;
      trans = λ a b c e f. same_tree_laws.trans a.tree b.tree c.tree e f;
    } };

    fn eq(&self, other: &Self) -> bool
        ensures value { result ≡ same_tree self.now.tree other.now.tree }
        ensures by_key { IsTrue result ↔ (tree_key self.now.tree ≡ tree_key other.now.tree) }
        ensures of_one_catalogue { (c : Rows) → IsOfRows c self.now.tree →
            IsOfRows c other.now.tree → (IsTrue result ↔ (self.now.tree ≡ other.now.tree)) }
    {
        same_nodes(self.nodes(), other.nodes())
    }
}

// Whether the nodes are the same one by one, places aside.
fn same_nodes(a: &[ExprNode<'_>], b: &[ExprNode<'_>]) -> bool
    ensures { result ≡ pointwise same_node (map node_of a.now) (map node_of b.now) }
{
    if a.len() != b.len() {
        return false;
    }
    for i in 0..a.len() {
        if !are_same(&a[i], &b[i]) {
            return false;
        }
    }
    true
}

fn are_same(a: &ExprNode<'_>, b: &ExprNode<'_>) -> bool
    ensures { result ≡ same_node (node_of a.now) (node_of b.now) }
{
    a == b
}
