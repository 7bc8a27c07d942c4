//! Expressions as text.

ghost use Rattle.std.specs.Prelude.{Some};

use crate::expression::Expression;
use spdx_parser::node::{ExprNode, Operator};
use std::fmt;

// The text that was read.
impl<'c> fmt::Display for Expression<'c> {
    ghost output = { λ e. Some e.text };

    fn fmt<W: fmt::Write>(&self, f: &mut fmt::Formatter<W>) -> fmt::Result {
        f.write_str(self.text())
    }
}

// The nodes in postfix order, with one space between.
impl<'c> fmt::Debug for Expression<'c> {
    fn fmt<W: fmt::Write>(&self, f: &mut fmt::Formatter<W>) -> fmt::Result {
        let mut space = "";
        for node in self.nodes() {
            f.write_str(space)?;
            match node {
                ExprNode::Req(requirement) => write!(f, "{}", requirement.req)?,
                ExprNode::Op(Operator::And) => f.write_str("AND")?,
                ExprNode::Op(Operator::Or) => f.write_str("OR")?,
            }
            space = " ";
        }
        Ok(())
    }
}
