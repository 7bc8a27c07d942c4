// The nodes of a text, or why it has no meaning that can be told.

ghost use Rattle.std.specs.Prelude.{IfOk, IfErr, map};
ghost use Rattle.spdx_requirement.specs.Failures.{IfRefused};
ghost use Rattle.spdx_parser.specs.Tree.{node_of};
ghost use Rattle.spdx_evaluation.specs.Postfix.{IsPostfix};
ghost use Rattle.spdx_meaning.specs.Reading.{IsRead, IsUnmeant, IsUnread};

use crate::error::TooManySets;
use spdx_catalogue::{Catalogue, Failure};
use spdx_lexer::{ParseError, ParseMode};
use spdx_parser::node::NodeList;
use spdx_parser::parse_nodes;
use std::alloc::Global;

/// Why it isn't told what a text means.
#[derive(Debug, Drop)]
pub enum Unmeant<'t> {
    /// It is no expression.
    Unread(ParseError<'t>),
    /// It makes too many sets of requirements.
    TooMany(TooManySets),
}

/// The nodes of the expression that a text is.
///
/// # Errors
///
/// It is none, or memory was refused.
pub fn nodes_of<'c, 't>(
    alloc: Global,
    catalogue: &'c Catalogue,
    mode: ParseMode,
    text: &'t str,
) -> Result<NodeList<'c>, Failure<Unmeant<'t>>>
    ensures read { IfOk result (λ nodes. IsRead catalogue.now mode text.now nodes.items) }
    ensures tree { IfOk result (λ nodes. IsPostfix (map node_of nodes.items)) }
    ensures err { IfErr result (IfRefused (IsUnmeant catalogue.now mode text.now)) }
    ensures unread { IfErr result (IfRefused (IsUnread catalogue.now mode text.now)) }
{
    match parse_nodes(alloc, catalogue, text, mode) {
        Ok(nodes) => Ok(nodes),
        Err(Failure::Refused(error)) => Err(Failure::Refused(Unmeant::Unread(error))),
        Err(Failure::Memory(error)) => Err(Failure::Memory(error)),
    }
}
