// What a package's license says.

ghost use Rattle.std.specs.Prelude.{◌≡◌, IfOk, IfSome, None, map, string_bytes};
ghost use Rattle.spdx_lexer.specs.Modes.{strict};
ghost use Rattle.spdx_parser.specs.Tree.{node_of};
ghost use Rattle.spdx_evaluation.specs.Postfix.{IsPostfix, tree_in};
ghost use Rattle.spdx_meaning.specs.Reading.{Says};
ghost use Rattle.package_changes.specs.Reading.{IsReadAs, IsNoExpression};
ghost use Rattle.package_changes.specs.Found.{IsRead};

use spdx_canonical::fix;
use spdx_catalogue::{Catalogue, Failure};
use spdx_lexer::ParseMode;
use spdx_meaning::minimal_sets;
use spdx_parser::node::NodeList;
use spdx_parser::parse_nodes;
use std::alloc::{AllocError, Global};

/// Why it isn't told what a license asks.
#[derive(Clone, Copy, Debug, PartialEq, Eq)]
pub enum Untold {
    /// None is stated.
    Unstated,
    /// It is no expression, nor has it a fix.
    Unread,
    /// So many sets of requirements are made of a part of it, more than the limit.
    TooManySets(usize),
}

/// What a license says.
#[derive(Drop)]
pub(crate) enum Reading<'c> {
    Said(NodeList<'c>),
    Untold(Untold),
}

/// What the license says; the empty one is not stated.
pub(crate) fn reading_of<'c>(
    alloc: Global,
    catalogue: &'c Catalogue,
    license: &str,
) -> Result<Reading<'c>, AllocError>
    ensures { IfOk result (IsRead catalogue.now license.now) }
{
    if license.is_empty() {
        return Ok(Reading::Untold(Untold::Unstated));
    }
    let text = as_read(alloc, catalogue, license)?;
    let Some(nodes) = strict_nodes(alloc, catalogue, text.as_str())? else {
        return Ok(Reading::Untold(Untold::Unread));
    };
    match minimal_sets(alloc, nodes.as_slice()) {
        Ok(_) => Ok(Reading::Said(nodes)),
        Err(Failure::Refused(many)) => Ok(Reading::Untold(Untold::TooManySets(many.0))),
        Err(Failure::Memory(error)) => Err(error),
    }
}

// The license's fix, where it has one; else the license.
fn as_read(alloc: Global, catalogue: &Catalogue, license: &str) -> Result<String, AllocError>
    ensures { IfOk result (λ text. IsReadAs catalogue.now license.now (string_bytes text)) }
{
    match fix(alloc, catalogue, license)? {
        Some(mended) => Ok(mended),
        None => String::from_str(alloc, license),
    }
}

// The nodes of the text, if it is an expression.
fn strict_nodes<'c>(
    alloc: Global,
    catalogue: &'c Catalogue,
    text: &str,
) -> Result<Option<NodeList<'c>>, AllocError>
    ensures some { IfOk result (λ found. IfSome found (λ nodes.
        Says catalogue.now strict text.now (tree_in nodes.items))) }
    ensures tree { IfOk result (λ found. IfSome found (λ nodes.
        IsPostfix (map node_of nodes.items))) }
    ensures none { IfOk result (λ found. found ≡ None → IsNoExpression catalogue.now text.now) }
{
    match parse_nodes(alloc, catalogue, text, ParseMode::STRICT) {
        Ok(nodes) => Ok(Some(nodes)),
        Err(Failure::Refused(_)) => Ok(None),
        Err(Failure::Memory(error)) => Err(error),
    }
}
