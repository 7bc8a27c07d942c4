// Which license texts an expression needs.

ghost use Rattle.std.specs.Prelude.{◌≡◌, ◌++◌, IfOk, OnOk, filter, flat_map, map, string_bytes};
ghost use Rattle.spdx_requirement.specs.Items.{requirement_of};
ghost use Rattle.spdx_licensee.specs.Wanted.{wanted};
ghost use Rattle.check_sources.specs.Needs as spec;
ghost use Rattle.check_sources.specs.Needs.{AreNeeded};

use spdx_catalogue::{Catalogue, LicenseReq};
use spdx_lexer::token::ParseMode;
use spdx_licensee::texts_of;
use spdx_parser::node::ExprNode;
use spdx_parser::parse_nodes;
use spdx_requirement::failure::Failure;
use std::alloc::{AllocError, Global};

/// The names of the texts that the expression of these bytes needs, each as often as it is used: of each license and of each
/// exception. Deprecated names have texts too; what another document names has its text there. Bytes that are no expression
/// need none.
///
/// # Errors
///
/// Memory was refused.
#[tactic(auto, using(crate::proofs::Reading::by_nodes, crate::proofs::Reading::none_refused, crate::proofs::Reading::none_no_text))]
pub fn needed_by(
    alloc: Global,
    catalogue: &Catalogue,
    mode: ParseMode,
    bytes: &[u8],
) -> Result<Vec<String>, AllocError>
    ensures { IfOk result (λ names.
        AreNeeded catalogue.now mode bytes.now (map string_bytes names.items)) }
{
    let Ok(text) = str::from_utf8(bytes) else {
        return Ok(Vec::new(alloc));
    };
    match parse_nodes(alloc, catalogue, text, with_deprecated(mode)) {
        Ok(nodes) => all_of(alloc, nodes.as_slice()),
        Err(Failure::Refused(_)) => Ok(Vec::new(alloc)),
        Err(Failure::Memory(error)) => Err(error),
    }
}

fn with_deprecated(mode: ParseMode) -> ParseMode
    ensures { result ≡ spec.with_deprecated mode }
{
    ParseMode {
        allow_deprecated: true,
        ..mode
    }
}

// What the requirements among the nodes need.
fn all_of(alloc: Global, nodes: &[ExprNode<'_>]) -> Result<Vec<String>, AllocError>
    ensures { IfOk result (λ names.
        map string_bytes names.items ≡ flat_map spec.node_texts nodes.now) }
{
    let mut names = Vec::new(alloc);
    for node in nodes {
        if let ExprNode::Req(requirement) = node {
            put_own(alloc, &requirement.req, &mut names)?;
        }
    }
    Ok(names)
}

// Appends what a requirement needs, but for what another document names.
fn put_own(
    alloc: Global,
    requirement: &LicenseReq<'_>,
    names: &mut Vec<String>,
) -> Result<(), AllocError>
    ensures { OnOk result (map string_bytes names.new.items ≡ map string_bytes names.old.items
        ++ filter spec.is_own (wanted (requirement_of requirement.now))) }
{
    let wanted = texts_of(alloc, requirement)?;
    for text in wanted.texts {
        if is_own(text.as_str()) {
            names.push(text)?;
        }
    }
    Ok(())
}

// Whether no document stands before the name.
fn is_own(name: &str) -> bool
    ensures { result ≡ spec.is_own name.now }
{
    !has_colon(name)
}

fn has_colon(name: &str) -> bool
    ensures { result ≡ spec.has_colon name.now }
{
    name.bytes().any(|byte| byte == b':')
}
