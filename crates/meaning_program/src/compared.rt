//! How what two expressions ask compares, as it is told.

ghost use Rattle.std.specs.Prelude.{◌≡◌, IfErr, IfOk, map};
ghost use Rattle.spdx_parser.specs.Tree.{node_of};
ghost use Rattle.spdx_evaluation.specs.Postfix.{IsPostfix, tree_in};
ghost use Rattle.list_program.specs.Named.{inside_of};
ghost use Rattle.meaning_program.specs.Compared as spec;
ghost use Rattle.meaning_program.specs.Compared.{
  IsCompared,
  IsComparedBy,
  IsNotCompared,
  IsToldOf,
  IsUnsaidOf,
  TellsSame,
};
ghost use Rattle.meaning_program.specs.Sayings.{alike};

use crate::reading::{mode_by, read_as};
use crate::sayings::told_text;
use crate::trouble::{MeaningTrouble, told_as};
use list_program::{Inside, named_list};
use shelves::Shelf;
use spdx_canonical::normal_text;
use spdx_catalogue::{Catalogue, Failure};
use spdx_meaning::{Relation, Unmeant, compare_sets, minimal_sets, nodes_of};
use spdx_parser::node::{ExprNode, NodeList};
use std::alloc::{AllocError, Global};

/// Two texts to compare, and how they are read.
#[derive(Clone, Copy)]
pub struct TextPair<'a> {
    /// The path of the list, where one is named.
    pub list: Option<&'a str>,
    pub is_lax: bool,
    pub one: &'a str,
    pub other: &'a str,
}

/// What is told.
#[derive(Drop)]
pub struct Compared {
    pub text: Vec<u8>,
    /// Whether both mean the same.
    pub is_same: bool,
}

/// Tells how what the one text asks compares with what the other one asks, by the list that is named, and the fewest
/// licences with which each holds and the other one doesn't.
///
/// # Errors
///
/// The list isn't had; a text is no expression, or too many sets of requirements are made of it, the first text's fault
/// first; or memory was refused.
pub fn compare<S: Shelf>(
    alloc: Global,
    shelf: &S,
    inside: Inside<'_>,
    asked: TextPair<'_>,
) -> Result<Compared, MeaningTrouble>
    ensures ok { IfOk result (IsCompared (S.told shelf.now)
        (inside_of inside.entry.list.now inside.entry.extras.now) asked.entry) }
    ensures err { IfErr result (IsNotCompared (S.told shelf.now)
        (inside_of inside.entry.list.now inside.entry.extras.now) asked.entry) }
    ensures same { IfOk result (TellsSame (S.told shelf.now)
        (inside_of inside.entry.list.now inside.entry.extras.now) asked.entry) }
{
    let catalogue = named_list(alloc, shelf, inside, asked.list)?;
    let compared = compared_by(alloc, &catalogue, asked)?;
    Ok(compared)
}

// How they compare by this list.
fn compared_by(
    alloc: Global,
    catalogue: &Catalogue,
    asked: TextPair<'_>,
) -> Result<Compared, MeaningTrouble>
    ensures ok { IfOk result (IsComparedBy catalogue.now asked.entry) }
    ensures err { IfErr result (IsUnsaidOf catalogue.now asked.entry) }
{
    let one = read_as(alloc, catalogue, asked.is_lax, asked.one)?;
    let first = meaning_in(alloc, catalogue, asked.is_lax, one.as_str())?;
    let other = read_as(alloc, catalogue, asked.is_lax, asked.other)?;
    let second = meaning_in(alloc, catalogue, asked.is_lax, other.as_str())?;
    let told = told_of(alloc, asked, &first, &second)?;
    Ok(told)
}

// The nodes of an expression, and its minimal sets.
#[derive(Drop)]
struct Meant<'c> {
    nodes: NodeList<'c>,
    sets: Vec<Vec<usize>>,
}

fn meaning_in<'c>(
    alloc: Global,
    catalogue: &'c Catalogue,
    is_lax: bool,
    text: &str,
) -> Result<Meant<'c>, MeaningTrouble>
    ensures ok { IfOk result (spec.IsMeant catalogue.now is_lax text.now) }
    ensures err { IfErr result (spec.IsUnmeantText catalogue.now is_lax text.now) }
{
    let nodes = match nodes_of(alloc, catalogue, mode_by(is_lax), text) {
        Ok(nodes) => nodes,
        Err(Failure::Refused(why)) => {
            return Err(MeaningTrouble::Unsaid(told_as(alloc, text, &why)?));
        }
        Err(Failure::Memory(_)) => return Err(MeaningTrouble::Memory),
    };
    match minimal_sets(alloc, nodes.as_slice()) {
        Ok(sets) => Ok(Meant { nodes, sets }),
        Err(Failure::Refused(many)) => {
            let why = Unmeant::TooMany(many);
            Err(MeaningTrouble::Unsaid(told_as(alloc, text, &why)?))
        }
        Err(Failure::Memory(_)) => Err(MeaningTrouble::Memory),
    }
}

fn told_of(
    alloc: Global,
    asked: TextPair<'_>,
    first: &Meant<'_>,
    second: &Meant<'_>,
) -> Result<Compared, AllocError>
    requires first { spec.HasSets first.now }
    requires second { spec.HasSets second.now }
    ensures { IfOk result (IsToldOf asked.entry.one.now asked.entry.other.now
        (tree_in first.now.nodes.items) (tree_in second.now.nodes.items)) }
{
    let (one, other) = (first.nodes.as_slice(), second.nodes.as_slice());
    let comparison = compare_sets(alloc, one, &first.sets, other, &second.sets)?;
    let is_alike = are_alike(alloc, one, other)?;
    let text = told_text(alloc, asked.one == asked.other, is_alike, &comparison)?;
    Ok(Compared {
        text,
        is_same: is_same(comparison.relation),
    })
}

fn is_same(relation: Relation) -> bool
    ensures { result ≡ spec.is_same relation }
{
    matches!(relation, Relation::Same)
}

// Whether both are written alike.
fn are_alike(
    alloc: Global,
    one: &[ExprNode<'_>],
    other: &[ExprNode<'_>],
) -> Result<bool, AllocError>
    requires tree { IsPostfix (map node_of one.now) }
    requires other { IsPostfix (map node_of other.now) }
    ensures { IfOk result (λ are. are ≡ alike (tree_in one.now) (tree_in other.now)) }
{
    let one = normal_text(alloc, one)?;
    let other = normal_text(alloc, other)?;
    Ok(one.as_str() == other.as_str())
}
