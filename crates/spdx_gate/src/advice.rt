//! What would make a refused expression pass.

ghost use Rattle.std.specs.Prelude.{
  ◌≡◌,
  IfOk,
  false,
  [],
  ◌∷◌,
  map,
  slice_get,
  unwrap_or,
  bytes_eq,
  string_bytes,
};
ghost use Rattle.std.specs.List.{list_any};
ghost use Rattle.spdx_requirement.specs.Items.{requirement_of};
ghost use Rattle.spdx_parser.specs.Tree.{leaves, node_of};
ghost use Rattle.spdx_evaluation.specs.Postfix.{IsPostfix, tree_in};
ghost use Rattle.spdx_policy.specs.Decisions.{frees};
ghost use Rattle.spdx_policy.specs.Scopes.{places};
ghost use Rattle.spdx_why.specs.Least.{advised};
ghost use Rattle.spdx_why.specs.Serving as serving;
ghost use Rattle.spdx_gate.specs.Advising as spec;
ghost use Rattle.spdx_gate.specs.Advising.{IsAdvised, AreEntries, Advises};
ghost use Rattle.spdx_gate.specs.Allowing.{allowed_in};
ghost use Rattle.spdx_gate.specs.Texts.{each_once};
ghost use Rattle.spdx_gate.specs.Ways.{each_reqs};

use spdx_catalogue::LicenseReq;
use spdx_parser::node::ExprNode;
use spdx_policy::{Offer, Policy};
use spdx_why::{Remedy, least_serving};
use std::alloc::{AllocError, Global};

/// What to allow besides.
#[derive(Debug, Drop)]
pub enum Advice {
    /// These entries in `allow`, in the order of the text: the least choice. None, where the
    /// expression passes already.
    Allow(Vec<String>),
    /// Nothing: not even all that may be allowed suffice.
    Unmet,
    /// It wasn't sought: there are so many entries to choose from, more than 1,024.
    TooMany(usize),
}

/// The least choice of entries that makes the expression pass beside what is allowed. The entries to
/// choose from are those of the licences under which the requirements that aren't allowed may be had,
/// but for what is denied; each serves every requirement that it would allow.
pub(crate) fn advise<'c>(
    alloc: Global,
    policy: &Policy<'c>,
    exceptions: &[usize],
    nodes: &[ExprNode<'c>],
    accepted: &[bool],
) -> Result<Advice, AllocError>
    requires tree { IsPostfix (map node_of nodes.now) }
    requires accepted { accepted.now ≡ map (allowed_in policy.now exceptions.now)
        (leaves (tree_in nodes.now)) }
    ensures { IfOk result (λ advice.
        IsAdvised policy.now exceptions.now (tree_in nodes.now) advice) }
{
    let ways = ways_in(alloc, policy, nodes)?;
    let offers = offers_of(alloc, policy, exceptions, accepted, ways.as_slice())?;
    let serving = serving_of(
        alloc,
        policy,
        exceptions,
        offers.as_slice(),
        ways.as_slice(),
    )?;
    let remedy = least_serving(alloc, nodes, accepted, serving.as_slice(), offers.len())?;
    let advice = advice_of(alloc, offers.as_slice(), remedy)?;
    Ok(advice)
}

// The licences under which each requirement may be had.
fn ways_in<'c>(
    alloc: Global,
    policy: &Policy<'c>,
    nodes: &[ExprNode<'c>],
) -> Result<Vec<Vec<LicenseReq<'c>>>, AllocError>
    requires { IsPostfix (map node_of nodes.now) }
    ensures { IfOk result (λ ways.
        each_reqs ways.items ≡ spec.ways_in policy.now (tree_in nodes.now)) }
{
    let mut ways = Vec::new(alloc);
    for node in nodes {
        if let ExprNode::Req(requirement) = node {
            ways.push(policy.ways(alloc, &requirement.req)?)?;
        }
    }
    Ok(ways)
}

// The entries that the requirements that aren't accepted may be allowed by, each once.
fn offers_of<'c>(
    alloc: Global,
    policy: &Policy<'c>,
    exceptions: &[usize],
    accepted: &[bool],
    ways: &[Vec<LicenseReq<'c>>],
) -> Result<Vec<Offer<'c>>, AllocError>
    ensures { IfOk result (λ offers. AreEntries policy.now
        (each_once (spec.wanted_by policy.now exceptions.now accepted.now (each_reqs ways.now)))
        offers.items) }
{
    let mut offers = Vec::new(alloc);
    for number in 0..ways.len() {
        let is_accepted = is_accepted(accepted, number);
        add_offers(
            alloc,
            policy,
            exceptions,
            is_accepted,
            &ways[number],
            &mut offers,
        )?;
    }
    Ok(offers)
}

// Whether the requirement of that number is accepted.
fn is_accepted(accepted: &[bool], number: usize) -> bool
    ensures { result ≡ unwrap_or (slice_get accepted.now number) false }
{
    match accepted.get(number) {
        Some(is_accepted) => *is_accepted,
        None => false,
    }
}

// Adds the entries of a requirement that isn't accepted, which may be had under these licences.
fn add_offers<'c>(
    alloc: Global,
    policy: &Policy<'c>,
    exceptions: &[usize],
    is_accepted: bool,
    ways: &[LicenseReq<'c>],
    offers: &mut Vec<Offer<'c>>,
) -> Result<(), AllocError>
    ensures { IfOk result (λ _. spec.AddsOffers policy.now
        (spec.unless is_accepted (spec.free_texts policy.now exceptions.now
        (map requirement_of ways.now))) offers.old.items offers.new.items) }
{
    if is_accepted {
        return Ok(());
    }
    add_each(alloc, policy, exceptions, ways, offers)
}

// Adds the entry of each of the licences.
fn add_each<'c>(
    alloc: Global,
    policy: &Policy<'c>,
    exceptions: &[usize],
    ways: &[LicenseReq<'c>],
    offers: &mut Vec<Offer<'c>>,
) -> Result<(), AllocError>
    ensures { IfOk result (λ _. spec.AddsOffers policy.now
        (spec.free_texts policy.now exceptions.now (map requirement_of ways.now))
        offers.old.items offers.new.items) }
{
    for way in ways {
        add_offer(alloc, policy, exceptions, way, offers)?;
    }
    Ok(())
}

// Adds the entry of a licence that nothing denies, if there is one and its text isn't there.
fn add_offer<'c>(
    alloc: Global,
    policy: &Policy<'c>,
    exceptions: &[usize],
    way: &LicenseReq<'c>,
    offers: &mut Vec<Offer<'c>>,
) -> Result<(), AllocError>
    ensures { IfOk result (λ _. spec.AddsOffers policy.now
        (spec.free_texts policy.now exceptions.now (requirement_of way.now ∷ []))
        offers.old.items offers.new.items) }
{
    if !policy.is_free(exceptions, way) {
        return Ok(());
    }
    let Some(offer) = policy.offer(alloc, way)? else {
        return Ok(());
    };
    if has_text(offers.as_slice(), offer.text()) {
        return Ok(());
    }
    offers.push(offer)?;
    Ok(())
}

// Whether one of the offers has this text.
fn has_text(offers: &[Offer<'_>], text: &str) -> bool
    ensures { result ≡ list_any (λ n. bytes_eq n.text text.now) offers.now }
{
    for other in offers {
        if other.text() == text {
            return true;
        }
    }
    false
}

// Which of the offers would allow each requirement.
fn serving_of(
    alloc: Global,
    policy: &Policy<'_>,
    exceptions: &[usize],
    offers: &[Offer<'_>],
    ways: &[Vec<LicenseReq<'_>>],
) -> Result<Vec<Vec<usize>>, AllocError>
    ensures { IfOk result (λ found. serving.lists_in found.items
        ≡ spec.serving_of policy.now exceptions.now offers.now (each_reqs ways.now)) }
{
    let mut found = Vec::new(alloc);
    for number in 0..ways.len() {
        found.push(serving_in(alloc, policy, exceptions, offers, &ways[number])?)?;
    }
    Ok(found)
}

// Which of the offers would allow a requirement that may be had under these licences.
fn serving_in(
    alloc: Global,
    policy: &Policy<'_>,
    exceptions: &[usize],
    offers: &[Offer<'_>],
    ways: &[LicenseReq<'_>],
) -> Result<Vec<usize>, AllocError>
    ensures { IfOk result (λ found. found.items
        ≡ places (frees policy.now exceptions.now (map requirement_of ways.now)) offers.now) }
{
    let mut found = Vec::new(alloc);
    for number in 0..offers.len() {
        if policy.would_allow(exceptions, ways, &offers[number]) {
            found.push(number)?;
        }
    }
    Ok(found)
}

// The texts of what was chosen among the offers.
fn advice_of(alloc: Global, offers: &[Offer<'_>], remedy: Remedy) -> Result<Advice, AllocError>
    ensures { IfOk result (λ advice. Advises offers.now advice (advised remedy)) }
{
    match remedy {
        Remedy::Accept(numbers) => Ok(Advice::Allow(texts_at(alloc, offers, numbers.as_slice())?)),
        Remedy::Unmet => Ok(Advice::Unmet),
        Remedy::TooMany(count) => Ok(Advice::TooMany(count)),
    }
}

// The texts of the offers of these numbers.
fn texts_at(
    alloc: Global,
    offers: &[Offer<'_>],
    numbers: &[usize],
) -> Result<Vec<String>, AllocError>
    ensures { IfOk result (λ texts.
        map string_bytes texts.items ≡ spec.offered_texts offers.now numbers.now) }
{
    let mut texts = Vec::new(alloc);
    for number in numbers {
        texts.push(String::from_str(alloc, text_at(offers, *number))?)?;
    }
    Ok(texts)
}

// The text of the offer of that number; none is the empty text.
fn text_at<'o>(offers: &'o [Offer<'_>], number: usize) -> &'o str
    ensures { result.now ≡ spec.offered_text offers.now number }
{
    match offers.get(number) {
        Some(offer) => offer.text(),
        None => "",
    }
}
