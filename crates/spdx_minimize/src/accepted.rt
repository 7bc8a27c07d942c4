//! The licensees of a run.

ghost use Rattle.std.specs.Prelude.{◌≡◌, ◌++◌, IfOk, IfErr, OnOk, map};
ghost use Rattle.spdx_requirement.specs.Items.{requirement_of};
ghost use Rattle.spdx_parser.specs.Tree.{leaves, node_of};
ghost use Rattle.spdx_evaluation.specs.Postfix.{IsPostfix, tree_in};
ghost use Rattle.spdx_minimize.specs.FirstPlaces.{places_for, at_places, AreFound};
ghost use Rattle.spdx_evaluation.specs.Requirements.{nows};
ghost use Rattle.spdx_minimize.specs.Choice.{useful, chosen, choice_of, IsLeastChoice};
ghost use Rattle.spdx_minimize.specs.MinimizeFaults.{refused_choice};
ghost use Rattle.spdx_requirement.specs.Failures.{IfRefused};
ghost use Rattle.spdx_minimize.specs.Trees.{trees_in};
ghost use Rattle.std.specs.List.{flat_map};

pub(crate) mod found;

use crate::accepted::found::FoundPlaces;
use crate::choice::choice_among_members;
use crate::minimize_error::MinimizeError;
use crate::nodes::TreeNodes;
use crate::useful::{is_among, satisfies};
use spdx_catalogue::{Failure, LicenseReq};
use spdx_licensee::Licensee;
use spdx_parser::node::ExprNode;
use std::alloc::{AllocError, Global};

/// The licensees of a run, and where those stand that satisfy the requirements that came lately.
///
/// What is remembered are requirements without references, at most 2,048 of them, each with the
/// places of the licensees that satisfy it.
#[derive(Drop)]
pub struct AcceptedLicensees<'a, 'c> {
    licensees: &'a [Licensee<'c>],
    found: FoundPlaces<'c>,
    ghost known: { AreFound licensees.now found.slots.items },
}

impl<'a, 'c> AcceptedLicensees<'a, 'c> {
    ghost use Rattle.spdx_minimize.specs.AcceptedModel.{licensees_of};

    /// These licensees, of which nothing was asked. Takes no memory.
    pub fn new(alloc: Global, licensees: &'a [Licensee<'c>]) -> AcceptedLicensees<'a, 'c>
        ensures { licensees_of result ≡ licensees.now }
    {
        let found = FoundPlaces::new(alloc);
        AcceptedLicensees { licensees, found }
    }

    /// The choice of [`crate::least_choice`] among these licensees.
    ///
    /// For a requirement that is not remembered each licensee is asked, and each one that satisfies it
    /// compared with those before it. For a remembered one only the licensees that satisfy it are
    /// looked at. Their places are sorted, and the choice goes on as there.
    ///
    /// # Errors
    ///
    /// Those of [`crate::least_choice`]. Where memory is wanting for what is remembered alone,
    /// nothing is remembered.
    pub fn least_choice<'l>(
        &mut self,
        alloc: Global,
        lists: &[TreeNodes<'l, 'c>],
    ) -> Result<Vec<LicenseReq<'c>>, Failure<MinimizeError>>
    where
        'a: 'l,
        'c: 'l,
        ensures ok { IfOk result (λ reqs. choice_of (trees_in lists.now) (licensees_of self.old)
            ≡ chosen (map requirement_of reqs.items)) }
        ensures err { IfErr result (IfRefused (λ e.
            choice_of (trees_in lists.now) (licensees_of self.old) ≡ refused_choice e)) }
        ensures least { IfOk result (λ reqs. IsLeastChoice (trees_in lists.now)
            (useful (trees_in lists.now) (licensees_of self.old))
            (map requirement_of reqs.items)) }
        ensures licensees { licensees_of self.new ≡ licensees_of self.old }
    {
        let members = self.useful_members(alloc, lists)?;
        choice_among_members(alloc, lists, members.as_slice())
    }

    // The useful ones of the licensees.
    fn useful_members(
        &mut self,
        alloc: Global,
        lists: &[TreeNodes<'_, 'c>],
    ) -> Result<Vec<&'a Licensee<'c>>, AllocError>
        ensures useful { IfOk result (λ members.
            nows members.items ≡ useful (trees_in lists.now) (licensees_of self.old)) }
        ensures licensees { licensees_of self.new ≡ licensees_of self.old }
    {
        if self.licensees.is_empty() {
            return Ok(Vec::new(alloc));
        }
        let mut places = Vec::new(alloc);
        for list in lists {
            self.put_places_for_all(alloc, list.nodes, &mut places)?;
        }
        places.sort()?;
        places.dedup();
        members_at(alloc, self.licensees, &places)
    }

    // Appends the places for each requirement among the nodes.
    fn put_places_for_all(
        &mut self,
        alloc: Global,
        nodes: &[ExprNode<'c>],
        places: &mut Vec<usize>,
    ) -> Result<(), AllocError>
        requires { IsPostfix (map node_of nodes.now) }
        ensures places { OnOk result (places.new.items ≡ places.old.items
            ++ flat_map (places_for (licensees_of self.old)) (leaves (tree_in nodes.now))) }
        ensures licensees { licensees_of self.new ≡ licensees_of self.old }
    {
        for node in nodes {
            if let ExprNode::Req(requirement) = node {
                self.put_places_for(alloc, &requirement.req, places)?;
            }
        }
        Ok(())
    }

    // Appends the places for the requirement.
    fn put_places_for(
        &mut self,
        alloc: Global,
        requirement: &LicenseReq<'c>,
        places: &mut Vec<usize>,
    ) -> Result<(), AllocError>
        ensures places { OnOk result (places.new.items ≡ places.old.items
            ++ places_for (licensees_of self.old) (requirement_of requirement.now)) }
        ensures licensees { licensees_of self.new ≡ licensees_of self.old }
    {
        if let Some(found) = self.found.find(requirement) {
            return places.extend_from_slice(found);
        }
        let found = places_for(alloc, self.licensees, requirement)?;
        places.extend_from_slice(&found)?;
        self.found.keep(alloc, requirement, found);
        Ok(())
    }
}

// The places of the distinct licensees that satisfy the requirement.
fn places_for(
    alloc: Global,
    licensees: &[Licensee<'_>],
    requirement: &LicenseReq<'_>,
) -> Result<Vec<usize>, AllocError>
    ensures { IfOk result (λ found.
        found.items ≡ places_for licensees.now (requirement_of requirement.now)) }
{
    let mut found = Vec::new(alloc);
    for place in 0..licensees.len() {
        let licensee = &licensees[place];
        if satisfies(licensee, requirement) && !is_among(licensee, &licensees[..place]) {
            found.push(place)?;
        }
    }
    Ok(found)
}

// The licensees at the places.
fn members_at<'a, 'c>(
    alloc: Global,
    licensees: &'a [Licensee<'c>],
    places: &[usize],
) -> Result<Vec<&'a Licensee<'c>>, AllocError>
    ensures { IfOk result (λ members.
        nows members.items ≡ at_places licensees.now places.now) }
{
    let mut members = Vec::new(alloc);
    for place in places {
        if let Some(licensee) = licensees.get(*place) {
            members.push(licensee)?;
        }
    }
    Ok(members)
}
