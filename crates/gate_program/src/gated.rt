// The packages of some files, and what a policy says of them.

ghost use Rattle.std.specs.Prelude.{◌≡◌, IfOk};
ghost use Rattle.gate_program.specs.Gated.{IsBeforeOf, IsGated, known_in, older_in, path_of_first};
ghost use Rattle.std.specs.Option.{option_copied};

use crate::before::{Before, refused_before};
use crate::judging::judged;
use package_files::Listed;
use spdx_catalogue::Catalogue;
use spdx_gate::Report;
use spdx_policy::Policy;
use std::alloc::{AllocError, Global};

/// The packages of some files, and what a policy says of them; and which refusals are known, where older files are given.
#[derive(Drop)]
pub struct Gated<'c> {
    pub files: Vec<Listed>,
    pub report: Report<'c>,
    pub before: Option<Before>,
}

impl<'c> Gated<'c> {
    /// What the policy says of the packages of all files, in their order, and which of them it refuses in the older ones too.
    ///
    /// # Errors
    ///
    /// Memory was refused.
    pub fn of(
        alloc: Global,
        catalogue: &'c Catalogue,
        policy: &Policy<'c>,
        files: Vec<Listed>,
        older: Option<Vec<Listed>>,
    ) -> Result<Gated<'c>, AllocError>
        ensures { IfOk result (IsGated catalogue.now policy.now files.items older) }
    {
        let report = judged(alloc, catalogue, policy, &files)?;
        let before = before_of(alloc, catalogue, policy, older, &files, &report)?;
        Ok(Gated {
            files,
            report,
            before,
        })
    }

    /// Of each package whether its refusal is known, where older files are given.
    pub(crate) fn known(&self) -> Option<&[bool]>
        ensures { option_copied result ≡ known_in self.now }
    {
        match &self.before {
            Some(before) => Some(before.known.as_slice()),
            None => None,
        }
    }

    /// The path of the older file, where one is given.
    pub(crate) fn older_path(&self) -> Option<&str>
        ensures { option_copied result ≡ older_in self.now }
    {
        match &self.before {
            Some(before) => path_of(&before.older),
            None => None,
        }
    }
}

fn path_of(files: &[Listed]) -> Option<&str>
    ensures { option_copied result ≡ path_of_first files.now }
{
    match files.get(0) {
        Some(file) => Some(file.path.as_str()),
        None => None,
    }
}

fn before_of<'c>(
    alloc: Global,
    catalogue: &'c Catalogue,
    policy: &Policy<'c>,
    older: Option<Vec<Listed>>,
    files: &[Listed],
    report: &Report<'_>,
) -> Result<Option<Before>, AllocError>
    ensures { IfOk result (IsBeforeOf catalogue.now policy.now older files.now report.now) }
{
    match older {
        Some(older) => Ok(Some(refused_before(alloc, catalogue, policy, older, files, report)?)),
        None => Ok(None),
    }
}
