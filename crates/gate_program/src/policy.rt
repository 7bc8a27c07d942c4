// The policy that packages are judged by, over a shelf.

ghost use Rattle.std.specs.Prelude.{◌≡◌, Ok, IfErr, IfOk, map};
ghost use Rattle.spdx_licensee.specs.Shown.{replaced_name};
ghost use Rattle.spdx_list.specs.Shown.{shown_extras, shown_replacement};
ghost use Rattle.spdx_list.specs.Files.{extras_in};
ghost use Rattle.gate_program.specs.Policy.{
  AreNoReplacements,
  AreReplacementsIn,
  IsNoPolicyAt,
  IsPolicyAt,
  IsUnread,
  replaced_name_of,
};

use shelves::Shelf;
use spdx_catalogue::Catalogue;
use spdx_licensee::{ReplacedName, Replacements};
use spdx_list::{Extras, ListFault, Replacement};
use spdx_policy::{Policy, PolicyFault};
use spdx_requirement::failure::Failure;
use std::alloc::{AllocError, Global};
use std::io;

/// Why there is no policy.
#[derive(Drop)]
pub enum PolicyTrouble {
    /// The file at the path can't be read.
    Unreadable(String, io::Error),
    /// The file at the path holds no policy.
    NoPolicy(String, PolicyFault),
    /// What stands in the place of deprecated names isn't readable.
    NoReplacements(ListFault),
    Memory,
}

impl From<AllocError> for PolicyTrouble {
    ghost use Rattle.std.specs.Prelude.{◌≡◌};
    ghost use Rattle.gate_program.specs.declared.policy.PolicyTrouble.TheVariants.{Memory};

    ghost from_gives = { λ _ t. t ≡ Memory };

    fn from(_error: AllocError) -> PolicyTrouble {
        PolicyTrouble::Memory
    }
}

/// The policy of the file at the path, over the list; `replacements` are extras that say what replaces its deprecated
/// names.
///
/// # Errors
///
/// The file can't be read, or holds no policy; the replacements are no extras; or memory was refused.
pub fn policy_at<'c, S: Shelf>(
    alloc: Global,
    shelf: &S,
    replacements: &[u8],
    catalogue: &'c Catalogue,
    path: &str,
) -> Result<Policy<'c>, PolicyTrouble>
    ensures ok { IfOk result (IsPolicyAt (S.told shelf.now) replacements.now catalogue.now
        path.now) }
    ensures err { IfErr result (IsNoPolicyAt (S.told shelf.now) replacements.now catalogue.now
        path.now) }
{
    let bytes = bytes_of(alloc, shelf, path)?;
    let replacements = replacements_in(alloc, replacements, catalogue)?;
    match Policy::from_toml(alloc, catalogue, replacements, &bytes) {
        Ok(policy) => Ok(policy),
        Err(Failure::Refused(fault)) => {
            Err(PolicyTrouble::NoPolicy(String::from_str(alloc, path)?, fault))
        }
        Err(Failure::Memory(_)) => Err(PolicyTrouble::Memory),
    }
}

fn bytes_of<S: Shelf>(alloc: Global, shelf: &S, path: &str) -> Result<Vec<u8>, PolicyTrouble>
    ensures ok { IfOk result (λ bytes. (S.told shelf.now).Holds path.now bytes.items) }
    ensures err { IfErr result (IsUnread (S.told shelf.now) path.now) }
{
    match shelf.read(alloc, path) {
        Ok(bytes) => Ok(bytes),
        Err(error) => Err(PolicyTrouble::Unreadable(String::from_str(alloc, path)?, error)),
    }
}

// What stands in the place of the list's deprecated names.
fn replacements_in<'c>(
    alloc: Global,
    bytes: &[u8],
    catalogue: &'c Catalogue,
) -> Result<Replacements<'c>, PolicyTrouble>
    ensures ok { IfOk result (AreReplacementsIn bytes.now catalogue.now) }
    ensures err { IfErr result (AreNoReplacements bytes.now) }
{
    let extras = extras_in(alloc, bytes)?;
    let rows = replaced_names_in(alloc, &extras.instead)?;
    let replacements = Replacements::of_rows(alloc, catalogue, &rows)?;
    Ok(replacements)
}

fn extras_in(alloc: Global, bytes: &[u8]) -> Result<Extras, PolicyTrouble>
    ensures ok { IfOk result (λ x. extras_in bytes.now ≡ Ok (shown_extras x)) }
    ensures err { IfErr result (AreNoReplacements bytes.now) }
{
    match Extras::from_json(alloc, bytes) {
        Ok(extras) => Ok(extras),
        Err(Failure::Refused(fault)) => Err(PolicyTrouble::NoReplacements(fault)),
        Err(Failure::Memory(_)) => Err(PolicyTrouble::Memory),
    }
}

fn replaced_names_in<'x>(
    alloc: Global,
    rows: &'x [Replacement],
) -> Result<Vec<ReplacedName<'x>>, AllocError>
    ensures { IfOk result (λ all. map replaced_name all.items
        ≡ map replaced_name_of (map shown_replacement rows.now)) }
{
    let mut all = Vec::new(alloc);
    for row in rows {
        all.push(ReplacedName {
            name: row.name.as_str(),
            write: row.write.as_str(),
        })?;
    }
    Ok(all)
}
