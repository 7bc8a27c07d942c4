// A run of the gate, over a shelf.

ghost use Rattle.std.specs.Prelude.{◌≡◌, ◌<◌, ◌∷◌, [], IfErr, IfOk, None};
ghost use Rattle.std.specs.Option.{option_copied};
ghost use Rattle.list_program.specs.Named.{inside_of};
ghost use Rattle.gate_program.specs.Run as spec;
ghost use Rattle.gate_program.specs.Run.{
  AreAllAllowed,
  IsJudged,
  IsNoOlder,
  IsNoRun,
  IsOlder,
  IsRun,
  IsRunOver,
  IsWithoutBaseline,
  status_of,
};

use crate::gated::Gated;
use crate::policy::{PolicyTrouble, policy_at};
use crate::told::{GateText, Look, gate_text};
use list_program::{Inside, ListTrouble, named_list};
use package_files::{AllListed, FileFault, Listed, Source, Wanted, all_listed_at, listed_before};
use package_sources::Package;
use shelves::Shelf;
use spdx_catalogue::Catalogue;
use spdx_policy::Policy;
use std::alloc::{AllocError, Global};

/// What is asked of a run.
#[derive(Clone, Copy)]
pub struct Request<'a> {
    /// The path of the list, where one is named.
    pub list: Option<&'a str>,
    /// The path of the policy.
    pub policy: &'a str,
    /// Which packages are wanted.
    pub wanted: Wanted<'a>,
    /// The paths of the files; `-` is standard input.
    pub paths: &'a [&'a str],
    /// The path of an older file, whose refusals are known.
    pub baseline: Option<&'a str>,
    pub look: Look<'a>,
}

/// What comes of a run.
#[derive(Drop)]
pub struct Run {
    /// The files that are judged.
    pub files: Vec<Listed>,
    /// The fault of each file that is left out.
    pub left_out: Vec<FileFault>,
    pub end: End,
}

/// How a run ends.
#[derive(Drop)]
pub enum End {
    /// No file is judged.
    NoFile,
    /// The packages of the older file aren't had.
    NoBaseline(FileFault),
    /// This is told of the packages.
    Told(GateText),
    /// This is told, and no package has the name that was to be explained.
    NoPackage(GateText),
}

/// Why nothing is judged.
#[derive(Drop)]
pub enum GateTrouble {
    List(ListTrouble),
    Policy(PolicyTrouble),
    Memory,
}

impl From<AllocError> for GateTrouble {
    ghost use Rattle.std.specs.Prelude.{◌≡◌};
    ghost use Rattle.gate_program.specs.declared.run.GateTrouble.TheVariants.{Memory};

    ghost from_gives = { λ _ t. t ≡ Memory };

    fn from(_error: AllocError) -> GateTrouble {
        GateTrouble::Memory
    }
}

impl From<ListTrouble> for GateTrouble {
    ghost use Rattle.std.specs.Prelude.{◌≡◌};
    ghost use Rattle.gate_program.specs.declared.run.GateTrouble.TheVariants.{List};

    ghost from_gives = { λ list t. t ≡ List list };

    fn from(trouble: ListTrouble) -> GateTrouble {
        GateTrouble::List(trouble)
    }
}

impl From<PolicyTrouble> for GateTrouble {
    ghost use Rattle.std.specs.Prelude.{◌≡◌};
    ghost use Rattle.gate_program.specs.declared.run.GateTrouble.TheVariants.{Policy};

    ghost from_gives = { λ policy t. t ≡ Policy policy };

    fn from(trouble: PolicyTrouble) -> GateTrouble {
        GateTrouble::Policy(trouble)
    }
}

impl Run {
    /// The status: 0 exactly if every file is read, and every package of them allowed, or its refusal known from the older
    /// file; 2 where a file is left out, none is judged, the older one isn't had, or no package has the name that was to be
    /// explained; else 1.
    pub fn status(&self) -> u8
        ensures { result ≡ status_of self.now }
    {
        match &self.end {
            _ if !self.left_out.is_empty() => 2,
            End::Told(text) => u8::from(!text.is_passed),
            End::NoFile | End::NoBaseline(_) | End::NoPackage(_) => 2,
        }
    }
}

/// Reads the list, the policy and the files, and judges all packages; what stands in the place of the list's deprecated names
/// is said by `replacements`.
///
/// # Errors
///
/// The list or the policy isn't had, before any other file is read; or memory was refused.
pub fn gate<S: Shelf>(
    alloc: Global,
    shelf: &S,
    inside: Inside<'_>,
    replacements: &[u8],
    request: Request<'_>,
) -> Result<Run, GateTrouble>
    ensures ok { IfOk result (IsRun (S.told shelf.now)
        (inside_of inside.entry.list.now inside.entry.extras.now) replacements.now request.entry) }
    ensures err { IfErr result (IsNoRun (S.told shelf.now)
        (inside_of inside.entry.list.now inside.entry.extras.now) replacements.now request.entry) }
    ensures passes { IfOk result (λ run. status_of run < 1 →
        option_copied request.entry.baseline ≡ None →
        AreAllAllowed (S.told shelf.now) (inside_of inside.entry.list.now inside.entry.extras.now)
        replacements.now request.entry) }
{
    let catalogue = named_list(alloc, shelf, inside, request.list)?;
    let policy = policy_at(alloc, shelf, replacements, &catalogue, request.policy)?;
    let run = run_over(alloc, shelf, &catalogue, &policy, request)?;
    Ok(run)
}

// The same over this list and policy.
fn run_over<S: Shelf>(
    alloc: Global,
    shelf: &S,
    catalogue: &Catalogue,
    policy: &Policy<'_>,
    request: Request<'_>,
) -> Result<Run, AllocError>
    ensures { IfOk result (IsRunOver (S.told shelf.now) catalogue.now policy.now request.entry) }
{
    let all = all_listed_at(alloc, shelf, request.wanted, request.paths)?;
    if is_none(&all.files) {
        return Ok(ended(all, End::NoFile));
    }
    match older_at(alloc, shelf, request) {
        Ok(older) => judged(alloc, catalogue, policy, request, all, older),
        Err(fault) => without_baseline(all, fault),
    }
}

fn is_none(files: &[Listed]) -> bool
    ensures { result ≡ spec.is_none files.now }
{
    match files {
        [] => true,
        [_, ..] => false,
    }
}

fn ended(all: AllListed, end: End) -> Run
    ensures files { result.files ≡ all.files }
    ensures left_out { result.left_out ≡ all.left_out }
    ensures end { result.end ≡ end }
{
    let AllListed { files, left_out } = all;
    Run {
        files,
        left_out,
        end,
    }
}

// The older file, where one is named.
fn older_at<S: Shelf>(
    alloc: Global,
    shelf: &S,
    request: Request<'_>,
) -> Result<Option<Vec<Listed>>, FileFault>
    ensures ok { IfOk result (IsOlder (S.told shelf.now) request.entry) }
    ensures err { IfErr result (IsNoOlder (S.told shelf.now) request.entry) }
{
    let Some(path) = request.baseline else {
        return Ok(None);
    };
    let listed = listed_before(alloc, shelf, request.wanted.source, path)?;
    let older = alone(alloc, listed)?;
    Ok(Some(older))
}

fn alone(alloc: Global, listed: Listed) -> Result<Vec<Listed>, AllocError>
    ensures { IfOk result (λ files. files.items ≡ listed ∷ []) }
{
    let mut files = Vec::new(alloc);
    files.push(listed)?;
    Ok(files)
}

// What is told of all packages, with the refusals of the older files known.
fn judged(
    alloc: Global,
    catalogue: &Catalogue,
    policy: &Policy<'_>,
    request: Request<'_>,
    all: AllListed,
    older: Option<Vec<Listed>>,
) -> Result<Run, AllocError>
    ensures { IfOk result (IsJudged catalogue.now policy.now request.entry all older) }
{
    let AllListed { files, left_out } = all;
    let gated = Gated::of(alloc, catalogue, policy, files, older)?;
    let text = gate_text(
        alloc,
        catalogue,
        policy,
        request.policy,
        request.look,
        &gated,
    )?;
    let Gated { files, .. } = gated;
    let end = end_of(text, request.look.explain, &files);
    Ok(Run {
        files,
        left_out,
        end,
    })
}

fn without_baseline(all: AllListed, fault: FileFault) -> Result<Run, AllocError>
    ensures { IfOk result (IsWithoutBaseline all fault) }
{
    if fault.is_of_memory() {
        return Err(AllocError);
    }
    Ok(ended(all, End::NoBaseline(fault)))
}

fn end_of(text: GateText, explain: Option<&str>, files: &[Listed]) -> End
    ensures { result ≡ spec.end_of text (option_copied explain.entry) files.now }
{
    match explain {
        Some(name) if !has_package(files, name) => End::NoPackage(text),
        _ => End::Told(text),
    }
}

// Whether some package has this name.
fn has_package(files: &[Listed], name: &str) -> bool
    ensures { result ≡ spec.has_package files.now name.now }
{
    files.iter().any(|file| lists(&file.packages, name))
}

fn lists(packages: &[Package], name: &str) -> bool
    ensures { result ≡ spec.lists packages.now name.now }
{
    packages.iter().any(|one| one.name.as_str() == name)
}
