// Why files are passed over, and why a check ends before its end.

ghost use Rattle.std.specs.Prelude.{◌≡◌, IfErr, OnErr, OnOk};
ghost use Rattle.check_files.specs.Passing as spec;
ghost use Rattle.check_files.specs.Passing.{PassesOver, is_of_memory};
ghost use Rattle.check_files.specs.Tally.{tally_of};
ghost use Rattle.check_files.specs.declared.trouble.CheckFault.TheVariants.{Memory};

use crate::telling::Telling;
use check_sources::Sums;
use line_engine::device::Failed;
use std::alloc::{AllocError, Global};
use std::io::{self, ErrorKind};

/// Why a file or folder is passed over: what is wrong at its path, as it is told. What is left behind is told alone.
#[derive(Drop)]
pub enum CheckTrouble {
    /// It can't be read.
    Unreadable(String, io::Error),
    /// Its lines are read, and what is read broke off at a fault.
    Broken(String),
    /// A manifest is wanted, and its name is that of none.
    NoManifest(String),
    /// A manifest is wanted, and it is a folder.
    Folder(String),
    /// It is a folder, and so many in it have names that are no UTF-8.
    Unnamed(String, u64),
    /// It is a new file that a run which was killed left beside the one whose place it was to take.
    LeftBehind(String),
}

/// Why a check ends before its end.
#[derive(Drop)]
pub enum CheckFault {
    /// What is found can't be written.
    Output,
    Memory,
}

impl From<AllocError> for CheckFault {
    ghost use Rattle.std.specs.Prelude.{◌≡◌};
    ghost use Rattle.check_files.specs.declared.trouble.CheckFault.TheVariants.{Memory};

    ghost from_gives = { λ _ f. f ≡ Memory };

    fn from(_error: AllocError) -> CheckFault {
        CheckFault::Memory
    }
}

impl From<Failed> for CheckFault {
    ghost use Rattle.std.specs.Prelude.{◌≡◌};
    ghost use Rattle.check_files.specs.declared.trouble.CheckFault.TheVariants.{Output};

    ghost from_gives = { λ _ f. f ≡ Output };

    fn from(_failed: Failed) -> CheckFault {
        CheckFault::Output
    }
}

fn is_of_memory(trouble: &CheckTrouble) -> bool
    ensures { result ≡ is_of_memory trouble.now }
{
    match trouble {
        CheckTrouble::Unreadable(_, error) => refuses_memory(error),
        _ => false,
    }
}

fn refuses_memory(error: &io::Error) -> bool
    ensures { result ≡ spec.refuses_memory error.now }
{
    matches!(error.kind(), ErrorKind::OutOfMemory)
}

/// Whether nothing is there.
pub fn is_not_found(error: &io::Error) -> bool
    ensures { result ≡ spec.is_not_found error.now }
{
    matches!(error.kind(), ErrorKind::NotFound)
}

/// The trouble is told, and what it is of is passed over, unless memory was refused.
///
/// # Errors
///
/// It was, and nothing is told.
pub fn pass_over<T: Telling>(
    alloc: Global,
    trouble: CheckTrouble,
    sums: &mut Sums,
    teller: &mut T,
) -> Result<(), CheckFault>
    ensures ok { OnOk result (PassesOver trouble (T.told teller.old) (T.told teller.new)
        (tally_of sums.old) (tally_of sums.new)) }
    ensures err { IfErr result (λ fault. fault ≡ Memory) }
    ensures memory { OnErr result (T.told teller.new ≡ T.told teller.old) }
{
    if is_of_memory(&trouble) {
        return Err(CheckFault::Memory);
    }
    sums.totals.is_short = true;
    teller.tell(alloc, trouble)?;
    Ok(())
}
