// All that is below a folder.

ghost use Rattle.std.specs.Prelude.{◌≡◌, IfErr, OnErr, OnOk};
ghost use Rattle.check_files.specs.Noted.{nothing_noted};
ghost use Rattle.check_files.specs.Tally.{tally_of};
ghost use Rattle.check_files.specs.Told.{Does, IsBrokenOff};
ghost use Rattle.source_trees.specs.Walks.{IsBegun, waiting};
ghost use Rattle.check_program.specs.TreeBegun.{IsTreeBegun};
ghost use Rattle.check_program.specs.Trees.{IsTreeChecked, IsTreeStep, manner_of};

use crate::ends::end_folder;
use crate::steps::walked;
use crate::texts::{text_of, texts_folder};
use check_files::{Below, CheckFault, CheckTrouble, Noted, Telling, pass_over};
use check_sources::Sums;
use line_engine::device::Sink;
use shelves::Shelf;
use source_trees::{Taken, Walk};
use spdx_check::Check;
use std::alloc::Global;

/// How what is below a folder is checked.
#[derive(Clone, Copy)]
pub struct Manner<'m> {
    /// What is taken of the files.
    pub taken: Taken,
    /// The folder of license texts that was named; without a name, that is `LICENSES` in the folder.
    pub texts: Option<&'m str>,
    /// Whether files without a license are told; else they are counted where there are license texts.
    pub untagged: bool,
}

/// Checks what is taken of the files below the folder at the path, in the order in which a walk comes to them. Then it is told
/// what runs that were killed left, and, where all that tells a license is taken, which license texts are missing or not
/// needed and which files have no license. What can't be read is told and passed over.
///
/// # Errors
///
/// What is found can't be written, or memory was refused. What was written and told is then what comes of all that the walk came
/// to before, and a beginning of what comes next, or of the end of the folder.
pub fn check_tree<S: Shelf, O: Sink, T: Telling>(
    alloc: Global,
    shelf: &S,
    check: &Check<'_>,
    manner: Manner<'_>,
    path: &str,
    sums: &mut Sums,
    output: &mut O,
    teller: &mut T,
) -> Result<(), CheckFault>
    ensures ok { OnOk result (Does (O.told output.old) (O.told output.new) (T.told teller.old)
        (T.told teller.new) (λ text told. IsTreeStep (S.told shelf.now) check.now
        (manner_of manner.entry) path.now (tally_of sums.old) text told (tally_of sums.new))) }
    ensures err { IfErr result (IsBrokenOff (O.told output.new)) }
    ensures begun { OnErr result (Does (O.told output.old) (O.told output.new)
        (T.told teller.old) (T.told teller.new) (λ text told. IsTreeBegun (S.told shelf.now)
        check.now (manner_of manner.entry) path.now (tally_of sums.old) text told)) }
{
    match Walk::new(alloc, shelf, path) {
        Ok(walk) => check_below(
            alloc, shelf, check, manner, path, walk, sums, output, teller,
        ),
        Err(error) => {
            let path = String::from_str(alloc, path)?;
            pass_over(alloc, CheckTrouble::Unreadable(path, error), sums, teller)
        }
    }
}

fn check_below<S: Shelf, O: Sink, T: Telling>(
    alloc: Global,
    shelf: &S,
    check: &Check<'_>,
    manner: Manner<'_>,
    path: &str,
    walk: Walk,
    sums: &mut Sums,
    output: &mut O,
    teller: &mut T,
) -> Result<(), CheckFault>
    ensures ok { OnOk result (IsBegun (S.told shelf.now) path.now (waiting walk) →
        Does (O.told output.old) (O.told output.new) (T.told teller.old) (T.told teller.new)
        (λ text told. IsTreeChecked (S.told shelf.now) check.now (manner_of manner.entry)
        path.now (tally_of sums.old) text told (tally_of sums.new))) }
    ensures err { IfErr result (IsBrokenOff (O.told output.new)) }
    ensures begun { OnErr result (IsBegun (S.told shelf.now) path.now (waiting walk) →
        Does (O.told output.old) (O.told output.new) (T.told teller.old) (T.told teller.new)
        (λ text told. IsTreeBegun (S.told shelf.now) check.now (manner_of manner.entry) path.now
        (tally_of sums.old) text told)) }
{
    let folder = texts_folder(alloc, shelf, manner.texts, path)?;
    let below = Below {
        taken: manner.taken,
        folder: text_of(&folder),
    };
    let mut noted = Noted::new(alloc);
    walked(
        alloc, shelf, check, below, walk, &mut noted, sums, output, teller,
    )?;
    end_folder(
        alloc,
        shelf,
        check,
        manner.untagged,
        below,
        noted,
        sums,
        output,
        teller,
    )
}
