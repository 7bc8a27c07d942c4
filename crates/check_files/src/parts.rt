// What is found in the parts of a file: written, and counted.

ghost use Rattle.std.specs.Prelude.{◌≡◌, IfErr, IfOk, OnErr, OnOk};
ghost use Rattle.check_files.specs.Begun.{IsBeginning, IsManifestText, IsTagText};
ghost use Rattle.check_files.specs.Parts as spec;
ghost use Rattle.check_files.specs.Parts.{AreTagsChecked, IsManifestChecked, IsTable};
ghost use Rattle.check_files.specs.Tally.{tally_of, with_table};
ghost use Rattle.check_files.specs.Told.{IsBrokenOff, Writes};
ghost use Rattle.check_sources.specs.Manifests.{sites_in};
ghost use Rattle.check_sources.specs.Stood.{source_of};

use crate::trouble::CheckFault;
use check_sources::{CheckedManifest, Source, Sums, check_manifest, check_tags, counted};
use line_engine::device::Sink;
use line_engine::lines::write_all;
use manifests::{Form, Site, has_license_table};
use spdx_check::Check;
use std::alloc::{AllocError, Global};

/// What a manifest declares.
#[derive(Drop)]
pub struct Declared {
    /// How many expressions are counted of it.
    pub count: u64,
    /// Where they stand; nothing where the file is refused as a whole, which counts as one.
    pub sites: Option<Vec<Site>>,
}

/// Writes and counts what is found in the expressions that a manifest declares, and answers which they are.
///
/// # Errors
///
/// It can't be written, or memory was refused. A beginning of it is written then.
pub fn check_declared<O: Sink>(
    alloc: Global,
    check: &Check<'_>,
    form: Form,
    source: Source<'_>,
    sums: &mut Sums,
    output: &mut O,
) -> Result<Declared, CheckFault>
    ensures ok { IfOk result (λ declared. Writes (O.told output.old) (O.told output.new)
        (λ text. IsManifestChecked check.now form (source_of source.entry) (tally_of sums.old)
        (sites_in declared.sites) text declared.count (tally_of sums.new))) }
    ensures err { IfErr result (IsBrokenOff (O.told output.new)) }
    ensures begun { OnErr result (Writes (O.told output.old) (O.told output.new) (IsBeginning
        (IsManifestText check.now form (source_of source.entry) (tally_of sums.old)))) }
{
    let checked = check_manifest(alloc, check, sums.is_clean(), form, source)?;
    let CheckedManifest { found, sites } = checked;
    let count = found.summary.lines;
    let text = counted(sums, found);
    write_all(output, &text)?;
    note_table(alloc, form, source, sums)?;
    Ok(Declared { count, sites })
}

// Notes a manifest whose license is a table, as it was before PEP 639.
fn note_table(
    alloc: Global,
    form: Form,
    source: Source<'_>,
    sums: &mut Sums,
) -> Result<(), AllocError>
    ensures { OnOk result (spec.NotesTable form (source_of source.entry)
        (tally_of sums.old) (tally_of sums.new)) }
{
    if is_table(alloc, form, source.bytes)? {
        sums.tables.push(String::from_str(alloc, source.path)?)?;
    }
    Ok(())
}

fn is_table(alloc: Global, form: Form, bytes: &[u8]) -> Result<bool, AllocError>
    ensures { IfOk result (IsTable form bytes.now) }
{
    match form {
        Form::Pyproject => has_license_table(alloc, bytes),
        _ => Ok(false),
    }
}

/// Writes and counts what is found in the expressions behind the tags of a file, and answers how many they are.
///
/// # Errors
///
/// It can't be written, or memory was refused. A beginning of it is written then.
pub fn check_tagged<O: Sink>(
    alloc: Global,
    check: &Check<'_>,
    source: Source<'_>,
    sums: &mut Sums,
    output: &mut O,
) -> Result<u64, CheckFault>
    ensures ok { IfOk result (λ count. Writes (O.told output.old) (O.told output.new) (λ text.
        AreTagsChecked check.now (source_of source.entry) (tally_of sums.old) text count
        (tally_of sums.new))) }
    ensures err { IfErr result (IsBrokenOff (O.told output.new)) }
    ensures begun { OnErr result (Writes (O.told output.old) (O.told output.new) (IsBeginning
        (IsTagText check.now (source_of source.entry) (tally_of sums.old)))) }
{
    let found = check_tags(alloc, check, sums.is_clean(), source)?;
    let count = found.summary.lines;
    let text = counted(sums, found);
    write_all(output, &text)?;
    Ok(count)
}
