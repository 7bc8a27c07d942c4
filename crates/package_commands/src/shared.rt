// References that several of SPDX's documents have.

ghost use Rattle.std.specs.Prelude.{◌≡◌, ◌∷◌, ◌++◌, [], IfOk, OnOk, map, string_bytes};
ghost use Rattle.check_files.specs.Told.{Tells};
ghost use Rattle.package_files.specs.Documents.{documents_of};
ghost use Rattle.owed_texts.specs.Held.{name_in};
ghost use Rattle.package_commands.specs.Shared as spec;
ghost use Rattle.package_commands.specs.Shared.{AreSharedTold, AreToldAs, is_document};

use package_files::{Listed, Source, shared_references};
use package_sources::{Form, Package};
use spdx_commands::Listener;
use spdx_troubles::Trouble;
use std::alloc::{AllocError, Global};

// How many references are told by name.
const NAMED: usize = 5;

/// Tells in one line which references several of SPDX's documents have, the first five of them by name. Files that were asked
/// for as such documents are taken for them, and those that their shape told to be.
///
/// # Errors
///
/// Memory was refused.
#[tactic(auto, using(crate::proofs::Ends::shared_told))]
pub(crate) fn tell_shared<T: Listener>(
    alloc: Global,
    source: Source<'_>,
    files: &[Listed],
    listener: &mut T,
) -> Result<(), AllocError>
    ensures { OnOk result (Tells (T.heard listener.old) (T.heard listener.new)
        (AreSharedTold source.entry files.now)) }
{
    let documents = documents(alloc, source, files)?;
    let shared = shared_references(alloc, &documents)?;
    tell_names(alloc, &shared, listener)?;
    Ok(())
}

#[tactic(auto, using(crate::proofs::Ends::some_named))]
fn tell_names<T: Listener>(
    alloc: Global,
    names: &[&str],
    listener: &mut T,
) -> Result<(), AllocError>
    ensures { OnOk result (Tells (T.heard listener.old) (T.heard listener.new)
        (AreToldAs (map name_in names.now))) }
{
    if names.is_empty() {
        return Ok(());
    }
    let text = names_text(alloc, names)?;
    listener.hear(alloc, Trouble::Shared(text))?;
    Ok(())
}

fn names_text(alloc: Global, names: &[&str]) -> Result<String, AllocError>
    ensures { IfOk result (λ text. string_bytes text ≡ spec.names_text (map name_in names.now)) }
{
    let mut text = String::new(alloc);
    let [first, others @ ..] = names else {
        return Ok(text);
    };
    text.push_str(*first)?;
    put_others(&mut text, others.get(..NAMED - 1).unwrap_or(others))?;
    put_more(&mut text, names.len())?;
    Ok(text)
}

fn put_others(text: &mut String, names: &[&str]) -> Result<(), AllocError>
    ensures { OnOk result (string_bytes text.new
        ≡ string_bytes text.old ++ spec.other_names (map name_in names.now)) }
{
    for name in names {
        text.push_str(", ")?;
        text.push_str(*name)?;
    }
    Ok(())
}

// Appends how many names there are besides those that are told, if there are more.
fn put_more(text: &mut String, count: usize) -> Result<(), AllocError>
    ensures { OnOk result (string_bytes text.new ≡ string_bytes text.old ++ spec.more_names count) }
{
    if count > NAMED {
        let more = count - NAMED;
        match write!(text, " and {more} more") {
            Ok(()) => {}
            Err(_) => return Err(AllocError),
        }
    }
    Ok(())
}

// The packages of each of SPDX's documents.
fn documents<'f>(
    alloc: Global,
    source: Source<'_>,
    files: &'f [Listed],
) -> Result<Vec<&'f [Package]>, AllocError>
    ensures { IfOk result (λ documents.
        documents_of documents.items ≡ spec.documents_in source.entry files.now) }
{
    let mut documents: Vec<&'f [Package]> = Vec::new(alloc);
    for file in files {
        put_document(&mut documents, source, file)?;
    }
    Ok(documents)
}

fn put_document<'f>(
    documents: &mut Vec<&'f [Package]>,
    source: Source<'_>,
    file: &'f Listed,
) -> Result<(), AllocError>
    ensures { OnOk result (documents_of documents.new.items
        ≡ documents_of documents.old.items ++ spec.documents_in source.entry (file.now ∷ [])) }
{
    if is_document(source, file) {
        documents.push(file.packages.as_slice())?;
    }
    Ok(())
}

// Whether the file is one of SPDX's documents.
fn is_document(source: Source<'_>, file: &Listed) -> bool
    ensures { result ≡ is_document source.entry file.now }
{
    is_asked(source) || is_known(file.guessed)
}

fn is_asked(source: Source<'_>) -> bool
    ensures { result ≡ spec.is_asked source.entry }
{
    match source {
        Source::Named(form) => is_spdx(form),
        Source::Auto | Source::At(_) => false,
    }
}

fn is_known(form: Option<Form>) -> bool
    ensures { result ≡ spec.is_known form }
{
    match form {
        Some(form) => is_spdx(form),
        None => false,
    }
}

fn is_spdx(form: Form) -> bool
    ensures { result ≡ spec.is_spdx form }
{
    matches!(form, Form::Spdx | Form::SpdxThree)
}
