// In which forms files were read without being asked.

ghost use Rattle.std.specs.Prelude.{◌≡◌, ◌∷◌, ◌++◌, [], IfOk, OnOk, bytes_eq, map, string_bytes};
ghost use Rattle.std.specs.List.{list_any};
ghost use Rattle.check_files.specs.Told.{Tells};
ghost use Rattle.owed_texts.specs.Held.{each_first, has_name, name_in, with_name};
ghost use Rattle.package_commands.specs.Forms as spec;
ghost use Rattle.package_commands.specs.Forms.{AreFormsTold, AreWordsTold, form_word, listed_in, words_in};

use package_files::Listed;
use package_sources::Form;
use spdx_commands::Listener;
use spdx_troubles::Trouble;
use std::alloc::{AllocError, Global};

/// Tells each form that some file was read in without being asked, in the order of the first such files: with that file, or
/// how many they are.
///
/// # Errors
///
/// Memory was refused.
pub(crate) fn tell_forms<T: Listener>(
    alloc: Global,
    files: &[Listed],
    listener: &mut T,
) -> Result<(), AllocError>
    ensures { OnOk result (Tells (T.heard listener.old) (T.heard listener.new)
        (AreFormsTold files.now)) }
{
    let words = guessed_words(alloc, files)?;
    tell_words(alloc, files, words, listener)?;
    Ok(())
}

#[tactic(auto, using(crate::proofs::Steps::none_told, crate::proofs::Steps::word_told))]
fn tell_words<T: Listener>(
    alloc: Global,
    files: &[Listed],
    words: Vec<&'static str>,
    listener: &mut T,
) -> Result<(), AllocError>
    ensures { OnOk result (Tells (T.heard listener.old) (T.heard listener.new)
        (AreWordsTold files.now (map name_in words.entry.items))) }
{
    for word in words {
        let which = which(alloc, files, word)?;
        listener.hear(alloc, Trouble::Guessed(which, word))?;
    }
    Ok(())
}

// The words of the forms that were guessed, each once.
fn guessed_words(alloc: Global, files: &[Listed]) -> Result<Vec<&'static str>, AllocError>
    ensures { IfOk result (λ words. map name_in words.items ≡ each_first (words_in files.now)) }
{
    let mut words: Vec<&'static str> = Vec::new(alloc);
    for file in files {
        put_form(&mut words, file.guessed)?;
    }
    Ok(words)
}

fn put_form(words: &mut Vec<&'static str>, form: Option<Form>) -> Result<(), AllocError>
    ensures { OnOk result (map name_in words.new.items
        ≡ spec.with_form (map name_in words.old.items) form) }
{
    match form {
        Some(form) => put_word(words, word_of(form)),
        None => Ok(()),
    }
}

fn put_word(words: &mut Vec<&'static str>, word: &'static str) -> Result<(), AllocError>
    ensures { OnOk result (map name_in words.new.items
        ≡ with_name (map name_in words.old.items) word.now) }
{
    if !is_among(words, word) {
        words.push(word)?;
    }
    Ok(())
}

fn is_among(words: &[&'static str], word: &str) -> bool
    ensures { result ≡ has_name (map name_in words.now) word.now }
{
    has(words, word)
}

fn has(words: &[&'static str], word: &str) -> bool
    ensures { result ≡ list_any (λ one. bytes_eq (name_in one) word.now) words.now }
{
    words.iter().any(|one| *one == word)
}

// The file that was read in the form of this word, or how many they are.
fn which(alloc: Global, files: &[Listed], word: &str) -> Result<String, AllocError>
    ensures { IfOk result (λ which.
        string_bytes which ≡ spec.which (spec.guessed_as files.now word.now)) }
{
    let guessed = guessed_as(alloc, files, word)?;
    match guessed.as_slice() {
        [file] => String::from_str(alloc, file.path.as_str()),
        files => count_text(alloc, files.len()),
    }
}

fn count_text(alloc: Global, count: usize) -> Result<String, AllocError>
    ensures { IfOk result (λ text. string_bytes text ≡ spec.count_text count) }
{
    format!(in alloc; "{count} files")
}

fn guessed_as<'f>(
    alloc: Global,
    files: &'f [Listed],
    word: &str,
) -> Result<Vec<&'f Listed>, AllocError>
    ensures { IfOk result (λ guessed.
        map listed_in guessed.items ≡ spec.guessed_as files.now word.now) }
{
    let mut guessed: Vec<&'f Listed> = Vec::new(alloc);
    for file in files {
        put_guessed(&mut guessed, file, word)?;
    }
    Ok(guessed)
}

fn put_guessed<'f>(
    guessed: &mut Vec<&'f Listed>,
    file: &'f Listed,
    word: &str,
) -> Result<(), AllocError>
    ensures { OnOk result (map listed_in guessed.new.items
        ≡ map listed_in guessed.old.items ++ spec.guessed_as (file.now ∷ []) word.now) }
{
    if is_guessed(file, word) {
        guessed.push(file)?;
    }
    Ok(())
}

fn is_guessed(file: &Listed, word: &str) -> bool
    ensures { result ≡ spec.is_guessed word.now file.now }
{
    match file.guessed {
        Some(form) => word_of(form) == word,
        None => false,
    }
}

// The form as `--from` has it.
fn word_of(form: Form) -> &'static str
    ensures { result.now ≡ form_word form }
{
    match form {
        Form::Lines => "lines",
        Form::Tsv { .. } => "tsv",
        Form::Csv { .. } => "csv",
        Form::Verdicts => "verdicts",
        Form::Cargo => "cargo",
        Form::Npm => "npm",
        Form::Composer => "composer",
        Form::Pip => "pip",
        Form::CycloneDx => "cyclonedx",
        Form::Spdx => "spdx",
        Form::SpdxThree => "spdx-3",
        Form::LicenseChecker => "license-checker",
        Form::Pnpm => "pnpm",
        Form::Metadata => "metadata",
    }
}
