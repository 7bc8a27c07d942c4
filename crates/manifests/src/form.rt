// Forms of manifests, and which form a file has by its name.

ghost use Rattle.std.specs.Prelude.{◌≡◌, option_map};
ghost use Rattle.manifests.specs.declared.form.Form.TheVariants.{Plain};
ghost use Rattle.manifests.specs.Names.{form_of, form_named, document_form_of, by_json_name, by_toml_name, by_word};

use plain_manifests::{PlainForm, plain_form_named, plain_form_of};
use std::path::Path;

/// How a file that declares a license is written (docs/MANIFESTS.md has what each form's own description says).
#[derive(Clone, Copy, PartialEq, Eq, Debug)]
pub enum Form {
    /// `Cargo.toml`.
    Cargo,
    /// `package.json`.
    Npm,
    /// `bower.json`.
    Bower,
    /// `jsr.json`.
    Jsr,
    /// `vcpkg.json`.
    Vcpkg,
    /// `elm.json`.
    Elm,
    /// `composer.json`.
    Composer,
    /// `pyproject.toml`.
    Pyproject,
    /// `REUSE.toml`.
    Reuse,
    /// A file of fields or elements.
    Plain(PlainForm),
}

// The form of the files of JSON of this name.
#[tactic(auto, unfolding(crate::specs::Names::by_json_name))]
fn by_json_name(name: &str) -> Option<Form>
    ensures { result ≡ by_json_name name.now }
{
    if name == "package.json" {
        Some(Form::Npm)
    } else if name == "bower.json" {
        Some(Form::Bower)
    } else if name == "jsr.json" {
        Some(Form::Jsr)
    } else if name == "vcpkg.json" {
        Some(Form::Vcpkg)
    } else if name == "elm.json" {
        Some(Form::Elm)
    } else if name == "composer.json" {
        Some(Form::Composer)
    } else {
        None
    }
}

// The form of the files of TOML of this name.
#[tactic(auto, unfolding(crate::specs::Names::by_toml_name))]
fn by_toml_name(name: &str) -> Option<Form>
    ensures { result ≡ by_toml_name name.now }
{
    if name == "Cargo.toml" {
        Some(Form::Cargo)
    } else if name == "pyproject.toml" {
        Some(Form::Pyproject)
    } else if name == "REUSE.toml" {
        Some(Form::Reuse)
    } else {
        None
    }
}

// The form that goes by this word.
#[tactic(auto, unfolding(crate::specs::Names::by_word))]
fn by_word(name: &str) -> Option<Form>
    ensures { result ≡ by_word name.now }
{
    if name == "cargo" {
        Some(Form::Cargo)
    } else if name == "npm" {
        Some(Form::Npm)
    } else if name == "bower" {
        Some(Form::Bower)
    } else if name == "jsr" {
        Some(Form::Jsr)
    } else if name == "vcpkg" {
        Some(Form::Vcpkg)
    } else if name == "elm" {
        Some(Form::Elm)
    } else if name == "composer" {
        Some(Form::Composer)
    } else if name == "pyproject" {
        Some(Form::Pyproject)
    } else if name == "reuse" {
        Some(Form::Reuse)
    } else {
        None
    }
}

// The form of a file of JSON or TOML that is at this path.
fn document_form_of(path: &str) -> Option<Form>
    ensures { result ≡ document_form_of path.now }
{
    match Path::new(path).file_name() {
        Some(name) => by_json_name(name).or(by_toml_name(name)),
        None => None,
    }
}

fn plain(form: Option<PlainForm>) -> Option<Form>
    ensures { result ≡ option_map Plain form }
{
    match form {
        Some(form) => Some(Form::Plain(form)),
        None => None,
    }
}

/// The form of a manifest that is at this path, by its name there.
pub fn form_of(path: &str) -> Option<Form>
    ensures { result ≡ form_of path.now }
{
    document_form_of(path).or(plain(plain_form_of(path)))
}

/// The form that goes by this word: `cargo`, `npm`, `bower`, `jsr`, `vcpkg`, `elm`, `composer`, `pyproject`, `reuse`, or that of a
/// file of fields or elements.
pub fn form_named(word: &str) -> Option<Form>
    ensures { result ≡ form_named word.now }
{
    by_word(word).or(plain(plain_form_named(word)))
}
