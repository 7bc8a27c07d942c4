// How each form writes the field that declares a license.

ghost use Rattle.std.specs.Prelude.{◌≡◌};
ghost use Rattle.std.specs.Option.{option_copied};
ghost use Rattle.plain_manifests.specs.Grammars.{IsGrammarOf};
ghost use Rattle.plain_manifests.specs.Grammars as spec;

use crate::form::PlainForm;
use text_places::{Grammar, Notation};

/// The name of the field or element.
#[tactic(auto, unfolding(crate::specs::Grammars::name_of))]
pub(crate) fn name_of(form: PlainForm) -> &'static [u8]
    ensures { result.now ≡ spec.name_of form }
{
    match form {
        PlainForm::Metadata => b"License-Expression",
        PlainForm::Gem => b".license",
        PlainForm::Mix => b"licenses",
        PlainForm::Helm => b"artifacthub.io/license",
        PlainForm::Docker => b"org.opencontainers.image.licenses",
        PlainForm::Appstream => b"project_license",
        PlainForm::Msbuild => b"PackageLicenseExpression",
        _ => b"license",
    }
}

/// Another name that declares a license.
#[tactic(auto, unfolding(crate::specs::Grammars::other_name_of))]
pub(crate) fn other_name_of(form: PlainForm) -> Option<&'static [u8]>
    ensures { option_copied result ≡ spec.other_name_of form }
{
    match form {
        PlainForm::Gem => Some(b".licenses"),
        PlainForm::Appstream => Some(b"metadata_license"),
        _ => None,
    }
}

fn is_any_case(form: PlainForm) -> bool
    ensures { result ≡ spec.is_any_case form }
{
    matches!(
        form,
        PlainForm::Metadata
            | PlainForm::SetupCfg
            | PlainForm::Cabal
            | PlainForm::Rpm
            | PlainForm::Dep5
    )
}

#[tactic(auto, unfolding(crate::specs::Grammars::before_of))]
fn before_of(form: PlainForm) -> &'static [u8]
    ensures { result.now ≡ spec.before_of form }
{
    match form {
        PlainForm::SetupPy
        | PlainForm::Cabal
        | PlainForm::Mix
        | PlainForm::Rock
        | PlainForm::Meson
        | PlainForm::Rpm
        | PlainForm::Alpine
        | PlainForm::Arch
        | PlainForm::Conda
        | PlainForm::Helm => b" \t",
        PlainForm::Gem => b" \tabcdefghijklmnopqrstuvwxyz_",
        PlainForm::Docker => b" \tLABELlabel",
        _ => b"",
    }
}

#[tactic(auto, unfolding(crate::specs::Grammars::separators_of))]
fn separators_of(form: PlainForm) -> &'static [u8]
    ensures { result.now ≡ spec.separators_of form }
{
    match form {
        PlainForm::SetupCfg => b"=:",
        PlainForm::SetupPy
        | PlainForm::Gem
        | PlainForm::Rock
        | PlainForm::Alpine
        | PlainForm::Arch
        | PlainForm::Docker => b"=",
        _ => b":",
    }
}

fn notation_of(form: PlainForm) -> Notation
    ensures { result ≡ spec.notation_of form }
{
    match form {
        PlainForm::SetupPy
        | PlainForm::Opam
        | PlainForm::Gem
        | PlainForm::Mix
        | PlainForm::Rock
        | PlainForm::Meson => Notation::Quoted,
        PlainForm::Alpine | PlainForm::Arch | PlainForm::Docker => Notation::Shell,
        PlainForm::Snap
        | PlainForm::Conda
        | PlainForm::Galaxy
        | PlainForm::Helm
        | PlainForm::Citation => Notation::Yaml,
        _ => Notation::Line,
    }
}

#[tactic(auto, unfolding(crate::specs::Grammars::comment_of))]
fn comment_of(form: PlainForm) -> &'static [u8]
    ensures { result.now ≡ spec.comment_of form }
{
    match form {
        PlainForm::Metadata | PlainForm::Dep5 => b"",
        PlainForm::Cabal | PlainForm::Rock => b"--",
        _ => b"#",
    }
}

#[tactic(auto, unfolding(crate::specs::Grammars::section_of))]
fn section_of(form: PlainForm) -> &'static [u8]
    ensures { result.now ≡ spec.section_of form }
{
    match form {
        PlainForm::SetupCfg => b"[metadata]",
        _ => b"",
    }
}

/// How the form writes the field of this name.
pub(crate) fn grammar_of<'n>(form: PlainForm, name: &'n [u8]) -> Grammar<'n>
    ensures { IsGrammarOf form name.now result }
{
    Grammar {
        name,
        is_any_case: is_any_case(form),
        before: before_of(form),
        separators: separators_of(form),
        notation: notation_of(form),
        comment: comment_of(form),
        section: section_of(form),
        is_header: form == PlainForm::Metadata,
    }
}

/// What no declared text has in it, since the form's own language puts something in its place.
#[tactic(auto, unfolding(crate::specs::Grammars::marks_of))]
pub(crate) fn marks_of(form: PlainForm) -> &'static [u8]
    ensures { result.now ≡ spec.marks_of form }
{
    match form {
        PlainForm::Rpm => b"%",
        PlainForm::Alpine | PlainForm::Arch | PlainForm::Docker | PlainForm::Msbuild => b"$",
        PlainForm::Gem | PlainForm::Mix => b"#",
        PlainForm::Conda => b"{",
        PlainForm::Appstream => b"=",
        _ => b"",
    }
}

// YAML's words for nothing.
fn is_null(text: &[u8]) -> bool
    ensures { result ≡ spec.is_null text.now }
{
    text == b"~".as_slice()
        || text == b"null".as_slice()
        || text == b"Null".as_slice()
        || text == b"NULL".as_slice()
}

/// Whether a text is one of the form's own words for a license that no expression tells.
#[tactic(auto, unfolding(crate::specs::Grammars::is_word_of))]
pub(crate) fn is_word_of(form: PlainForm, text: &[u8]) -> bool
    ensures { result ≡ spec.is_word_of form text.now }
{
    match form {
        PlainForm::Cabal => text == b"NONE".as_slice(),
        PlainForm::Gem => text == b"Nonstandard".as_slice(),
        PlainForm::Snap => text == b"Proprietary".as_slice() || is_null(text),
        PlainForm::Conda | PlainForm::Galaxy | PlainForm::Helm | PlainForm::Citation => {
            is_null(text)
        }
        _ => false,
    }
}
