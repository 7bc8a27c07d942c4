// Words that are refused although each is one that its command has.

ghost use Rattle.std.specs.Prelude.{◌≡◌, ◌⊎◌, is_some};
ghost use Rattle.clap.specs.Matches.{found_of};
ghost use Rattle.clap.specs.Values.{kind_of};
ghost use Rattle.clap.specs.Walk.{rows_of};
ghost use Rattle.clap.specs.declared.error.kind.ErrorKind.TheVariants.{OutOfMemory};
ghost use Rattle.spdx_words.specs.Unfit as unfit;

use crate::packages::request::{GateFormat, SourceForm};
use crate::packages::requests::{form_in, gate_format_in};
use crate::values::{has, says};
use clap::error::ErrorKind;
use clap::{ArgMatches, Command, Error};
use std::alloc::AllocError;

/// Why words don't fit together.
#[derive(Clone, Copy)]
pub(crate) enum Unfit {
    /// Options that exclude one another.
    Apart(&'static str),
    /// What wants another one, or is wanted.
    Missing(&'static str),
}

impl Unfit {
    /// The error that tells it, of this command, which goes by `name`.
    pub(crate) fn error(
        self,
        command: Result<Command<'_>, AllocError>,
        name: &'static str,
    ) -> Error {
        match self.told(command, name) {
            Ok(error) => error,
            Err(error) => Error::from(error),
        }
    }

    fn told(
        self,
        command: Result<Command<'_>, AllocError>,
        name: &'static str,
    ) -> Result<Error, AllocError> {
        let mut command = command?.bin_name(name)?;
        match self {
            Unfit::Apart(why) => command.error(ErrorKind::ArgumentConflict, why),
            Unfit::Missing(why) => command.error(ErrorKind::MissingRequiredArgument, why),
        }
    }
}

/// Why the options of `check` don't fit together.
pub(crate) fn check_unfit(matches: &ArgMatches<'_>) -> Option<Unfit>
    ensures { is_some result ≡ unfit.check_unfit (rows_of (found_of matches.now)) }
{
    if has(matches, "strict") && has(matches, "lax") {
        return Some(Unfit::Apart("the argument '--strict' cannot be used with '--lax'"));
    }
    wanted_unfit(matches)
}

/// Why it isn't plain which of a file's expressions are taken.
fn wanted_unfit(matches: &ArgMatches<'_>) -> Option<Unfit>
    ensures { is_some result ≡ unfit.wanted_unfit (rows_of (found_of matches.now)) }
{
    let headers = has(matches, "headers");
    let manifests = has(matches, "manifests");
    let form = says(matches, "as");
    if headers && manifests {
        Some(Unfit::Apart("the argument '--headers' cannot be used with '--manifests'"))
    } else if headers && form {
        Some(Unfit::Apart("the argument '--headers' cannot be used with '--as <FORM>'"))
    } else if manifests && form {
        Some(Unfit::Apart("the argument '--manifests' cannot be used with '--as <FORM>'"))
    } else {
        None
    }
}

/// Why the options of `fix` don't fit together.
pub(crate) fn fix_unfit(matches: &ArgMatches<'_>) -> Option<Unfit>
    ensures { is_some result ≡ unfit.fix_unfit (rows_of (found_of matches.now)) }
{
    match wanted_unfit(matches) {
        Some(unfit) => Some(unfit),
        None if has(matches, "break-links") && !has(matches, "write") => {
            Some(Unfit::Missing("--break-links goes with --write"))
        }
        None => None,
    }
}

/// Why it isn't plain what files of packages are.
pub(crate) fn source_unfit(matches: &ArgMatches<'_>) -> Option<Unfit>
    ensures { is_some result ≡ unfit.source_unfit (rows_of (found_of matches.now)) }
{
    if says(matches, "each") {
        if says(matches, "from") {
            return Some(Unfit::Apart(
                "the argument '--from <FORM>' cannot be used with '--each <POINTER>'",
            ));
        }
        return None;
    }
    if has_pointers(matches) {
        Some(Unfit::Missing("--name, --package-version and --license go with --each"))
    } else if has(matches, "header") && !has_columns(form_in(matches)) {
        Some(Unfit::Apart("--header goes with --from csv and --from tsv"))
    } else {
        None
    }
}

/// Why packages aren't to be judged: what their files are, or for whom one is explained.
pub(crate) fn judged_unfit(matches: &ArgMatches<'_>) -> Option<Unfit>
    ensures { is_some result ≡ unfit.judged_unfit (rows_of (found_of matches.now)) }
{
    match source_unfit(matches) {
        Some(unfit) => Some(unfit),
        None => explain_unfit(matches),
    }
}

fn explain_unfit(matches: &ArgMatches<'_>) -> Option<Unfit>
    ensures { is_some result ≡ unfit.explain_unfit (rows_of (found_of matches.now)) }
{
    if says(matches, "explain") && !is_for_people(gate_format_in(matches)) {
        Some(Unfit::Apart("--explain goes with --format human"))
    } else {
        None
    }
}

fn is_for_people(format: GateFormat) -> bool
    ensures { result ≡ unfit.is_for_people format }
{
    match format {
        GateFormat::Human => true,
        _ => false,
    }
}

fn has_pointers(matches: &ArgMatches<'_>) -> bool
    ensures { result ≡ unfit.has_pointers (rows_of (found_of matches.now)) }
{
    says(matches, "name") || says(matches, "package-version") || says(matches, "license")
}

fn has_columns(form: Option<SourceForm>) -> bool
    ensures { result ≡ unfit.has_columns form }
{
    match form {
        Some(SourceForm::Tsv { .. }) => true,
        Some(SourceForm::Csv { .. }) => true,
        _ => false,
    }
}

/// Why a page isn't to be made: what its files are, which texts it has, or what is accepted.
pub(crate) fn notice_unfit(matches: &ArgMatches<'_>) -> Option<Unfit>
    ensures { is_some result ≡ unfit.notice_unfit (rows_of (found_of matches.now)) }
{
    match source_unfit(matches) {
        Some(unfit) => Some(unfit),
        None => match texts_unfit(matches) {
            Some(unfit) => Some(unfit),
            None => accepted_unfit(matches),
        },
    }
}

fn texts_unfit(matches: &ArgMatches<'_>) -> Option<Unfit>
    ensures { is_some result ≡ unfit.texts_unfit (rows_of (found_of matches.now)) }
{
    let sources = says(matches, "sources");
    let installed = has(matches, "installed");
    let without = has(matches, "without-texts");
    let has_own = sources || installed;
    let has_texts = says(matches, "texts") || has_own;
    if sources && installed {
        Some(Unfit::Apart("the argument '--installed' cannot be used with '--sources <DIR>'"))
    } else if without && has_texts {
        Some(Unfit::Apart(
            "the argument '--without-texts' cannot be used with '--texts <DIR>', '--sources <DIR>' or '--installed'",
        ))
    } else if !without && !has_texts {
        Some(Unfit::Missing(
            "the texts are missing: say --texts DIR, or --without-texts for a page without them",
        ))
    } else if has(matches, "strict") && !has_own {
        Some(Unfit::Missing("--strict goes with --sources and --installed"))
    } else {
        None
    }
}

fn accepted_unfit(matches: &ArgMatches<'_>) -> Option<Unfit>
    ensures { is_some result ≡ unfit.accepted_unfit (rows_of (found_of matches.now)) }
{
    let accept = says(matches, "accept");
    let policy = says(matches, "policy");
    if accept && policy {
        Some(Unfit::Apart("the argument '--accept <LIST>' cannot be used with '--policy <FILE>'"))
    } else if !accept && !policy {
        Some(Unfit::Missing("what is accepted is missing: say --accept LIST or --policy FILE"))
    } else {
        None
    }
}
