// Which packages are wanted, and how their files are read.

ghost use Rattle.std.specs.Prelude.{◌≡◌};
ghost use Rattle.spdx_program.specs.Asked.{form_by, packages_by, source_by};

use package_files::Wanted;
use package_sources::{Form, Pointers};
use spdx_words::{Source, SourceForm};

/// Which packages are wanted.
pub(crate) fn wanted(source: Source<'_>, allow_empty: bool, exclude_own: bool) -> Wanted<'_>
    ensures { result ≡ packages_by source.entry allow_empty exclude_own }
{
    Wanted {
        source: read_as(source),
        allow_empty,
        exclude_own,
    }
}

// How files are read.
fn read_as(source: Source<'_>) -> package_files::Source<'_>
    ensures { result ≡ source_by source.entry }
{
    match source {
        Source::Auto => package_files::Source::Auto,
        Source::Named(form) => package_files::Source::Named(named(form)),
        Source::At {
            each,
            name,
            version,
            license,
        } => package_files::Source::At(Pointers {
            each,
            name,
            version,
            license,
        }),
    }
}

fn named(form: SourceForm) -> Form
    ensures { result ≡ form_by form }
{
    match form {
        SourceForm::Lines => Form::Lines,
        SourceForm::Tsv { header } => Form::Tsv { header },
        SourceForm::Csv { header } => Form::Csv { header },
        SourceForm::Verdicts => Form::Verdicts,
        SourceForm::Cargo => Form::Cargo,
        SourceForm::Npm => Form::Npm,
        SourceForm::Composer => Form::Composer,
        SourceForm::Pip => Form::Pip,
        SourceForm::CycloneDx => Form::CycloneDx,
        SourceForm::Spdx => Form::Spdx,
        SourceForm::SpdxThree => Form::SpdxThree,
        SourceForm::LicenseChecker => Form::LicenseChecker,
        SourceForm::Pnpm => Form::Pnpm,
        SourceForm::Metadata => Form::Metadata,
    }
}
