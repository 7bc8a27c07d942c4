// Which expressions are wanted, and how they are read and told.

ghost use Rattle.std.specs.Prelude.{◌≡◌, map};
ghost use Rattle.meaning_program.specs.Reading.{mode_by};
ghost use Rattle.spdx_program.specs.Asked.{ArePaths, style_by, wanted_by};

use finding_forms::Style;
use spdx::ParseMode;
use spdx_words::Wanted;

/// What the words want, as the reading takes it.
pub(crate) fn asked(wanted: Wanted<'_>) -> source_trees::Wanted<'_>
    ensures { result ≡ wanted_by wanted.entry }
{
    match wanted {
        Wanted::ByName => source_trees::Wanted::ByName,
        Wanted::Headers => source_trees::Wanted::Headers,
        Wanted::Manifests => source_trees::Wanted::Manifests,
        Wanted::Form(word) => source_trees::Wanted::Form(word),
    }
}

/// How expressions are read.
pub(crate) fn mode_of(is_lax: bool) -> ParseMode
    ensures { result ≡ mode_by is_lax }
{
    if is_lax {
        ParseMode::LAX
    } else {
        ParseMode::STRICT
    }
}

/// How what people read is told.
pub(crate) fn style_of(colours: bool) -> Style
    ensures { result ≡ style_by colours }
{
    if colours {
        Style::Coloured
    } else {
        Style::Plain
    }
}

/// The paths, or standard input where there is none.
pub(crate) fn paths_or_input<'p>(paths: &'p [&'p str]) -> &'p [&'p str]
    ensures { ArePaths paths.now result }
{
    if paths.is_empty() { &["-"] } else { paths }
}
