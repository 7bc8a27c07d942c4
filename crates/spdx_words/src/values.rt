// What the options of a command are given.

ghost use Rattle.std.specs.Prelude.{◌≡◌, IfOk, option_map};
ghost use Rattle.clap.specs.Matches.{found_of};
ghost use Rattle.clap.specs.Walk.{first_of, rows_of, texts};
ghost use Rattle.spdx_words.specs.Options.{all_in, has, says};
ghost use Rattle.spdx_words.specs.Said.{text};

use clap::ArgMatches;
use std::alloc::{AllocError, Global};

/// The value of an option, or a word that is none.
pub(crate) fn value<'w>(matches: &ArgMatches<'w>, name: &str) -> Option<&'w str>
    ensures { text result ≡ first_of name.now (rows_of (found_of matches.now)) }
{
    matches.get_str(name)
}

/// Whether the words have the flag.
pub(crate) fn has(matches: &ArgMatches<'_>, name: &str) -> bool
    ensures { result ≡ has (rows_of (found_of matches.now)) name.now }
{
    match matches.get_str(name) {
        Some(text) => text == "true",
        None => false,
    }
}

/// Whether the words have the option.
pub(crate) fn says(matches: &ArgMatches<'_>, name: &str) -> bool
    ensures { result ≡ says (rows_of (found_of matches.now)) name.now }
{
    value(matches, name).is_some()
}

/// All words of that name which are no options.
pub(crate) fn all<'w>(
    alloc: Global,
    matches: &ArgMatches<'w>,
    name: &str,
) -> Result<Vec<&'w str>, AllocError>
    ensures { IfOk result (λ v.
        texts v.items ≡ all_in (rows_of (found_of matches.now)) name.now) }
{
    let mut all = Vec::new(alloc);
    all.extend_from_slice(matches.get_strs(name).unwrap_or(&[]))?;
    Ok(all)
}
