// The command that words enter.

ghost use Rattle.std.specs.Prelude.{◌≡◌, IfErr, IfOk, Some, [], is_some, map, true};
ghost use Rattle.clap.specs.Faults.{fault_of, is_simple_and_free};
ghost use Rattle.clap.specs.Kinds.{HasKind};
ghost use Rattle.clap.specs.Matches.{found_of};
ghost use Rattle.clap.specs.Simple.{App, app_of, is_simple, subcommand_of};
ghost use Rattle.clap.specs.Walk.{Text, rows_of};
ghost use Rattle.spdx_words.specs.Options.{text_of};

use clap::error::ErrorKind;
use clap::{ArgMatches, Command, Error};
use std::alloc::Global;

/// What the words give the options of the command that they enter, of those that the program has. The first word is the
/// program's name.
///
/// # Errors
///
/// The words are refused, ask for help or the version, or memory was refused.
pub(crate) fn entered<'w>(
    alloc: Global,
    program: Command<'w>,
    words: &'w [String],
) -> Result<ArgMatches<'w>, Error>
    ensures ok { IfOk result (λ m. (a : App) → app_of program.entry ≡ a → is_simple a ≡ true →
        (name : Text) × (subcommand_of a (map text_of words.entry.now)
        ≡ Some (name, rows_of (found_of m)))) }
    ensures taken { IfOk result (λ m. (a : App) → app_of program.entry ≡ a →
        is_simple_and_free a ≡ true → fault_of a (map text_of words.entry.now) ≡ []) }
    ensures err { IfErr result (λ e. (a : App) → app_of program.entry ≡ a →
        is_simple_and_free a ≡ true →
        is_some (subcommand_of a (map text_of words.entry.now)) ≡ true →
        HasKind (fault_of a (map text_of words.entry.now)) e) }
{
    match program.try_get_matches_from(words) {
        Ok(mut matches) => match matches.remove_subcommand() {
            Some((_, matches)) => Ok(matches),
            None => Err(missing(alloc)),
        },
        Err(error) => Err(error),
    }
}

/// Why words that enter no command are refused; or what they ask to be told.
pub(crate) fn refusal<'w>(alloc: Global, program: Command<'w>, words: &'w [String]) -> Error {
    match program.try_get_matches_from(words) {
        Ok(_) => missing(alloc),
        Err(error) => error,
    }
}

fn missing(alloc: Global) -> Error {
    match Command::new(alloc, "spdx").error(ErrorKind::MissingSubcommand, "a command is missing") {
        Ok(error) => error,
        Err(error) => Error::from(error),
    }
}
