// The options of the commands.

ghost use Rattle.std.specs.Prelude.{◌≡◌};
ghost use Rattle.clap.specs.Walk.{rule_of};
ghost use Rattle.spdx_words.specs.Options.{
  choice,
  flag,
  lettered,
  option,
  wanted,
  with_value,
  word,
  words,
};

use clap::{Arg, ArgAction};
use std::alloc::Global;

/// An option without a value.
pub(crate) fn flag<'a>(alloc: Global, name: &'a str, help: &'a str) -> Arg<'a>
    ensures { rule_of result ≡ flag name.entry.now }
{
    Arg::new(alloc, name)
        .long(name)
        .action(ArgAction::SetTrue)
        .help(help)
}

/// An option with a value.
pub(crate) fn option<'a>(alloc: Global, name: &'a str, value: &'a str, help: &'a str) -> Arg<'a>
    ensures { rule_of result ≡ option name.entry.now }
{
    Arg::new(alloc, name)
        .long(name)
        .value_name(value)
        .action(ArgAction::Set)
        .help(help)
}

/// An option whose value is one of these names.
pub(crate) fn choice<'a>(
    alloc: Global,
    name: &'a str,
    names: &'a [&'a str],
    help: &'a str,
) -> Arg<'a>
    ensures { rule_of result ≡ choice name.entry.now names.entry }
{
    option(alloc, name, "FORM", help).value_parser(names)
}

/// A word that is no option.
pub(crate) fn file<'a>(alloc: Global, name: &'a str, help: &'a str) -> Arg<'a>
    ensures { rule_of result ≡ wanted (word name.entry.now) }
{
    wanted(optional_file(alloc, name, help))
}

/// A word that is no option and may be left out.
pub(crate) fn optional_file<'a>(alloc: Global, name: &'a str, help: &'a str) -> Arg<'a>
    ensures { rule_of result ≡ word name.entry.now }
{
    Arg::new(alloc, name).action(ArgAction::Set).help(help)
}

/// As many words that are no options as there are.
pub(crate) fn words<'a>(alloc: Global, name: &'a str, help: &'a str) -> Arg<'a>
    ensures { rule_of result ≡ words name.entry.now }
{
    Arg::new(alloc, name)
        .action(ArgAction::Append)
        .num_args(0..)
        .help(help)
}

/// The option, where it has this value unless the words say another one.
pub(crate) fn with_value<'a>(option: Arg<'a>, value: &'a str) -> Arg<'a>
    ensures { rule_of result ≡ with_value value.entry.now (rule_of option.entry) }
{
    option.default_value(value)
}

/// The option, where it goes by a letter too.
pub(crate) fn lettered<'a>(option: Arg<'a>, letter: char) -> Arg<'a>
    ensures { rule_of result ≡ lettered letter (rule_of option.entry) }
{
    option.short(letter)
}

/// The option, where it isn't left out.
pub(crate) fn wanted<'a>(option: Arg<'a>) -> Arg<'a>
    ensures { rule_of result ≡ wanted (rule_of option.entry) }
{
    option.required(true)
}
