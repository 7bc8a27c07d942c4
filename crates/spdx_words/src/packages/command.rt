// The commands over packages.

ghost use Rattle.std.specs.Prelude.{◌≡◌, ◌++◌, IfOk, codes, List};
ghost use Rattle.clap.specs.Walk.{Rule, Text, rule_of};
ghost use Rattle.spdx_words.specs.Options.{IsCommand};
ghost use Rattle.spdx_words.specs.Options as rule;
ghost use Rattle.spdx_words.specs.Commands as table;

use crate::command::{lax, list_file, paths, quiet};
use crate::options::{choice, file, flag, option, wanted, with_value};
use clap::{Arg, Command};
use std::alloc::{AllocError, Global};

const GATE_EXAMPLE: &str = "Example:
  cargo metadata --format-version 1 | spdx gate --policy policy.toml --from cargo

Status: 0 every package is allowed, 1 some package isn't, 2 bad arguments, list, policy or file, 3 a write or
memory failed.";

const NOTICE_EXAMPLE: &str = "Examples:
  spdx notice --accept MIT,Apache-2.0 --texts texts --format html --from cargo metadata.json > notice.html
  spdx notice --accept MIT,Apache-2.0 --sources vendor --strict --from cargo metadata.json > notice.txt
  cargo metadata --format-version 1 | spdx notice --policy policy.toml --installed --from cargo > notice.txt

Status: 0 the page is written, 1 some package has no choice that is accepted, or with --strict no text, 2 bad arguments,
list, policy, file or license text, 3 a write or memory failed. With any other status than 0 no page is written.";

const DIFF_EXAMPLE: &str = "Example:
  spdx diff --from cargo --policy policy.toml --format markdown before.json after.json > comment.md

Status: 0 the changes are written, 1 the policy refuses a package that came or changed, 2 bad arguments, list, policy or
file, 3 a write or memory failed.";

static GATE_FORMATS: [&str; 6] = ["human", "short", "json", "github", "sarif", "html"];

static PAGE_FORMATS: [&str; 4] = ["text", "markdown", "html", "json"];

static CHANGE_FORMATS: [&str; 3] = ["text", "json", "markdown"];

static SOURCE_FORMS: [&str; 15] = [
    "auto",
    "lines",
    "tsv",
    "csv",
    "verdicts",
    "cargo",
    "npm",
    "composer",
    "pip",
    "cyclonedx",
    "spdx",
    "spdx-3",
    "license-checker",
    "pnpm",
    "metadata",
];

/// The command `gate`.
pub(crate) fn gate<'a>(alloc: Global) -> Result<Command<'a>, AllocError>
    ensures { IfOk result (λ c. (formats : table.These table.gate_formats)
        × (forms : table.These table.source_forms)
        × IsCommand (codes "gate") (table.gate_options formats.0 forms.0) c) }
{
    let policy = option(
        alloc,
        "policy",
        "FILE",
        "The policy, which says what is allowed and what is denied",
    );
    let format = choice(
        alloc,
        "format",
        GATE_FORMATS.as_slice(),
        "How verdicts are written",
    );
    let gate = Command::new(alloc, "gate")
        .about("Reports which packages a policy refuses, why, and what would help")
        .after_help(GATE_EXAMPLE)
        .arg(wanted(policy))?
        .arg(with_value(format, "human"))?;
    sources(alloc, verdicts(alloc, gate)?)?
        .arg(list_file(alloc))?
        .arg(paths(alloc))
}

// Adds the options that say which verdicts fail, and what is told beside them.
fn verdicts<'a>(alloc: Global, gate: Command<'a>) -> Result<Command<'a>, AllocError>
    ensures { IfOk result (λ c. (options : List Rule) →
        IsCommand (codes "gate") options gate.entry →
        IsCommand (codes "gate") (options ++ table.verdicts) c) }
{
    gate.arg(option(
        alloc,
        "baseline",
        "FILE",
        "An earlier file of packages, or earlier output of --format json: only what isn't refused there fails",
    ))?
    .arg(option(
        alloc,
        "explain",
        "PACKAGE",
        "Shows each part of the package's expression, and the entry that decided it",
    ))?
    .arg(quiet(alloc))?
    .arg(flag(alloc, "allow-empty", "Accepts a file that lists no package"))?
    .arg(flag(
        alloc,
        "no-unused",
        "Doesn't name the entries of the policy that decided nothing",
    ))
}

/// The command `notice`.
pub(crate) fn notice<'a>(alloc: Global) -> Result<Command<'a>, AllocError>
    ensures { IfOk result (λ c. (formats : table.These table.page_formats)
        × (forms : table.These table.source_forms)
        × IsCommand (codes "notice") (table.notice_options formats.0 forms.0) c) }
{
    let accept = option(
        alloc,
        "accept",
        "LIST",
        "The licenses that you accept, separated by commas; earlier ones are preferred",
    );
    let notice = Command::new(alloc, "notice")
        .about("Writes the page with each package under its licenses, and their texts")
        .after_help(NOTICE_EXAMPLE)
        .arg(accept)?
        .arg(option(
            alloc,
            "policy",
            "FILE",
            "A policy that says what is allowed",
        ))?;
    page(alloc, page_texts(alloc, notice)?)
}

// Adds the options that say which texts stand on the page.
fn page_texts<'a>(alloc: Global, notice: Command<'a>) -> Result<Command<'a>, AllocError>
    ensures { IfOk result (λ c. (options : List Rule) →
        IsCommand (codes "notice") options notice.entry →
        IsCommand (codes "notice") (options ++ table.page_texts) c) }
{
    let without_texts = flag(alloc, "without-texts", "Leaves the texts out");
    notice
        .arg(option(
            alloc,
            "texts",
            "DIR",
            "The folder with license texts, such as MIT.txt",
        ))?
        .arg(without_texts)?
        .arg(own_texts_folder(alloc))?
        .arg(installed(alloc))?
        .arg(flag(
            alloc,
            "strict",
            "With --sources and --installed: writes no page where a package has no text",
        ))?
        .arg(flag(
            alloc,
            "follow",
            "Follows links that lead out of the folder of --texts, or out of a package in that of --sources",
        ))
}

// Adds what else a page is made by.
fn page<'a>(alloc: Global, notice: Command<'a>) -> Result<Command<'a>, AllocError>
    ensures { IfOk result (λ c. (formats : table.These table.page_formats)
        × (forms : table.These table.source_forms)
        × ((options : List Rule) → IsCommand (codes "notice") options notice.entry →
        IsCommand (codes "notice") (options ++ table.page formats.0 forms.0) c)) }
{
    let format = choice(
        alloc,
        "format",
        PAGE_FORMATS.as_slice(),
        "How the page is written",
    );
    let notice = notice
        .arg(flag(
            alloc,
            "plain",
            "Writes hidden characters of the texts by their numbers, so that no terminal obeys them",
        ))?
        .arg(accept_lax(alloc))?
        .arg(flag(
            alloc,
            "one-for-all",
            "Makes one choice for all packages together",
        ))?
        .arg(with_value(format, "text"))?;
    sources(alloc, notice)?
        .arg(list_file(alloc))?
        .arg(paths(alloc))
}

fn accept_lax<'a>(alloc: Global) -> Arg<'a>
    ensures { rule_of result ≡ table.lax }
{
    flag(
        alloc,
        "lax",
        "With --accept: also takes deprecated names, any case, imprecise names, and `/` for OR",
    )
}

// The folder whose packages have texts of their own.
fn own_texts_folder<'a>(alloc: Global) -> Arg<'a>
    ensures { rule_of result ≡ rule.option (codes "sources") }
{
    option(
        alloc,
        "sources",
        "DIR",
        "The folder with the packages, such as serde-1.0.219, whose own texts are used",
    )
}

// That packages have texts of their own where they are installed.
fn installed<'a>(alloc: Global) -> Arg<'a>
    ensures { rule_of result ≡ rule.flag (codes "installed") }
{
    flag(
        alloc,
        "installed",
        "Uses each package's own texts, where the file says that it is installed",
    )
}

/// The command `diff`.
pub(crate) fn diff<'a>(alloc: Global) -> Result<Command<'a>, AllocError>
    ensures { IfOk result (λ c. (formats : table.These table.change_formats)
        × (forms : table.These table.source_forms)
        × IsCommand (codes "diff") (table.diff_options formats.0 forms.0) c) }
{
    let format = choice(
        alloc,
        "format",
        CHANGE_FORMATS.as_slice(),
        "How changes are written",
    );
    let diff = Command::new(alloc, "diff")
        .about(
            "Reports which packages came and went between two files, and whose license changed, and how",
        )
        .after_help(DIFF_EXAMPLE)
        .arg(with_value(format, "text"))?
        .arg(option(
            alloc,
            "policy",
            "FILE",
            "Marks what the policy refuses of what came or changed, and fails on it",
        ))?
        .arg(flag(alloc, "allow-empty", "Accepts a file that lists no package"))?
        .arg(flag(
            alloc,
            "no-summary",
            "Leaves out the last line with the totals",
        ))?;
    sources(alloc, diff)?
        .arg(list_file(alloc))?
        .arg(file(alloc, "OLD", "The older file"))?
        .arg(file(alloc, "NEW", "The newer file"))
}

// Adds the options that say what the files are.
fn sources<'a>(alloc: Global, command: Command<'a>) -> Result<Command<'a>, AllocError>
    ensures { IfOk result (λ c. (forms : table.These table.source_forms)
        × ((name : Text) → (options : List Rule) → IsCommand name options command.entry →
        IsCommand name (options ++ table.sources forms.0) c)) }
{
    let from = choice(
        alloc,
        "from",
        SOURCE_FORMS.as_slice(),
        "The form of the files; without it, their shape tells",
    );
    let command = command
        .arg(flag(
            alloc,
            "exclude-own",
            "Leaves out the project's own packages, such as members of a workspace",
        ))?
        .arg(from)?
        .arg(flag(
            alloc,
            "header",
            "With --from csv or tsv: the first record names the columns",
        ))?;
    pointers(alloc, command)
}

// Adds the options that say where a JSON text of any shape has its packages.
fn pointers<'a>(alloc: Global, command: Command<'a>) -> Result<Command<'a>, AllocError>
    ensures { IfOk result (λ c. (name : Text) → (options : List Rule) →
        IsCommand name options command.entry →
        IsCommand name (options ++ table.pointers) c) }
{
    command
        .arg(option(
            alloc,
            "each",
            "POINTER",
            "Any JSON: where its list of packages is, such as /packages",
        ))?
        .arg(option(
            alloc,
            "name",
            "POINTER",
            "With --each: where a package has its name; /name if not given",
        ))?
        .arg(option(
            alloc,
            "package-version",
            "POINTER",
            "With --each: where it has its version; none if not given",
        ))?
        .arg(option(
            alloc,
            "license",
            "POINTER",
            "With --each: where it has its license; /license if not given",
        ))
}
