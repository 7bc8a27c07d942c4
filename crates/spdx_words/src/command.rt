// The commands over expressions and lists, and `spdx` with one of its commands or all of them.

ghost use Rattle.std.specs.Prelude.{◌≡◌, IfOk, codes};
ghost use Rattle.clap.specs.Walk.{rule_of};
ghost use Rattle.clap.specs.Simple.{Shape, app_of};
ghost use Rattle.spdx_words.specs.Options.{IsAlone, IsCommand};
ghost use Rattle.spdx_words.specs.Commands as table;

use crate::options::{choice, file, flag, lettered, option, optional_file, with_value, words};
use crate::packages::command::{diff, gate, notice};
use clap::{Arg, Command};
use std::alloc::{AllocError, Global};

const CHECK_EXAMPLE: &str = "Examples:
  spdx check .
  spdx check Cargo.toml
  printf 'MIT\\nGPL-2.0+ OR Apache2\\n' | spdx check

In a folder, manifests (Cargo.toml, package.json, ..) and SPDX-License-Identifier tags are read. A file with the name of a
manifest is read as one; any other file, and standard input, has one expression on each line. .gitignore isn't read.

Status: 0 nothing refused, 1 something refused, 2 bad arguments, list or file, 3 a write or memory failed.";

const FIX_EXAMPLE: &str = "Examples:
  spdx fix .
  spdx fix --write Cargo.toml

`fix` reads what `check` reads.

Status: 0 nothing is left to fix, 1 some expression has no fix, 2 bad arguments, list or file, 3 a write or memory
failed.";

const COMPARE_EXAMPLE: &str = "Example:
  spdx compare 'MIT OR (MIT AND Zlib)' MIT

Status: 0 they mean the same, 1 they don't, 2 bad arguments or list, or a text that is no expression, 3 a write or
memory failed.";

const SIMPLIFY_EXAMPLE: &str = "Example:
  echo 'MIT OR (MIT AND Zlib)' | spdx simplify

Status: 0 each line has a meaning, 1 some line is no expression or makes too many sets of licenses and is written as it
is, 2 bad arguments, list or file, 3 a write or memory failed.";

const LIST_EXAMPLE: &str = "Examples:
  spdx list show MIT GPL-2.0
  spdx list make licenses.json exceptions.json --extras extras.json > list.json
  spdx list diff newer_folder

A newer list: put SPDX's own licenses.json and exceptions.json (github.com/spdx/license-list-data, folder json) into a
folder, and name the folder with --list, or for every command in the environment variable SPDX_LIST.";

static FINDING_FORMATS: [&str; 5] = ["human", "short", "json", "github", "sarif"];

// The names of forms of manifests, as `manifests::form_named` knows them.
static FORMS: [&str; 32] = [
    "cargo",
    "npm",
    "bower",
    "jsr",
    "vcpkg",
    "elm",
    "composer",
    "pyproject",
    "reuse",
    "metadata",
    "setup-cfg",
    "setup-py",
    "cabal",
    "opam",
    "gem",
    "mix",
    "rockspec",
    "meson",
    "rpm",
    "alpine",
    "arch",
    "snap",
    "conda",
    "galaxy",
    "helm",
    "citation",
    "docker",
    "dep5",
    "appstream",
    "nuget",
    "msbuild",
    "ros",
];

const NEWER_HELP: &str =
    "The newer list; without it, OLD is the newer one, and the list in use the older";

const EXAMPLES: &str = "Examples:
  spdx check .                       what is wrong in the manifests and license tags of a tree
  spdx check licenses.txt            what is wrong in a list with one expression on each line
  spdx check --headers src           the SPDX-License-Identifier tags of a source tree
  spdx fix .                         a diff of what can be fixed; --write fixes the files
  spdx gate --policy policy.toml --from cargo metadata.json
                                     which packages a policy refuses, and why
  spdx notice --accept MIT,Apache-2.0 --texts texts --from cargo metadata.json
                                     the page with each package under its licenses
  spdx diff --from cargo old.json new.json
                                     which packages came and went, and whose license changed
  spdx compare 'MIT OR Apache-2.0' MIT
                                     which of two expressions asks for more
  spdx list show Apache-2.0          what the list says of a name";

/// `spdx`, with no command yet. `version` is what `--version` prints.
fn bare<'a>(alloc: Global, version: &'a str) -> Result<Command<'a>, AllocError>
    ensures { IfOk result (IsAlone table.spdx_alone) }
{
    Ok(
        Command::new(alloc, "spdx")
            .bin_name("spdx")?
            .about("Checks and fixes SPDX license expressions, and judges packages by a policy")
            .version(version)
            .subcommand_required(true)
            .arg_required_else_help(true)
            .after_help(EXAMPLES),
    )
}

/// `spdx` with this command alone.
pub(crate) fn with<'a>(
    alloc: Global,
    version: &'a str,
    command: Command<'a>,
) -> Result<Command<'a>, AllocError>
    ensures { IfOk result (λ c. (shape : Shape) → IsAlone shape command.entry →
        app_of c ≡ table.spdx shape) }
{
    bare(alloc, version)?.subcommand(command)
}

/// `spdx` with all its commands: what tells of them, and of words that name none of them.
pub(crate) fn with_all<'a>(alloc: Global, version: &'a str) -> Result<Command<'a>, AllocError> {
    bare(alloc, version)?
        .subcommand(check(alloc)?)?
        .subcommand(fix(alloc)?)?
        .subcommand(gate(alloc)?)?
        .subcommand(notice(alloc)?)?
        .subcommand(diff(alloc)?)?
        .subcommand(compare(alloc)?)?
        .subcommand(simplify(alloc)?)?
        .subcommand(list(alloc)?)
}

/// The command `check`.
pub(crate) fn check<'a>(alloc: Global) -> Result<Command<'a>, AllocError>
    ensures { IfOk result (λ c. (formats : table.These table.finding_formats)
        × (forms : table.These table.manifest_forms)
        × IsCommand (codes "check") (table.check_options formats.0 forms.0) c) }
{
    let format = choice(
        alloc,
        "format",
        FINDING_FORMATS.as_slice(),
        "How findings are written",
    );
    let strict = flag(
        alloc,
        "strict",
        "Takes names only as the list writes them, and no deprecated ones; the default",
    );
    Command::new(alloc, "check")
        .about("Reports which expressions are refused, where, and what to write instead")
        .after_help(CHECK_EXAMPLE)
        .arg(with_value(format, "human"))?
        .arg(strict)?
        .arg(lax(alloc))?
        .arg(headers(alloc))?
        .arg(manifests(alloc))?
        .arg(form(alloc))?
        .arg(option(
            alloc,
            "texts",
            "DIR",
            "The folder with the license texts; without it, LICENSES in each folder that has one",
        ))?
        .arg(flag(
            alloc,
            "untagged",
            "Names the files that have no license tag and declare no license",
        ))?
        .arg(list_file(alloc))?
        .arg(quiet(alloc))?
        .arg(flag(
            alloc,
            "no-summary",
            "Leaves out the last line with the totals",
        ))?
        .arg(paths(alloc))
}

/// The command `fix`.
pub(crate) fn fix<'a>(alloc: Global) -> Result<Command<'a>, AllocError>
    ensures { IfOk result (λ c. (forms : table.These table.manifest_forms)
        × IsCommand (codes "fix") (table.fix_options forms.0) c) }
{
    Command::new(alloc, "fix")
        .about("Shows what the refused expressions should be, or fixes the files")
        .after_help(FIX_EXAMPLE)
        .arg(flag(alloc, "write", "Fixes the files in place"))?
        .arg(flag(
            alloc,
            "break-links",
            "With --write: also fixes a file that has hard links, which keep the old bytes",
        ))?
        .arg(headers(alloc))?
        .arg(manifests(alloc))?
        .arg(form(alloc))?
        .arg(list_file(alloc))?
        .arg(paths(alloc))
}

/// The command `compare`.
pub(crate) fn compare<'a>(alloc: Global) -> Result<Command<'a>, AllocError>
    ensures { IfOk result (IsCommand (codes "compare") table.compare_options) }
{
    Command::new(alloc, "compare")
        .about("Says whether two expressions mean the same, or which asks for more")
        .after_help(COMPARE_EXAMPLE)
        .arg(lax(alloc))?
        .arg(list_file(alloc))?
        .arg(file(alloc, "ONE", "An expression"))?
        .arg(file(alloc, "OTHER", "Another one"))
}

/// The command `simplify`.
pub(crate) fn simplify<'a>(alloc: Global) -> Result<Command<'a>, AllocError>
    ensures { IfOk result (IsCommand (codes "simplify") table.simplify_options) }
{
    Command::new(alloc, "simplify")
        .about("Writes what each expression means, without what it says twice")
        .after_help(SIMPLIFY_EXAMPLE)
        .arg(lax(alloc))?
        .arg(list_file(alloc))?
        .arg(paths(alloc))
}

/// The command `list` as a program of its own, whose name is `spdx list`.
pub(crate) fn list_alone<'a>(alloc: Global) -> Result<Command<'a>, AllocError>
    ensures { IfOk result (λ c. app_of c ≡ table.spdx_list) }
{
    list(alloc)?.bin_name("spdx list")
}

/// The command `list`, with its own commands.
fn list<'a>(alloc: Global) -> Result<Command<'a>, AllocError>
    ensures { IfOk result (λ c. app_of c ≡ table.spdx_list) }
{
    Command::new(alloc, "list")
        .about("Shows, makes or compares lists of licenses")
        .subcommand_required(true)
        .arg_required_else_help(true)
        .after_help(LIST_EXAMPLE)
        .subcommand(show(alloc)?)?
        .subcommand(make(alloc)?)?
        .subcommand(differ(alloc)?)
}

fn show<'a>(alloc: Global) -> Result<Command<'a>, AllocError>
    ensures { IfOk result (IsCommand (codes "show") table.show_options) }
{
    Command::new(alloc, "show")
        .about("Shows what the list says of names")
        .arg(list_file(alloc))?
        .arg(words(
            alloc,
            "NAME",
            "License and exception names; without any, the list's version and all of its names",
        ))
}

pub(crate) fn make<'a>(alloc: Global) -> Result<Command<'a>, AllocError>
    ensures { IfOk result (IsCommand (codes "make") table.make_options) }
{
    Command::new(alloc, "make")
        .about("Writes a list from SPDX's two files")
        .arg(file(alloc, "LICENSES", "SPDX's licenses.json"))?
        .arg(file(alloc, "EXCEPTIONS", "SPDX's exceptions.json"))?
        .arg(option(
            alloc,
            "extras",
            "FILE",
            "Copyleft names, imprecise names and replacements of old names",
        ))
}

pub(crate) fn differ<'a>(alloc: Global) -> Result<Command<'a>, AllocError>
    ensures { IfOk result (IsCommand (codes "diff") table.differ_options) }
{
    Command::new(alloc, "diff")
        .about("Reports what a newer list added, removed, deprecated and changed")
        .arg(file(
            alloc,
            "OLD",
            "The older list: a file that `spdx list make` wrote, or a folder with SPDX's two files",
        ))?
        .arg(optional_file(alloc, "NEW", NEWER_HELP))
}

pub(crate) fn lax<'a>(alloc: Global) -> Arg<'a>
    ensures { rule_of result ≡ table.lax }
{
    flag(
        alloc,
        "lax",
        "Also takes deprecated names, any case, imprecise names, and `/` for OR",
    )
}

pub(crate) fn quiet<'a>(alloc: Global) -> Arg<'a>
    ensures { rule_of result ≡ table.quiet }
{
    let quiet = flag(
        alloc,
        "quiet",
        "Writes nothing to standard output; only the status gives the result",
    );
    lettered(quiet, 'q')
}

fn headers<'a>(alloc: Global) -> Arg<'a>
    ensures { rule_of result ≡ table.headers }
{
    flag(alloc, "headers", "Reads only SPDX-License-Identifier tags")
}

fn manifests<'a>(alloc: Global) -> Arg<'a>
    ensures { rule_of result ≡ table.manifests }
{
    flag(
        alloc,
        "manifests",
        "Reads only manifests, which it knows by their names",
    )
}

fn form<'a>(alloc: Global) -> Arg<'a>
    ensures { (forms : table.These table.manifest_forms)
        × (rule_of result ≡ table.form forms.0) }
{
    choice(
        alloc,
        "as",
        FORMS.as_slice(),
        "Reads the files as manifests of this form, whatever their names are",
    )
}

pub(crate) fn list_file<'a>(alloc: Global) -> Arg<'a>
    ensures { rule_of result ≡ table.list_option }
{
    option(
        alloc,
        "list",
        "FILE|DIR",
        "The license list: a file that `spdx list make` wrote, or a folder with SPDX's two files",
    )
}

pub(crate) fn paths<'a>(alloc: Global) -> Arg<'a>
    ensures { rule_of result ≡ table.paths }
{
    words(
        alloc,
        "PATH",
        "What to read; `-`, or no path, is standard input",
    )
}
