// What begins a comment up to the end of its line, by the kind of file.

ghost use Rattle.std.specs.Prelude.{◌≡◌, map};
ghost use Rattle.license_tags.specs.Comments.{
  begins_comment,
  comment_named,
  comment_of,
  hash_extensions,
  hash_names,
  is_among,
  percent_extensions,
  semicolon_extensions,
};

use std::path::Path;

/// Which character begins a comment that goes up to the end of its line, in a kind of file.
#[derive(Clone, Copy, PartialEq, Eq, Debug)]
pub enum Comment {
    /// `#`: shell, Python, YAML, TOML, Makefile and others.
    Hash,
    /// `;`: Lisp, assembler, INI and others.
    Semicolon,
    /// `%`: TeX, Erlang and PostScript.
    Percent,
    /// None of them, or it isn't known.
    Other,
}

// Names of files whose comments begin with `#`: of build files, of other tools, hidden ones.
static HASH_NAMES: [&str; 32] = [
    "Makefile",
    "makefile",
    "GNUmakefile",
    "Kconfig",
    "Kbuild",
    "CMakeLists.txt",
    "meson.build",
    "BUILD",
    "WORKSPACE",
    "SConstruct",
    "SConscript",
    "Dockerfile",
    "Containerfile",
    "Gemfile",
    "Rakefile",
    "Vagrantfile",
    "Pipfile",
    "requirements.txt",
    "PKGBUILD",
    "Justfile",
    "justfile",
    "CODEOWNERS",
    ".gitignore",
    ".gitattributes",
    ".gitmodules",
    ".mailmap",
    ".editorconfig",
    ".dockerignore",
    ".npmignore",
    ".bashrc",
    ".profile",
    ".env",
];

// Extensions of files whose comments begin with `#`: of shells, scripts, other languages, data, build files.
static HASH_EXTENSIONS: [&str; 54] = [
    "sh",
    "bash",
    "zsh",
    "ksh",
    "fish",
    "bats",
    "awk",
    "sed",
    "ps1",
    "psm1",
    "psd1",
    "py",
    "pyi",
    "pyx",
    "pl",
    "pm",
    "rb",
    "rake",
    "gemspec",
    "r",
    "R",
    "jl",
    "tcl",
    "ex",
    "exs",
    "cr",
    "nim",
    "coffee",
    "raku",
    "robot",
    "star",
    "graphql",
    "yml",
    "yaml",
    "toml",
    "lock",
    "cfg",
    "conf",
    "properties",
    "po",
    "pot",
    "service",
    "desktop",
    "cmake",
    "mk",
    "mak",
    "am",
    "bzl",
    "ninja",
    "nix",
    "tf",
    "tfvars",
    "hcl",
    "spec",
];

// Extensions of files whose comments begin with `;`: Lisps, assemblers, INI and others.
static SEMICOLON_EXTENSIONS: [&str; 14] = [
    "lisp", "lsp", "el", "scm", "ss", "rkt", "clj", "cljs", "cljc", "edn", "asm", "nasm", "ini",
    "ll",
];

// Extensions of files whose comments begin with `%`: TeX, Erlang and PostScript.
static PERCENT_EXTENSIONS: [&str; 13] = [
    "tex", "sty", "cls", "ltx", "dtx", "ins", "bst", "bbx", "cbx", "erl", "hrl", "escript", "ps",
];

// Whether the text is one of the words.
fn is_among(words: &[&str], text: &str) -> bool
    ensures { result ≡ is_among (map (λ word. word.now) words.now) text.now }
{
    words.contains(&text)
}

#[tactic(auto, unfolding(crate::specs::Comments::hash_names))]
fn is_hash_name(name: &str) -> bool
    ensures { result ≡ is_among hash_names name.now }
{
    is_among(HASH_NAMES.as_slice(), name)
}

#[tactic(auto, unfolding(crate::specs::Comments::hash_extensions))]
fn is_hash_extension(extension: &str) -> bool
    ensures { result ≡ is_among hash_extensions extension.now }
{
    is_among(HASH_EXTENSIONS.as_slice(), extension)
}

#[tactic(auto, unfolding(crate::specs::Comments::semicolon_extensions))]
fn is_semicolon(extension: &str) -> bool
    ensures { result ≡ is_among semicolon_extensions extension.now }
{
    is_among(SEMICOLON_EXTENSIONS.as_slice(), extension)
}

#[tactic(auto, unfolding(crate::specs::Comments::percent_extensions))]
fn is_percent(extension: &str) -> bool
    ensures { result ≡ is_among percent_extensions extension.now }
{
    is_among(PERCENT_EXTENSIONS.as_slice(), extension)
}

fn comment_named(name: &str, extension: &str) -> Comment
    ensures { result ≡ comment_named name.now extension.now }
{
    if is_hash_name(name) || is_hash_extension(extension) {
        Comment::Hash
    } else if is_semicolon(extension) {
        Comment::Semicolon
    } else if is_percent(extension) {
        Comment::Percent
    } else {
        Comment::Other
    }
}

/// What begins a comment in the file at this path, by its name or its extension there, each letter as it stands
/// (`specs/Comments.antt` has the table). `Other` where the table has neither.
pub fn comment_of(path: &str) -> Comment
    ensures { result ≡ comment_of path.now }
{
    let path = Path::new(path);
    comment_named(
        path.file_name().unwrap_or(""),
        path.extension().unwrap_or(""),
    )
}

/// Whether the bytes begin with what begins a comment.
pub(crate) fn begins_comment(comment: Comment, bytes: &[u8]) -> bool
    ensures { result ≡ begins_comment comment bytes.now }
{
    match comment {
        Comment::Hash => bytes.starts_with(b"#"),
        Comment::Semicolon => bytes.starts_with(b";"),
        Comment::Percent => bytes.starts_with(b"%"),
        Comment::Other => false,
    }
}
