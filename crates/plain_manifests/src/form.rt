// Forms of manifests that are lines of fields, or elements, and which form a file has by its name.

ghost use Rattle.std.specs.Prelude.{◌≡◌, nat_eq};
ghost use Rattle.std.specs.List.{ends_with};
ghost use Rattle.plain_manifests.specs.Names.{
  plain_form_of,
  plain_form_named,
  by_name_of_languages,
  by_name_of_systems,
  by_ending,
  by_ending_of_elements,
  by_word_of_languages,
  by_word_of_systems,
  by_word_of_elements,
  by_place,
};

use std::path::Path;

/// How a file of fields or elements that declares a license is written (docs/MANIFESTS.md has what each form's own
/// description says).
#[derive(Clone, Copy, PartialEq, Eq, Debug)]
pub enum PlainForm {
    /// `METADATA` and `PKG-INFO` of Python's packages.
    Metadata,
    /// `setup.cfg`.
    SetupCfg,
    /// `setup.py`.
    SetupPy,
    /// `*.cabal`, of Haskell's packages.
    Cabal,
    /// `opam` and `*.opam`, of OCaml's packages.
    Opam,
    /// `*.gemspec`, of Ruby's packages.
    Gem,
    /// `mix.exs`, of Elixir's packages.
    Mix,
    /// `*.rockspec`, of Lua's packages.
    Rock,
    /// `meson.build`.
    Meson,
    /// `*.spec`, of RPM's packages.
    Rpm,
    /// `APKBUILD`, of Alpine's packages.
    Alpine,
    /// `PKGBUILD`, of Arch's packages.
    Arch,
    /// `snapcraft.yaml`.
    Snap,
    /// `meta.yaml`, of Conda's packages.
    Conda,
    /// `galaxy.yml`, of Ansible's collections.
    Galaxy,
    /// `Chart.yaml`, of Helm's charts.
    Helm,
    /// `CITATION.cff`.
    Citation,
    /// The label of a `Dockerfile` or `Containerfile`.
    Docker,
    /// `.reuse/dep5`.
    Dep5,
    /// `*.metainfo.xml` and `*.appdata.xml`.
    Appstream,
    /// `*.nuspec`.
    Nuget,
    /// `*.csproj`, `*.fsproj`, `*.vbproj` and `*.props`.
    Msbuild,
    /// `package.xml`, of ROS.
    Ros,
}

// The form of the manifests of a language's packages that have this name.
#[tactic(auto, unfolding(crate::specs::Names::by_name_of_languages))]
fn by_name_of_languages(name: &str) -> Option<PlainForm>
    ensures { result ≡ by_name_of_languages name.now }
{
    if name == "METADATA" || name == "PKG-INFO" {
        Some(PlainForm::Metadata)
    } else if name == "setup.cfg" {
        Some(PlainForm::SetupCfg)
    } else if name == "setup.py" {
        Some(PlainForm::SetupPy)
    } else if name == "opam" {
        Some(PlainForm::Opam)
    } else if name == "mix.exs" {
        Some(PlainForm::Mix)
    } else if name == "meson.build" {
        Some(PlainForm::Meson)
    } else if name == "package.xml" {
        Some(PlainForm::Ros)
    } else {
        None
    }
}

// The form of the manifests of a system's packages, and of other works, that have this name.
#[tactic(auto, unfolding(crate::specs::Names::by_name_of_systems))]
fn by_name_of_systems(name: &str) -> Option<PlainForm>
    ensures { result ≡ by_name_of_systems name.now }
{
    if name == "APKBUILD" {
        Some(PlainForm::Alpine)
    } else if name == "PKGBUILD" {
        Some(PlainForm::Arch)
    } else if name == "snapcraft.yaml" {
        Some(PlainForm::Snap)
    } else if name == "meta.yaml" {
        Some(PlainForm::Conda)
    } else if name == "galaxy.yml" {
        Some(PlainForm::Galaxy)
    } else if name == "Chart.yaml" {
        Some(PlainForm::Helm)
    } else if name == "CITATION.cff" {
        Some(PlainForm::Citation)
    } else if name == "Dockerfile" || name == "Containerfile" {
        Some(PlainForm::Docker)
    } else {
        None
    }
}

fn has_ending(name: &str, ending: &str) -> bool
    ensures { result ≡ ends_with nat_eq name.now ending.now }
{
    name.as_bytes().ends_with(ending.as_bytes())
}

// The form of the files of fields whose name ends so.
#[tactic(auto, unfolding(crate::specs::Names::by_ending))]
fn by_ending(name: &str) -> Option<PlainForm>
    ensures { result ≡ by_ending name.now }
{
    if has_ending(name, ".cabal") {
        Some(PlainForm::Cabal)
    } else if has_ending(name, ".opam") {
        Some(PlainForm::Opam)
    } else if has_ending(name, ".gemspec") {
        Some(PlainForm::Gem)
    } else if has_ending(name, ".rockspec") {
        Some(PlainForm::Rock)
    } else if has_ending(name, ".spec") {
        Some(PlainForm::Rpm)
    } else {
        None
    }
}

// The form of the files of elements whose name ends so.
#[tactic(auto, unfolding(crate::specs::Names::by_ending_of_elements))]
fn by_ending_of_elements(name: &str) -> Option<PlainForm>
    ensures { result ≡ by_ending_of_elements name.now }
{
    if has_ending(name, ".metainfo.xml") || has_ending(name, ".appdata.xml") {
        Some(PlainForm::Appstream)
    } else if has_ending(name, ".nuspec") {
        Some(PlainForm::Nuget)
    } else if has_ending(name, ".csproj") || has_ending(name, ".fsproj") {
        Some(PlainForm::Msbuild)
    } else if has_ending(name, ".vbproj") || has_ending(name, ".props") {
        Some(PlainForm::Msbuild)
    } else {
        None
    }
}

// The form of the file that is at this path, by the folder that it is in.
#[tactic(auto, unfolding(crate::specs::Names::by_place))]
fn by_place(path: &str) -> Option<PlainForm>
    ensures { result ≡ by_place path.now }
{
    if has_ending(path, ".reuse/dep5") {
        Some(PlainForm::Dep5)
    } else {
        None
    }
}

// The form of a language's packages that goes by this word.
#[tactic(auto, unfolding(crate::specs::Names::by_word_of_languages))]
fn by_word_of_languages(word: &str) -> Option<PlainForm>
    ensures { result ≡ by_word_of_languages word.now }
{
    if word == "metadata" {
        Some(PlainForm::Metadata)
    } else if word == "setup-cfg" {
        Some(PlainForm::SetupCfg)
    } else if word == "setup-py" {
        Some(PlainForm::SetupPy)
    } else if word == "cabal" {
        Some(PlainForm::Cabal)
    } else if word == "opam" {
        Some(PlainForm::Opam)
    } else if word == "gem" {
        Some(PlainForm::Gem)
    } else if word == "mix" {
        Some(PlainForm::Mix)
    } else if word == "rockspec" {
        Some(PlainForm::Rock)
    } else if word == "meson" {
        Some(PlainForm::Meson)
    } else {
        None
    }
}

// The form of a system's packages that goes by this word.
#[tactic(auto, unfolding(crate::specs::Names::by_word_of_systems))]
fn by_word_of_systems(word: &str) -> Option<PlainForm>
    ensures { result ≡ by_word_of_systems word.now }
{
    if word == "rpm" {
        Some(PlainForm::Rpm)
    } else if word == "alpine" {
        Some(PlainForm::Alpine)
    } else if word == "arch" {
        Some(PlainForm::Arch)
    } else if word == "snap" {
        Some(PlainForm::Snap)
    } else if word == "conda" {
        Some(PlainForm::Conda)
    } else if word == "galaxy" {
        Some(PlainForm::Galaxy)
    } else if word == "helm" {
        Some(PlainForm::Helm)
    } else if word == "citation" {
        Some(PlainForm::Citation)
    } else if word == "docker" {
        Some(PlainForm::Docker)
    } else {
        None
    }
}

// The form of elements that goes by this word, or of Debian's.
#[tactic(auto, unfolding(crate::specs::Names::by_word_of_elements))]
fn by_word_of_elements(word: &str) -> Option<PlainForm>
    ensures { result ≡ by_word_of_elements word.now }
{
    if word == "dep5" {
        Some(PlainForm::Dep5)
    } else if word == "appstream" {
        Some(PlainForm::Appstream)
    } else if word == "nuget" {
        Some(PlainForm::Nuget)
    } else if word == "msbuild" {
        Some(PlainForm::Msbuild)
    } else if word == "ros" {
        Some(PlainForm::Ros)
    } else {
        None
    }
}

/// The form of a manifest that is at this path, by its name there; `dep5` only in a folder `.reuse`.
pub fn plain_form_of(path: &str) -> Option<PlainForm>
    ensures { result ≡ plain_form_of path.now }
{
    match Path::new(path).file_name() {
        Some(name) => by_name_of_languages(name)
            .or(by_name_of_systems(name))
            .or(by_ending(name))
            .or(by_ending_of_elements(name))
            .or(by_place(path)),
        None => None,
    }
}

/// The form that goes by this word: `metadata`, `setup-cfg`, `setup-py`, `cabal`, `opam`, `gem`, `mix`, `rockspec`, `meson`,
/// `rpm`, `alpine`, `arch`, `snap`, `conda`, `galaxy`, `helm`, `citation`, `docker`, `dep5`, `appstream`, `nuget`, `msbuild` or
/// `ros`.
pub fn plain_form_named(word: &str) -> Option<PlainForm>
    ensures { result ≡ plain_form_named word.now }
{
    by_word_of_languages(word)
        .or(by_word_of_systems(word))
        .or(by_word_of_elements(word))
}
