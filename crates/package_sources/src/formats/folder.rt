// The name of a package that is named by its folder.

ghost use Rattle.std.specs.Prelude.{◌≡◌, ◌==◌, IfOk, map, string_bytes};
ghost use Rattle.std.specs.List.{slice_split};
ghost use Rattle.package_sources.specs.Folders as spec;

use std::alloc::{AllocError, Global};

fn segments(alloc: Global, path: &str) -> Result<Vec<&str>, AllocError>
    ensures { IfOk result (λ v. map (λ x. x.now) v.items ≡ slice_split (λ b. b == 47) path.now) }
{
    path.split('/').collect(alloc)
}

// Whether the segment is a scope of names.
fn is_scope(segment: &str) -> bool
    ensures { result ≡ spec.is_scope segment.now }
{
    segment.as_bytes().starts_with(b"@")
}

// The name that two segments at the end of a path give.
fn last_of(alloc: Global, scope: &str, name: &str) -> Result<String, AllocError>
    ensures { IfOk result (λ s. string_bytes s ≡ spec.last_of scope.now name.now) }
{
    if is_scope(scope) {
        return format!(in alloc; "{scope}/{name}");
    }
    String::from_str(alloc, name)
}

// The name that the last segments of a path give.
fn name_of_ends(alloc: Global, ends: &[&str]) -> Result<String, AllocError>
    ensures { IfOk result (λ s.
        string_bytes s ≡ spec.name_of_ends (map (λ x. x.now) ends.now)) }
{
    match ends {
        [scope, name] => last_of(alloc, scope, name),
        [name] => String::from_str(alloc, name),
        _ => Ok(String::new(alloc)),
    }
}

// The name that the segments of a path end in.
#[tactic(auto, using(crate::proofs::Ends::ends_of_shown))]
fn name_in(alloc: Global, segments: &[&str]) -> Result<String, AllocError>
    ensures { IfOk result (λ s.
        string_bytes s ≡ spec.name_of_ends (spec.ends (map (λ x. x.now) segments.now))) }
{
    let from = segments.len().saturating_sub(2);
    name_of_ends(alloc, &segments[from..])
}

/// The name of the package in a folder: the last part of its path, with the scope before it if there is one.
pub(crate) fn folder_name(alloc: Global, path: &str) -> Result<String, AllocError>
    ensures { IfOk result (λ s. string_bytes s ≡ spec.folder_name path.now) }
{
    let parts = segments(alloc, path)?;
    name_in(alloc, parts.as_slice())
}
