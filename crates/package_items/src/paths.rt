// The folders and files of paths.

ghost use Rattle.std.specs.Prelude.{◌≡◌, option_map};
ghost use Rattle.std.specs.Option.{option_copied};
ghost use Rattle.std.specs.Path.{rsplit_once};
ghost use Rattle.package_items.specs.Paths as spec;

fn at_slash(path: &str) -> Option<(&str, &str)>
    ensures { option_map (λ p. (p.0.now, p.1.now)) result ≡ rsplit_once 47 path.now }
{
    path.rsplit_once('/')
}

fn at_backslash(path: &str) -> Option<(&str, &str)>
    ensures { option_map (λ p. (p.0.now, p.1.now)) result ≡ rsplit_once 92 path.now }
{
    path.rsplit_once('\\')
}

// Both parts of a path, round its last `/` or `\`.
fn cut(path: &str) -> Option<(&str, &str)>
    ensures { option_map (λ p. (p.0.now, p.1.now)) result ≡ spec.cut path.now }
{
    match (at_slash(path), at_backslash(path)) {
        (None, other) => other,
        (first, None) => first,
        (Some(first), Some(other)) => {
            if first.0.len() < other.0.len() {
                Some(other)
            } else {
                Some(first)
            }
        }
    }
}

/// The folder of the file at a path: what stands before its last `/` or `\`. It is `/` where nothing stands there, and `.` where
/// the path has neither.
pub fn folder_in(path: &str) -> &str
    ensures { result.now ≡ spec.folder_in path.now }
{
    match cut(path) {
        None => ".",
        Some((folder, _)) if folder.is_empty() => "/",
        Some((folder, _)) => folder,
    }
}

/// The name of the file at a path: what stands behind its last `/` or `\`.
pub fn file_in(path: &str) -> &str
    ensures { result.now ≡ spec.file_in path.now }
{
    match cut(path) {
        Some((_, file)) => file,
        None => path,
    }
}

fn strip<'p>(start: &str, path: &'p str) -> Option<&'p str>
    ensures { option_copied result ≡ spec.strip start.now path.now }
{
    path.strip_prefix(start)
}

fn behind<'p>(folder: &str, path: &'p str) -> Option<&'p str>
    ensures { option_copied result ≡ spec.behind folder.now path.now }
{
    strip("/", strip(folder, path)?)
}

/// The path from a folder, if it begins with the folder and a `/`; any other path stays as it is.
pub fn file_within<'p>(folder: Option<&str>, path: &'p str) -> &'p str
    ensures { result.now ≡ spec.file_within (option_copied folder.entry) path.now }
{
    let Some(folder) = folder else {
        return path;
    };
    match behind(folder, path) {
        Some(file) => file,
        None => path,
    }
}
