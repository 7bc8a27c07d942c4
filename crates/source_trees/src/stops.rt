// What is in a folder, in the order in which a walk comes to it.

ghost use Rattle.std.specs.Prelude.{◌≡◌, IfOk, Some, map, bytes_eq, string_bytes};
ghost use Rattle.std.specs.Ordering.{on};
ghost use Rattle.std.specs.Cmp.{on_per, on_po, partial_equiv_from_equiv};
ghost use Rattle.std.specs.Cmp.Lexicographic.{texts_po, texts_ties};
ghost use Rattle.std.proofs.lemmas.Cmp.{nat_list_cmp_total, nat_list_eq_equiv, on_equiv, on_total};
ghost use Rattle.shelves.specs.Shelf.{entry_of};
ghost use Rattle.source_trees.specs.Stops as spec;
ghost use Rattle.source_trees.specs.Stops.{AreStopsIn, by_path, shown_stop};

use crate::visits::visit_of;
use shelves::Entry;
use std::alloc::{AllocError, Global};
use std::cmp::Ordering;
use std::path::Path;

/// What is done with what a walk comes to.
#[derive(Clone, Copy, PartialEq, Eq, Debug)]
pub enum Visit {
    /// A file is read.
    File,
    /// A folder is walked through.
    Folder,
    /// A folder of what others wrote or a program made.
    LeftOut,
    /// A new file that a run which was killed left.
    LeftBehind,
}

// What a walk comes to.
#[derive(Drop)]
pub struct Stop {
    pub(crate) path: String,
    pub(crate) visit: Visit,
}

impl PartialEq for Stop {
    ghost eq = { on (λ s. string_bytes s.path) bytes_eq };

    ghost laws = { on_per (λ s. string_bytes s.path) (partial_equiv_from_equiv nat_list_eq_equiv) };

    fn eq(&self, other: &Self) -> bool {
        self.path == other.path
    }
}

impl Eq for Stop {
    ghost laws = { on_equiv (λ s. string_bytes s.path) nat_list_eq_equiv };
}

impl Ord for Stop {
    ghost cmp = { by_path };

    ghost total = { on_total (λ s. string_bytes s.path) nat_list_cmp_total };

    ghost matches_partial_cmp = { λ x y. λ i. Some (by_path x y) };

    ghost matches_eq = { λ x y. texts_ties (string_bytes x.path) (string_bytes y.path) };

    fn cmp(&self, other: &Self) -> Ordering {
        self.path.cmp(&other.path)
    }
}

impl PartialOrd for Stop {
    ghost partial_cmp = { λ x y. Some (by_path x y) };

    ghost laws = { on_po (λ s. string_bytes s.path) texts_po };

    fn partial_cmp(&self, other: &Self) -> Option<Ordering> {
        Some(self.cmp(other))
    }
}

/// What is in the folder at the path, by ascending paths.
#[tactic(auto, using(crate::proofs::Named::put_in_order))]
pub(crate) fn stops_in(
    alloc: Global,
    folder: &str,
    entries: &[Entry],
) -> Result<Vec<Stop>, AllocError>
    ensures { IfOk result (λ stops. AreStopsIn folder.now
        (map entry_of entries.now) stops.items) }
{
    let mut stops = looked_at(alloc, folder, entries)?;
    stops.sort()?;
    Ok(stops)
}

// Whether a `Cargo.toml` is among them.
#[tactic(auto, using(crate::proofs::Named::names_cargo))]
fn has_cargo(entries: &[Entry]) -> bool
    ensures { result ≡ spec.has_cargo (map entry_of entries.now) }
{
    has_name(entries, "Cargo.toml")
}

fn has_name(entries: &[Entry], name: &str) -> bool
    ensures { result ≡ spec.has_name name.now entries.now }
{
    entries.iter().any(|entry| entry.name.as_str() == name)
}

// All that is looked at.
fn looked_at(alloc: Global, folder: &str, entries: &[Entry]) -> Result<Vec<Stop>, AllocError>
    ensures { IfOk result (λ stops. map shown_stop stops.items
        ≡ spec.looked_at folder.now (map entry_of entries.now)) }
{
    let has_cargo = has_cargo(entries);
    let mut stops = Vec::new(alloc);
    for entry in entries {
        if let Some(visit) = visit_of(entry.name.as_str(), entry.kind, has_cargo) {
            let path = below(alloc, folder, entry.name.as_str())?;
            stops.push(Stop { path, visit })?;
        }
    }
    Ok(stops)
}

/// The path of what has this name in the folder; in `.` that is its name.
pub fn below(alloc: Global, folder: &str, name: &str) -> Result<String, AllocError>
    ensures { IfOk result (λ path. string_bytes path ≡ spec.below folder.now name.now) }
{
    if folder == "." {
        return String::from_str(alloc, name);
    }
    let whole = Path::new(folder).join(alloc, name)?;
    String::from_str(alloc, whole.as_str())
}
