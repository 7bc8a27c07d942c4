// Packages as they are read.

ghost use Rattle.std.specs.Prelude.{◌≡◌, IfOk};
ghost use Rattle.package_items.specs.Rows.{row_of, item_row, license_of};
ghost use Rattle.package_items.specs.Packages as spec;
ghost use Rattle.std.specs.Option.{option_copied};

use crate::item::Item;
use crate::texts::copy_of;
use std::alloc::{AllocError, Global};

/// What a package says of its license.
#[derive(Debug, PartialEq, Eq, Drop)]
pub enum License {
    /// Nothing: the member is missing or null, or its text is blank, `NONE` or `NOASSERTION`.
    Unstated,
    /// The text, to be read as an expression.
    Stated(String),
}

/// Where a package stands in its file.
#[derive(Debug, PartialEq, Eq, Drop)]
pub enum Spot {
    /// On the line of that number, from 1.
    Line(usize),
    /// The record of that number, from 1.
    Record(usize),
    /// At that JSON pointer; the empty one is the whole document.
    Pointer(String),
}

/// A package that a file lists.
#[derive(Debug, PartialEq, Eq, Drop)]
pub struct Package {
    pub name: String,
    pub version: Option<String>,
    pub license: License,
    /// The folder that the package lies in, if the file says it: as it stands there, and not looked at.
    pub folder: Option<String>,
    /// The files that the license is said to stand in, in their order.
    pub license_files: Vec<String>,
    /// How many licenses are told as evidence: they were seen in its files, and are not said to hold.
    pub evidence: usize,
    /// Whether the package is of the project that the file is about, and not one that the project takes from others.
    pub is_own: bool,
    pub spot: Spot,
}

/// The package that an item says: with this name, version and license, and nothing else said.
pub fn said(
    alloc: Global,
    item: &Item<'_>,
    name: &str,
    version: Option<&str>,
    license: License,
) -> Result<Package, AllocError>
    ensures { IfOk result (λ p. row_of p ≡ spec.said (item_row item.now) name.now
        (option_copied version.entry) (license_of license)) }
{
    Ok(Package {
        name: String::from_str(alloc, name)?,
        version: copy_of(alloc, version)?,
        license,
        folder: None,
        license_files: Vec::new(alloc),
        evidence: 0,
        is_own: item.is_own,
        spot: Spot::Pointer(String::from_str(alloc, item.at.as_str())?),
    })
}
