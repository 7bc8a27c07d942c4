// Which packages the tables of a policy are for, found by name.

ghost use Rattle.std.specs.Prelude.{◌≡◌, IfOk, map, filter, option_map, string_bytes};
ghost use Rattle.std.specs.Option.{option_copied};
ghost use Rattle.semver.specs.Identifiers.{parts_of};
ghost use Rattle.spdx_policy.specs.Scopes as spec;
ghost use Rattle.spdx_policy.specs.Scopes.{holds, places, version_in};
ghost use Rattle.spdx_policy.specs.Shown.{scope_row, range_of, Indexes, Adds};

use semver::{Error, Version, VersionReq};
use std::alloc::{AllocError, Global};
use std::collections::BTreeMap;
use std::marker::Model;

/// The packages that a table is for.
#[derive(Drop)]
pub(crate) struct Scope {
    /// The package's name.
    pub name: String,
    /// The range of its versions; none is each version.
    pub versions: Option<VersionReq>,
}

/// The packages that tables are for, in the order of the tables. A look-up takes time by the
/// logarithm of the number of tables, and by how many tables have the name.
#[derive(Drop)]
pub(crate) struct Scopes {
    scopes: Vec<Scope>,
    by_package: BTreeMap<String, Vec<usize>>,
}

impl Model for Scopes {
    ghost use Rattle.std.specs.Prelude.{List};
    ghost use Rattle.spdx_policy.specs.Scopes.{ScopeRow};

    ghost Value = { List ScopeRow };

    ghost use Rattle.spdx_policy.specs.ScopesModel.{scopes_shown, IsIndexed};

    ghost view = { scopes_shown };

    ghost invariant = { IsIndexed };
}

impl Scopes {
    /// The packages of these tables.
    pub(crate) fn new(alloc: Global, scopes: Vec<Scope>) -> Result<Scopes, AllocError>
        ensures { IfOk result (λ s. s ≡ map scope_row scopes.items) }
    {
        let by_package = index_of(alloc, &scopes)?;
        Ok(Scopes { scopes, by_package })
    }

    /// The package of a table.
    pub(crate) fn package(&self, table: usize) -> Option<&str>
        ensures { option_copied result ≡ spec.package_at self.now table }
    {
        let scope = self.scopes.get(table)?;
        Some(scope.name.as_str())
    }

    /// How many tables there are.
    pub(crate) fn len(&self) -> usize
        ensures { result ≡ spec.row_count self.now }
    {
        self.scopes.len()
    }

    /// The tables that are for the package, ascending.
    pub(crate) fn holding(
        &self,
        alloc: Global,
        name: &str,
        version: Option<&str>,
    ) -> Result<Vec<usize>, AllocError>
        ensures { IfOk result (λ tables.
            tables.items ≡ places (holds name.now (option_copied version.entry)) self.now) }
    {
        match self.by_package.get(name) {
            Some(tables) => {
                let version = version_of(alloc, version)?;
                meant(alloc, &self.scopes, tables, &version)
            }
            None => Ok(Vec::new(alloc)),
        }
    }
}

// The tables of each name, ascending.
fn index_of(alloc: Global, scopes: &[Scope]) -> Result<BTreeMap<String, Vec<usize>>, AllocError>
    ensures { IfOk result (λ index. Indexes index (map scope_row scopes.now)) }
{
    let mut index: BTreeMap<String, Vec<usize>> = BTreeMap::new(alloc);
    for (table, scope) in scopes.iter().enumerate() {
        let name = String::from_str(alloc, scope.name.as_str())?;
        add(&mut index, name, table)?;
    }
    Ok(index)
}

// One more table under a name.
fn add(
    index: &mut BTreeMap<String, Vec<usize>>,
    name: String,
    table: usize,
) -> Result<(), AllocError>
    ensures { IfOk result (λ _. Adds index.old (string_bytes name) table index.new) }
{
    index.entry(name)?.or_default().push(table)?;
    Ok(())
}

// The version that a text is, if it is one.
fn version_of(alloc: Global, text: Option<&str>) -> Result<Option<Version>, AllocError>
    ensures { IfOk result (λ version.
        option_map parts_of version ≡ version_in (option_copied text.entry)) }
{
    let Some(text) = text else {
        return Ok(None);
    };
    match Version::parse(alloc, text) {
        Ok(version) => Ok(Some(version)),
        Err(error) => {
            if error == Error::from(AllocError) {
                return Err(AllocError);
            }
            Ok(None)
        }
    }
}

// Whether the range means the version.
fn is_meant(version: &Option<Version>, versions: &Option<VersionReq>) -> bool
    ensures { result ≡ spec.is_meant (option_map parts_of version.now)
        (option_map range_of versions.now) }
{
    match (versions, version) {
        (None, _) => true,
        (Some(_), None) => false,
        (Some(range), Some(version)) => range.matches(version),
    }
}

// Whether the range of a table means the version.
fn is_meant_at(scopes: &[Scope], version: &Option<Version>, table: usize) -> bool
    ensures { result ≡ spec.is_meant_at (map scope_row scopes.now)
        (option_map parts_of version.now) table }
{
    match scopes.get(table) {
        Some(scope) => is_meant(version, &scope.versions),
        None => false,
    }
}

// Those of the tables whose range means the version.
fn meant(
    alloc: Global,
    scopes: &[Scope],
    tables: &[usize],
    version: &Option<Version>,
) -> Result<Vec<usize>, AllocError>
    ensures { IfOk result (λ meant.
        meant.items ≡ filter (spec.is_meant_at (map scope_row scopes.now)
        (option_map parts_of version.now)) tables.now) }
{
    let mut meant = Vec::new(alloc);
    for table in tables {
        if is_meant_at(scopes, version, *table) {
            meant.push(*table)?;
        }
    }
    Ok(meant)
}
