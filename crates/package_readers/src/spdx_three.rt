// SPDX 3, as JSON-LD.

ghost use Rattle.std.specs.Prelude.{◌≡◌, ◌++◌, Ok, Err, IfOk, IfErr, map, codes};
ghost use Rattle.serde_json.specs.View.{view};
ghost use Rattle.package_items.specs.Rows.{Says, item_row, license_of, row_of};
ghost use Rattle.package_items.specs.Values.{seen};
ghost use Rattle.package_readers.specs.SpdxThree as spec;

use crate::license_checker::is_list;
use package_items::{
    Item, License, Package, SourceError, check_object, license_of_all, list_in, list_items,
    root_item, said, text_if_any, text_of, texts_of,
};
use serde_json::Value;
use std::alloc::{AllocError, Global};

/// That an element has a license, by its id and that of the license.
#[derive(Clone, Copy)]
pub(crate) struct Relation<'v> {
    kind: &'v str,
    from: &'v str,
    to: &'v str,
}

/// The text of a license, by its id.
#[derive(Clone, Copy)]
pub(crate) struct Wording<'v> {
    id: &'v str,
    text: &'v str,
}

fn type_of<'v>(alloc: Global, element: &Item<'v>) -> Result<&'v str, SourceError>
    ensures ok { IfOk result (λ t. spec.type_of (item_row element.now) ≡ Ok t.now) }
    ensures err { IfErr result (Says (λ f. spec.type_of (item_row element.now) ≡ Err f)) }
{
    check_object(alloc, element)?;
    text_of(alloc, element, "/type", element.value.get("type"))
}

// The ids that a relation leads to: a list, or one alone.
fn targets<'v>(alloc: Global, element: &Item<'v>) -> Result<Vec<&'v str>, SourceError>
    ensures ok { IfOk result (λ ts. spec.targets (item_row element.now)
        ≡ Ok (map (λ t. t.now) ts.items)) }
    ensures err { IfErr result (Says (λ f. spec.targets (item_row element.now) ≡ Err f)) }
{
    let found = element.value.get("to");
    if is_list(found) {
        let items = list_in(alloc, element, "/to", found)?;
        return texts_of(alloc, items.as_slice());
    }
    let target = text_of(alloc, element, "/to", found)?;
    let mut targets = Vec::new(alloc);
    targets.push(target)?;
    Ok(targets)
}

fn each_target<'v>(
    alloc: Global,
    kind: &'v str,
    from: &'v str,
    targets: &[&'v str],
) -> Result<Vec<Relation<'v>>, AllocError>
    ensures { IfOk result (λ rs. map spec.relation_row rs.items
        ≡ spec.each_target kind.now from.now (map (λ t. t.now) targets.now)) }
{
    let mut relations = Vec::new(alloc);
    for to in targets {
        relations.push(Relation {
            kind,
            from,
            to: *to,
        })?;
    }
    Ok(relations)
}

// What a relation tells of licenses: nothing, if it is of another kind.
fn relations_told<'v>(alloc: Global, element: &Item<'v>) -> Result<Vec<Relation<'v>>, SourceError>
    ensures ok { IfOk result (λ rs. spec.relations_told (item_row element.now)
        ≡ Ok (map spec.relation_row rs.items)) }
    ensures err { IfErr result (Says (λ f. spec.relations_told (item_row element.now) ≡ Err f)) }
{
    let found = element.value.get("relationshipType");
    let kind = text_of(alloc, element, "/relationshipType", found)?;
    if kind != "hasConcludedLicense" && kind != "hasDeclaredLicense" {
        return Ok(Vec::new(alloc));
    }
    let from = text_of(alloc, element, "/from", element.value.get("from"))?;
    let targets = targets(alloc, element)?;
    Ok(each_target(alloc, kind, from, targets.as_slice())?)
}

fn relations_of<'v>(alloc: Global, element: &Item<'v>) -> Result<Vec<Relation<'v>>, SourceError>
    ensures ok { IfOk result (λ rs. spec.relations_of (item_row element.now)
        ≡ Ok (map spec.relation_row rs.items)) }
    ensures err { IfErr result (Says (λ f. spec.relations_of (item_row element.now) ≡ Err f)) }
{
    if type_of(alloc, element)? != "Relationship" {
        return Ok(Vec::new(alloc));
    }
    relations_told(alloc, element)
}

fn relations<'v>(alloc: Global, elements: &[Item<'v>]) -> Result<Vec<Relation<'v>>, SourceError>
    ensures ok { IfOk result (λ rs. spec.relations (map item_row elements.now)
        ≡ Ok (map spec.relation_row rs.items)) }
    ensures err { IfErr result (Says (λ f. spec.relations (map item_row elements.now) ≡ Err f)) }
{
    let mut all = Vec::new(alloc);
    for element in elements {
        let mut more = relations_of(alloc, element)?;
        all.append(&mut more)?;
    }
    Ok(all)
}

fn wordings_of<'v>(alloc: Global, element: &Item<'v>) -> Result<Vec<Wording<'v>>, SourceError>
    ensures ok { IfOk result (λ ws. spec.wordings_of (item_row element.now)
        ≡ Ok (map spec.wording_row ws.items)) }
    ensures err { IfErr result (Says (λ f. spec.wordings_of (item_row element.now) ≡ Err f)) }
{
    let mut wordings = Vec::new(alloc);
    if type_of(alloc, element)? != "simplelicensing_LicenseExpression" {
        return Ok(wordings);
    }
    let id = text_of(alloc, element, "/spdxId", element.value.get("spdxId"))?;
    let found = element.value.get("simplelicensing_licenseExpression");
    let text = text_of(alloc, element, "/simplelicensing_licenseExpression", found)?;
    wordings.push(Wording { id, text })?;
    Ok(wordings)
}

fn wordings<'v>(alloc: Global, elements: &[Item<'v>]) -> Result<Vec<Wording<'v>>, SourceError>
    ensures ok { IfOk result (λ ws. spec.wordings (map item_row elements.now)
        ≡ Ok (map spec.wording_row ws.items)) }
    ensures err { IfErr result (Says (λ f. spec.wordings (map item_row elements.now) ≡ Err f)) }
{
    let mut all = Vec::new(alloc);
    for element in elements {
        let mut more = wordings_of(alloc, element)?;
        all.append(&mut more)?;
    }
    Ok(all)
}

// Whether the id is that of one of the two individuals for no license and for none that is known.
fn is_individual(id: &str) -> bool
    ensures { result ≡ spec.is_individual id.now }
{
    let bytes = id.as_bytes();
    bytes.ends_with(b"NoAssertionLicense") || bytes.ends_with(b"NoneLicense")
}

// The text of a license that no element spells out.
fn listed(id: &str) -> &str
    ensures { result.now ≡ spec.listed id.now }
{
    if is_individual(id) {
        return "NOASSERTION";
    }
    match id.strip_prefix("https://spdx.org/licenses/") {
        Some(name) => name,
        None => id,
    }
}

// The text of the license of that id.
fn text_for<'v>(wordings: &[Wording<'v>], id: &'v str) -> &'v str
    ensures { result.now ≡ spec.text_for (map spec.wording_row wordings.now) id.now }
{
    for wording in wordings {
        if wording.id == id {
            return wording.text;
        }
    }
    listed(id)
}

// The texts of the licenses that relations of this kind lead to from an id.
fn texts_for<'v>(
    alloc: Global,
    relations: &[Relation<'v>],
    wordings: &[Wording<'v>],
    kind: &str,
    from: &str,
) -> Result<Vec<&'v str>, AllocError>
    ensures { IfOk result (λ ts. map (λ t. t.now) ts.items
        ≡ spec.texts_for (map spec.wording_row wordings.now) kind.now from.now
        (map spec.relation_row relations.now)) }
{
    let mut texts = Vec::new(alloc);
    for relation in relations {
        if relation.kind == kind && relation.from == from {
            texts.push(text_for(wordings, relation.to))?;
        }
    }
    Ok(texts)
}

// What relations of this kind tell: all licenses hold.
fn license_by(
    alloc: Global,
    relations: &[Relation<'_>],
    wordings: &[Wording<'_>],
    kind: &str,
    from: &str,
) -> Result<License, AllocError>
    ensures { IfOk result (λ l. license_of l ≡ spec.license_by
        (map spec.relation_row relations.now) (map spec.wording_row wordings.now)
        kind.now from.now) }
{
    let texts = texts_for(alloc, relations, wordings, kind, from)?;
    license_of_all(alloc, " AND ", texts.as_slice())
}

// The concluded license if it is stated, else the declared one.
fn license(
    alloc: Global,
    relations: &[Relation<'_>],
    wordings: &[Wording<'_>],
    id: &str,
) -> Result<License, AllocError>
    ensures { IfOk result (λ l. license_of l ≡ spec.license (map spec.relation_row relations.now)
        (map spec.wording_row wordings.now) id.now) }
{
    match license_by(alloc, relations, wordings, "hasConcludedLicense", id)? {
        License::Stated(text) => Ok(License::Stated(text)),
        License::Unstated => license_by(alloc, relations, wordings, "hasDeclaredLicense", id),
    }
}

// The package that an element is.
fn package_of(
    alloc: Global,
    relations: &[Relation<'_>],
    wordings: &[Wording<'_>],
    element: &Item<'_>,
) -> Result<Package, SourceError>
    ensures ok { IfOk result (λ p. spec.package_of (map spec.relation_row relations.now)
        (map spec.wording_row wordings.now) (item_row element.now) ≡ Ok (row_of p)) }
    ensures err { IfErr result (Says (λ f. spec.package_of (map spec.relation_row relations.now)
        (map spec.wording_row wordings.now) (item_row element.now) ≡ Err f)) }
{
    let id = text_of(alloc, element, "/spdxId", element.value.get("spdxId"))?;
    let name = text_of(alloc, element, "/name", element.value.get("name"))?;
    let found = element.value.get("software_packageVersion");
    let version = text_if_any(alloc, element, "/software_packageVersion", found)?;
    let license = license(alloc, relations, wordings, id)?;
    Ok(said(alloc, element, name, version, license)?)
}

fn packages_of(
    alloc: Global,
    relations: &[Relation<'_>],
    wordings: &[Wording<'_>],
    element: &Item<'_>,
) -> Result<Vec<Package>, SourceError>
    ensures ok { IfOk result (λ ps. spec.packages_of (map spec.relation_row relations.now)
        (map spec.wording_row wordings.now) (item_row element.now) ≡ Ok (map row_of ps.items)) }
    ensures err { IfErr result (Says (λ f. spec.packages_of (map spec.relation_row relations.now)
        (map spec.wording_row wordings.now) (item_row element.now) ≡ Err f)) }
{
    let mut packages = Vec::new(alloc);
    if type_of(alloc, element)? != "software_Package" {
        return Ok(packages);
    }
    packages.push(package_of(alloc, relations, wordings, element)?)?;
    Ok(packages)
}

fn all_packages(
    alloc: Global,
    relations: &[Relation<'_>],
    wordings: &[Wording<'_>],
    elements: &[Item<'_>],
) -> Result<Vec<Package>, SourceError>
    ensures ok { IfOk result (λ ps. spec.all_packages (map spec.relation_row relations.now)
        (map spec.wording_row wordings.now) (map item_row elements.now)
        ≡ Ok (map row_of ps.items)) }
    ensures err { IfErr result (Says (λ f. spec.all_packages (map spec.relation_row relations.now)
        (map spec.wording_row wordings.now) (map item_row elements.now) ≡ Err f)) }
{
    let mut all = Vec::new(alloc);
    for element in elements {
        let mut more = packages_of(alloc, relations, wordings, element)?;
        all.append(&mut more)?;
    }
    Ok(all)
}

// The elements of a document: those of its graph, or the document, which is one.
fn elements<'v>(alloc: Global, document: &'v Value) -> Result<Vec<Item<'v>>, SourceError>
    ensures ok { IfOk result (λ v. spec.elements (view document.now) ≡ Ok (map item_row v.items)) }
    ensures err { IfErr result (Says (λ f. spec.elements (view document.now) ≡ Err f)) }
{
    let found = document.get("@graph");
    if found.is_none() {
        let mut items = Vec::new(alloc);
        items.push(root_item(alloc, "", false, document))?;
        return Ok(items);
    }
    list_items(alloc, "/@graph", found)
}

/// The packages of an SPDX 3 document: each element that is a package, in their order. For each the relations that tell
/// licenses are gone through, and for each of those that lead from it the expressions.
///
/// # Errors
///
/// The first fault of the document: of its elements, of its relations, of its expressions, then of its packages; or that
/// memory was refused.
pub fn graph_packages(alloc: Global, document: &Value) -> Result<Vec<Package>, SourceError>
    ensures ok { IfOk result (λ ps.
        spec.graph_packages (view document.now) ≡ Ok (map row_of ps.items)) }
    ensures err { IfErr result (Says (λ f. spec.graph_packages (view document.now) ≡ Err f)) }
{
    let elements = elements(alloc, document)?;
    let relations = relations(alloc, elements.as_slice())?;
    let wordings = wordings(alloc, elements.as_slice())?;
    all_packages(
        alloc,
        relations.as_slice(),
        wordings.as_slice(),
        elements.as_slice(),
    )
}
