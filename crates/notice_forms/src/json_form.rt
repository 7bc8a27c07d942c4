// The page as one document of JSON.

ghost use Rattle.std.specs.Prelude.{◌≡◌, [], ◌∷◌, ◌++◌, Some, OnOk, IfOk, IfErr, codes, map, string_bytes};
ghost use Rattle.json.specs.Json.{document, array};
ghost use Rattle.json.specs.Tree.{json_tokens};
ghost use Rattle.license_notice.specs.Notices.{line_of, bands_of, names_of};
ghost use Rattle.license_notice.specs.Places.{ArePlaces};
ghost use Rattle.notice_forms.specs.Found.{found_at, text_token, texts_at};
ghost use Rattle.notice_forms.specs.Hashed.{hashed, hash_in, hashed_json, with_hash, listed, release_tokens};
ghost use Rattle.notice_forms.specs.Json.{items_of, hash_of, holder_json, json_page, json_text, package_json, packages_json, told_json};
ghost use Rattle.notice_forms.specs.Refusals.{IsTextRefusal};
ghost use Rattle.notice_forms.specs.Told.{named, told, with_bytes};

use crate::errors::PageError;
use crate::pages::{LicenseText, Page};
use crate::places::{group_places, text_places};
use json::Writer;
use license_notice::{Group, Place, Places, Release};
use sha2::{Digest, Sha256};
use std::alloc::{AllocError, Global};

// A text that is UTF-8, with its hash.
#[derive(Drop)]
struct Hashed<'r, 't> {
    name: &'t str,
    packages: &'r [Release<'t>],
    words: &'t str,
    hash: String,
}

/// The document, and a newline.
pub(crate) fn json_document<'t>(
    alloc: Global,
    shown: &Page<'_, 't>,
) -> Result<Vec<u8>, PageError<'t>>
    ensures text { IfOk result (λ text. text.items ≡ json_page (told shown.now)) }
    ensures reads_back { IfOk result (λ text.
        document (json_text (told shown.now)) ≡ Some (told_json (told shown.now))) }
    ensures err { IfErr result (IsTextRefusal (map named shown.now.texts.now)) }
{
    let texts = all_hashed(alloc, shown.texts)?;
    let text = document_of(alloc, shown, &texts)?;
    Ok(text)
}

fn document_of<'t>(
    alloc: Global,
    shown: &Page<'_, 't>,
    texts: &[Hashed<'_, 't>],
) -> Result<Vec<u8>, AllocError>
    requires { map hashed texts.now ≡ map with_hash (told shown.now).texts }
    ensures text { IfOk result (λ text. text.items ≡ json_page (told shown.now)) }
    ensures reads_back { IfOk result (λ text.
        document (json_text (told shown.now)) ≡ Some (told_json (told shown.now))) }
{
    let mut writer = Writer::new(Vec::new(alloc));
    put_document(alloc, &mut writer, shown, texts)?;
    let mut text = writer.into_inner();
    text.push(b'\n')?;
    Ok(text)
}

fn put_document<'t>(
    alloc: Global,
    writer: &mut Writer,
    shown: &Page<'_, 't>,
    texts: &[Hashed<'_, 't>],
) -> Result<(), AllocError>
    requires { map hashed texts.now ≡ map with_hash (told shown.now).texts }
    ensures tokens { OnOk result (writer.new.tokens
        ≡ writer.old.tokens ++ json_tokens (told_json (told shown.now))) }
    ensures before { OnOk result (writer.new.before ≡ writer.old.before) }
{
    writer.begin_object()?;
    writer.key("packages")?;
    put_packages(alloc, writer, shown, texts)?;
    writer.key("texts")?;
    put_texts(writer, texts)?;
    writer.end_object()?;
    Ok(())
}

fn all_hashed<'r, 't>(
    alloc: Global,
    texts: &[LicenseText<'r, 't>],
) -> Result<Vec<Hashed<'r, 't>>, PageError<'t>>
    ensures ok { IfOk result (λ v. map hashed v.items ≡ map with_hash (map named texts.now)) }
    ensures err { IfErr result (IsTextRefusal (map named texts.now)) }
{
    let mut all = Vec::new(alloc);
    for text in texts {
        let Ok(words) = str::from_utf8(text.bytes) else {
            return Err(PageError::NotUtf8(text.name));
        };
        put_hashed(alloc, &mut all, text, words)?;
    }
    Ok(all)
}

fn put_hashed<'r, 't>(
    alloc: Global,
    all: &mut Vec<Hashed<'r, 't>>,
    text: &LicenseText<'r, 't>,
    words: &'t str,
) -> Result<(), AllocError>
    ensures { OnOk result (map hashed all.new.items
        ≡ map hashed all.old.items ++ with_hash (with_bytes text.now words.now) ∷ []) }
{
    all.push(Hashed {
        name: text.name,
        packages: text.packages,
        words,
        hash: hash_of(alloc, words)?,
    })?;
    Ok(())
}

// The SHA-256 of a text.
fn hash_of(alloc: Global, words: &str) -> Result<String, AllocError>
    ensures { IfOk result (λ hash. string_bytes hash ≡ hash_of words.now) }
{
    hex::encode(alloc, Sha256::digest(words.as_bytes()))
}

fn put_packages<'t>(
    alloc: Global,
    writer: &mut Writer,
    shown: &Page<'_, 't>,
    texts: &[Hashed<'_, 't>],
) -> Result<(), AllocError>
    requires { map hashed texts.now ≡ map with_hash (told shown.now).texts }
    ensures tokens { OnOk result (writer.new.tokens ≡ writer.old.tokens
        ++ json_tokens (packages_json (told shown.now))) }
    ensures before { OnOk result (writer.new.before ≡ writer.old.before) }
{
    let under = group_places(alloc, shown.groups)?;
    let beside = text_places(alloc, shown.texts)?;
    writer.begin_array()?;
    for release in shown.packages {
        put_package(writer, shown, texts, &under, &beside, release)?;
    }
    writer.end_array()?;
    Ok(())
}

// A package that stands in these places among the groups, and in those among the texts.
fn put_package<'t>(
    writer: &mut Writer,
    shown: &Page<'_, 't>,
    texts: &[Hashed<'_, 't>],
    under: &Places<'t>,
    beside: &Places<'t>,
    release: &Release<'t>,
) -> Result<(), AllocError>
    requires texts { map hashed texts.now ≡ map with_hash (told shown.now).texts }
    requires under { ArePlaces (map (λ b. b.lines) (told shown.now).bands) under.now }
    requires beside { ArePlaces (map (λ t. t.lines) (told shown.now).texts) beside.now }
    ensures tokens { OnOk result (writer.new.tokens ≡ writer.old.tokens
        ++ json_tokens (package_json (told shown.now) (line_of release.now))) }
    ensures before { OnOk result (writer.new.before ≡ writer.old.before) }
{
    writer.begin_object()?;
    put_release(writer, release)?;
    put_requirements(writer, shown.groups, under.of(release))?;
    put_hashes(writer, texts, beside.of(release))?;
    writer.end_object()?;
    Ok(())
}

fn put_release(writer: &mut Writer, release: &Release<'_>) -> Result<(), AllocError>
    ensures tokens { OnOk result (writer.new.tokens
        ≡ writer.old.tokens ++ release_tokens (line_of release.now)) }
    ensures before { OnOk result (writer.new.before ≡ writer.old.before) }
{
    writer.key("name")?;
    writer.string(release.name)?;
    writer.key("version")?;
    if release.version.is_empty() {
        writer.null()?;
    } else {
        writer.string(release.version)?;
    }
    Ok(())
}

fn put_requirements(
    writer: &mut Writer,
    groups: &[Group<'_>],
    places: &[Place<'_>],
) -> Result<(), AllocError>
    ensures tokens { OnOk result (writer.new.tokens ≡ writer.old.tokens
        ++ listed (codes "licenses") (texts_at (names_of (bands_of groups.now)) places.now)) }
    ensures before { OnOk result (writer.new.before ≡ writer.old.before) }
{
    writer.key("licenses")?;
    writer.begin_array()?;
    for place in places {
        put_requirement(writer, groups, place.number)?;
    }
    writer.end_array()?;
    Ok(())
}

fn put_requirement(
    writer: &mut Writer,
    groups: &[Group<'_>],
    number: usize,
) -> Result<(), AllocError>
    ensures tokens { OnOk result (writer.new.tokens ≡ writer.old.tokens
        ++ found_at text_token (names_of (bands_of groups.now)) number) }
    ensures before { OnOk result (writer.new.before ≡ writer.old.before) }
{
    match groups.get(number) {
        Some(group) => writer.string(group.requirement),
        None => Ok(()),
    }
}

fn put_hashes(
    writer: &mut Writer,
    texts: &[Hashed<'_, '_>],
    places: &[Place<'_>],
) -> Result<(), AllocError>
    ensures tokens { OnOk result (writer.new.tokens ≡ writer.old.tokens
        ++ listed (codes "texts") (texts_at (map hash_in texts.now) places.now)) }
    ensures before { OnOk result (writer.new.before ≡ writer.old.before) }
{
    writer.key("texts")?;
    writer.begin_array()?;
    for place in places {
        put_hash(writer, texts, place.number)?;
    }
    writer.end_array()?;
    Ok(())
}

fn put_hash(writer: &mut Writer, texts: &[Hashed<'_, '_>], number: usize) -> Result<(), AllocError>
    ensures tokens { OnOk result (writer.new.tokens
        ≡ writer.old.tokens ++ found_at text_token (map hash_in texts.now) number) }
    ensures before { OnOk result (writer.new.before ≡ writer.old.before) }
{
    match texts.get(number) {
        Some(text) => writer.string(&text.hash),
        None => Ok(()),
    }
}

fn put_texts(writer: &mut Writer, texts: &[Hashed<'_, '_>]) -> Result<(), AllocError>
    ensures tokens { OnOk result (writer.new.tokens ≡ writer.old.tokens
        ++ json_tokens (array (items_of (map hashed_json (map hashed texts.now))))) }
    ensures before { OnOk result (writer.new.before ≡ writer.old.before) }
{
    writer.begin_array()?;
    for text in texts {
        put_text(writer, text)?;
    }
    writer.end_array()?;
    Ok(())
}

fn put_text(writer: &mut Writer, text: &Hashed<'_, '_>) -> Result<(), AllocError>
    ensures tokens { OnOk result (writer.new.tokens
        ≡ writer.old.tokens ++ json_tokens (hashed_json (hashed text.now))) }
    ensures before { OnOk result (writer.new.before ≡ writer.old.before) }
{
    writer.begin_object()?;
    writer.key("sha256")?;
    writer.string(&text.hash)?;
    writer.key("name")?;
    writer.string(text.name)?;
    writer.key("packages")?;
    put_holders(writer, text.packages)?;
    writer.key("text")?;
    writer.string(text.words)?;
    writer.end_object()?;
    Ok(())
}

// The packages below a text.
fn put_holders(writer: &mut Writer, packages: &[Release<'_>]) -> Result<(), AllocError>
    ensures tokens { OnOk result (writer.new.tokens ≡ writer.old.tokens
        ++ json_tokens (array (items_of (map holder_json (map line_of packages.now))))) }
    ensures before { OnOk result (writer.new.before ≡ writer.old.before) }
{
    writer.begin_array()?;
    for release in packages {
        put_holder(writer, release)?;
    }
    writer.end_array()?;
    Ok(())
}

fn put_holder(writer: &mut Writer, release: &Release<'_>) -> Result<(), AllocError>
    ensures tokens { OnOk result (writer.new.tokens
        ≡ writer.old.tokens ++ json_tokens (holder_json (line_of release.now))) }
    ensures before { OnOk result (writer.new.before ≡ writer.old.before) }
{
    writer.begin_object()?;
    put_release(writer, release)?;
    writer.end_object()?;
    Ok(())
}
