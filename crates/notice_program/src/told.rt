// What is told of a page.

ghost use Rattle.std.specs.Prelude.{◌≡◌, IfOk, map, option_map, string_bytes};
ghost use Rattle.notice_told.specs.Lacks.{seen_lack};
ghost use Rattle.notice_told.specs.Totals.{totals_line};
ghost use Rattle.notice_program.specs.Told as spec;
ghost use Rattle.notice_program.specs.Told.{IsTold, lacking_of, missing_by};

use crate::end::{Missing, Request, ToldPage};
use crate::page::has_own;
use notice_told::{Lack, NoticeText, totals_line};
use std::alloc::{AllocError, Global};

/// What is told where this is the page, and this isn't on it.
pub(crate) fn told(
    alloc: Global,
    request: Request<'_>,
    text: NoticeText<'_>,
) -> Result<ToldPage, AllocError>
    ensures { IfOk result (IsTold request.entry text.entry) }
{
    if has_own(request.folders.own) {
        told_own(alloc, request.is_strict, text)
    } else {
        Ok(ToldPage {
            page: Some(text.bytes),
            missing: Vec::new(alloc),
            totals: None,
        })
    }
}

// The same where packages have texts of their own.
fn told_own(alloc: Global, is_strict: bool, text: NoticeText<'_>) -> Result<ToldPage, AllocError>
    ensures { IfOk result (spec.IsToldOwn is_strict text.entry) }
{
    let NoticeText {
        bytes,
        missing,
        totals,
    } = text;
    let told = all_missing(alloc, &missing)?;
    let line = totals_line(alloc, &totals)?;
    Ok(ToldPage {
        page: unless_missing(is_strict, &missing, bytes),
        missing: told,
        totals: Some(line),
    })
}

// The page, unless a text is missing that has to be there.
fn unless_missing(is_strict: bool, missing: &[Lack<'_>], bytes: Vec<u8>) -> Option<Vec<u8>>
    ensures { result ≡ spec.unless_missing is_strict missing.now bytes }
{
    if is_strict && !missing.is_empty() {
        None
    } else {
        Some(bytes)
    }
}

fn all_missing(alloc: Global, lacks: &[Lack<'_>]) -> Result<Vec<Missing>, AllocError>
    ensures { IfOk result (λ all. map missing_by all.items
        ≡ map lacking_of (map seen_lack lacks.now)) }
{
    let mut all = Vec::new(alloc);
    for lack in lacks {
        all.push(missing_for(alloc, lack)?)?;
    }
    Ok(all)
}

fn missing_for(alloc: Global, lack: &Lack<'_>) -> Result<Missing, AllocError>
    ensures { IfOk result (λ one. missing_by one ≡ lacking_of (seen_lack lack.now)) }
{
    Ok(Missing {
        package: package_name(alloc, lack.release.name, lack.release.version)?,
        text: String::from_str(alloc, lack.text)?,
    })
}

fn package_name(alloc: Global, name: &str, version: &str) -> Result<String, AllocError>
    ensures { IfOk result (λ told. string_bytes told ≡ spec.package_name name.now version.now) }
{
    if version.is_empty() {
        String::from_str(alloc, name)
    } else {
        format!(in alloc; "{name} {version}")
    }
}
