// The command `notice`.

ghost use Rattle.std.specs.Prelude.{◌≡◌, ◌<◌, [], IfErr, IfOk, OnOk, map};
ghost use Rattle.check_files.specs.Told.{Does, Hears, Writes};
ghost use Rattle.list_program.specs.Named.{inside_of};
ghost use Rattle.notice_program.specs.Run.{IsNoRun};
ghost use Rattle.notice_program.specs.declared.end.End.TheVariants as the_end;
ghost use Rattle.package_commands.specs.Notice as spec;
ghost use Rattle.package_commands.specs.Notice.{IsNotice, IsNoticeTold, IsPage, SaysNotice, missing_trouble};
ghost use Rattle.spdx_commands.specs.Said.{text_of, told_of};
ghost use Rattle.spdx_commands.specs.Stops.{IsStopped};
ghost use Rattle.spdx_troubles.specs.Causes.{notice_trouble};

use crate::gated::{tell_both, tell_left_out};
use crate::texts::{tell_no_folder, tell_not_utf8, tell_texts};
use crate::unchosen::tell_unchosen;
use line_engine::device::Sink;
use list_program::Inside;
use notice_program::{End, Missing, Request, Run, ToldPage};
use shelves::Shelf;
use spdx_commands::{Listener, Said, say};
use spdx_troubles::Trouble;
use std::alloc::{AllocError, Global};

// What is told of a link that is not followed, in the folder of a package, and in the one of general texts.
const OWN_LINK: &str = "a link out of the folder";

const GENERAL_LINK: &str = "a link out of the folder; --follow reads it";

/// How `notice` ended.
#[derive(Drop)]
pub struct NoticeEnd {
    pub status: u8,
    /// The line of totals, where packages have texts of their own and nothing else stands in the way of a page.
    pub totals: Option<String>,
}

/// Writes the page of the packages with their texts, tells which files are left out, how others were read, and which
/// texts are missing or why there is no page; and answers the status: 0 exactly if a page is written; 1 where some
/// package has no choice, or the page is held back for a text that is missing; else 2.
///
/// # Errors
///
/// The list isn't had: nothing is written. Or the output fails, or memory was refused: what was written and told is a beginning.
pub fn notice<S: Shelf, O: Sink, T: Listener>(
    alloc: Global,
    shelf: &S,
    inside: Inside<'_>,
    replacements: &[u8],
    request: Request<'_>,
    output: &mut O,
    listener: &mut T,
) -> Result<NoticeEnd, Trouble>
    ensures ok { IfOk result (λ noticed. Does (O.told output.old) (O.told output.new)
        (T.heard listener.old) (T.heard listener.new) (λ text told. IsNotice (S.told shelf.now)
        (inside_of inside.entry.list.now inside.entry.extras.now) replacements.now
        request.entry text told noticed)) }
    ensures err { IfErr result (IsStopped notice_trouble (IsNoRun (S.told shelf.now)
        (inside_of inside.entry.list.now inside.entry.extras.now) request.entry)
        (SaysNotice (S.told shelf.now) (inside_of inside.entry.list.now inside.entry.extras.now)
        replacements.now request.entry) (O.told output.old) (O.told output.new)
        (T.heard listener.old) (T.heard listener.new)) }
    ensures passes { IfOk result (λ noticed. noticed.status < 1 → Does (O.told output.old)
        (O.told output.new) (T.heard listener.old) (T.heard listener.new)
        (IsPage (S.told shelf.now) (inside_of inside.entry.list.now inside.entry.extras.now)
        replacements.now request.entry)) }
    ensures held { IfOk result (λ noticed. 0 < noticed.status → Writes (O.told output.old)
        (O.told output.new) (λ text. text ≡ [])) }
{
    let outcome = notice_program::notice(alloc, shelf, inside, replacements, request)?;
    let status = outcome.status();
    let both = notice_said(alloc, request, outcome)?;
    let (said, totals) = both;
    say(alloc, said, output, listener)?;
    Ok(NoticeEnd { status, totals })
}

// What is said of a run, and the line of totals, if there is one.
fn notice_said(
    alloc: Global,
    request: Request<'_>,
    outcome: Run,
) -> Result<(Said, Option<String>), AllocError>
    ensures { IfOk result (λ it. IsNoticeTold request.entry outcome (text_of it.0) (told_of it.0)
        it.1) }
{
    let Run {
        files,
        left_out,
        end,
    } = outcome;
    let mut before = Vec::new(alloc);
    tell_left_out(alloc, left_out, &mut before)?;
    tell_both(alloc, request.wanted.source, &files, &mut before)?;
    end_said(alloc, end, before)
}

// What is said of the end, behind what is told before: the page, and which texts are missing on it, or why there is none.
#[tactic(auto, using(crate::proofs::Noticing::left_out_end, crate::proofs::Noticing::no_choice_end, crate::proofs::Noticing::no_folder_end, crate::proofs::Noticing::not_utf8_end))]
fn end_said(
    alloc: Global,
    end: End,
    before: Vec<Trouble>,
) -> Result<(Said, Option<String>), AllocError>
    ensures { IfOk result (λ it. spec.IsEndSaid before.items end it.0 it.1) }
{
    let mut after = Vec::new(alloc);
    match end {
        End::LeftOut => Ok(no_page(alloc, before, after)),
        End::NoChoice(trouble) => {
            tell_unchosen(alloc, trouble, &mut after)?;
            Ok(no_page(alloc, before, after))
        }
        End::NoFolder(trouble) => {
            tell_no_folder(alloc, trouble, &mut after)?;
            Ok(no_page(alloc, before, after))
        }
        End::NoOwn(troubles) => {
            tell_texts(alloc, OWN_LINK, troubles, &mut after)?;
            Ok(no_page(alloc, before, after))
        }
        End::NoGeneral(troubles) => {
            tell_texts(alloc, GENERAL_LINK, troubles, &mut after)?;
            Ok(no_page(alloc, before, after))
        }
        End::NotUtf8(name) => {
            tell_not_utf8(alloc, name, &mut after)?;
            Ok(no_page(alloc, before, after))
        }
        End::Told(page) => page_said(alloc, page, before),
    }
}

fn no_page(alloc: Global, before: Vec<Trouble>, after: Vec<Trouble>) -> (Said, Option<String>)
    ensures { spec.IsNoPage before.items after.items result.0 result.1 }
{
    let text = Vec::new(alloc);
    (
        Said {
            before,
            text,
            after,
        },
        None,
    )
}

// The page, unless it is held back, and which texts are missing on it.
fn page_said(
    alloc: Global,
    told: ToldPage,
    before: Vec<Trouble>,
) -> Result<(Said, Option<String>), AllocError>
    ensures { IfOk result (λ it. spec.IsEndSaid before.items (the_end.Told told) it.0 it.1) }
{
    let ToldPage {
        page,
        missing,
        totals,
    } = told;
    let mut after = Vec::new(alloc);
    tell_missing(alloc, missing, &mut after)?;
    let text = page.unwrap_or(Vec::new(alloc));
    Ok((
        Said {
            before,
            text,
            after,
        },
        totals,
    ))
}

#[tactic(auto, using(crate::proofs::Hearing::none_heard, crate::proofs::Hearing::one_more_heard))]
fn tell_missing<T: Listener>(
    alloc: Global,
    missing: Vec<Missing>,
    listener: &mut T,
) -> Result<(), AllocError>
    ensures { OnOk result (Hears (T.heard listener.old) (T.heard listener.new)
        (map missing_trouble missing.items)) }
{
    for one in missing {
        let Missing { package, text } = one;
        listener.hear(alloc, Trouble::NoText(package, text))?;
    }
    Ok(())
}
