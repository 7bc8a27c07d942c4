// The command `notice`.

ghost use Rattle.std.specs.Prelude.{◌≡◌};
ghost use Rattle.spdx_program.specs.Asked as spec;
ghost use Rattle.spdx_program.specs.Asked.{IsAskedOf};
ghost use Rattle.spdx_program.specs.Ends as ends;
ghost use Rattle.spdx_program.specs.Ends.{world};
ghost use Rattle.spdx_program.specs.Requests.{DoesNotice};

use crate::ended::Ended;
use crate::packages::wanted;
use crate::readings::{mode_of, paths_or_input};
use check_program::Inside;
use choice_program::Accepted;
use line_engine::device::Sink;
use notice_forms::Format;
use notice_program::Request;
use owed_texts::{Folders, OwnTexts as Own};
use package_commands::NoticeEnd;
use shelves::Shelf;
use spdx_commands::Listener;
use spdx_troubles::Trouble;
use spdx_words::{Accepted as Words, NoticeRequest, OwnTexts, PageFormat};
use std::alloc::Global;

/// Writes the page that the request asks for, as [`package_commands::notice`] does.
#[tactic(auto, using(crate::proofs::Ending::notice_done))]
pub(crate) fn notice<S: Shelf, O: Sink, T: Listener>(
    alloc: Global,
    shelf: &S,
    inside: Inside<'_>,
    request: &NoticeRequest<'_>,
    output: &mut O,
    teller: &mut T,
) -> Result<Ended, Trouble>
    ensures { DoesNotice (world (S.told shelf.now) inside.entry) request.now
        (O.told output.old) (O.told output.new) (T.heard teller.old) (T.heard teller.new)
        result }
{
    let asked = asked(request);
    let Inside {
        list,
        replacements,
        ..
    } = inside;
    ended(package_commands::notice(alloc, shelf, list, replacements, asked, output, teller))
}

fn asked<'r>(request: &'r NoticeRequest<'r>) -> Request<'r>
    ensures { IsAskedOf request.now.paths.items (spec.notice_of request.now) result }
{
    Request {
        list: request.list,
        wanted: wanted(request.source, true, request.exclude_own),
        paths: paths_or_input(&request.paths),
        accepted: accepted(request.accepted),
        one_for_all: request.one_for_all,
        folders: Folders {
            texts: request.texts,
            own: own(request.own),
            follow: request.follow,
        },
        plain: request.plain,
        format: format_of(request.format),
        is_strict: request.is_strict,
    }
}

// What may be chosen.
fn accepted(words: Words<'_>) -> Accepted<'_>
    ensures { result ≡ spec.accepted_by words.entry }
{
    match words {
        Words::List(list, is_lax) => Accepted::List {
            list,
            mode: mode_of(is_lax),
        },
        Words::Policy(path) => Accepted::Policy(path),
    }
}

fn own(words: OwnTexts<'_>) -> Own<'_>
    ensures { result ≡ spec.own_by words.entry }
{
    match words {
        OwnTexts::Left => Own::Left,
        OwnTexts::Below(sources) => Own::Below(sources),
        OwnTexts::Installed => Own::Installed,
    }
}

fn format_of(format: PageFormat) -> Format
    ensures { result ≡ spec.page_by format }
{
    match format {
        PageFormat::Text => Format::Text,
        PageFormat::Markdown => Format::Markdown,
        PageFormat::Html => Format::Html,
        PageFormat::Json => Format::Json,
    }
}

fn ended(end: Result<NoticeEnd, Trouble>) -> Result<Ended, Trouble>
    ensures { result ≡ ends.noticed_end end }
{
    match end {
        Ok(noticed) => {
            let NoticeEnd { status, totals } = noticed;
            Ok(Ended { status, totals })
        }
        Err(trouble) => Err(trouble),
    }
}
