// The meaning text of a text.

ghost use Rattle.std.specs.Prelude.{IfOk, IfErr, string_bytes};
ghost use Rattle.spdx_requirement.specs.Failures.{IfRefused};
ghost use Rattle.spdx_meaning.specs.Reading.{IsMeaningOf, IsMeaningless};

use crate::reading::{Unmeant, nodes_of};
use crate::text::meaning_text;
use spdx_catalogue::{Catalogue, Failure};
use spdx_lexer::ParseMode;
use std::alloc::Global;

/// What the text means, as [`crate::meaning_text`] writes it. Texts that strict reading takes have the same
/// meaning text exactly if they are equivalent.
///
/// # Errors
///
/// The text is no expression, too many sets are made of it, or memory was refused.
pub fn meaning_of<'t>(
    alloc: Global,
    catalogue: &Catalogue,
    mode: ParseMode,
    text: &'t str,
) -> Result<String, Failure<Unmeant<'t>>>
    ensures ok { IfOk result (λ meaning.
        IsMeaningOf catalogue.now mode text.now (string_bytes meaning)) }
    ensures err { IfErr result (IfRefused (IsMeaningless catalogue.now mode text.now)) }
{
    let nodes = nodes_of(alloc, catalogue, mode, text)?;
    match meaning_text(alloc, nodes.as_slice()) {
        Ok(meaning) => Ok(meaning),
        Err(Failure::Refused(many)) => Err(Failure::Refused(Unmeant::TooMany(many))),
        Err(Failure::Memory(error)) => Err(Failure::Memory(error)),
    }
}
