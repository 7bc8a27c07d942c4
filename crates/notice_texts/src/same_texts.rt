//! Texts of files of packages, each once with all files that have it: those that are the same but for white space count
//! as one, for many packages have the text of a licence word by word, in lines of their own.

ghost use Rattle.std.specs.Prelude.{◌≡◌, IfOk, map};
ghost use Rattle.notice_texts.specs.Words.{SameWords};
ghost use Rattle.notice_texts.specs.Shared.{own, shared_of, gathered, EachStands, NothingElse, AreApart};

use crate::keyed::{shared, with_keys};
use crate::texts::{OwnText, SharedText};
use std::alloc::{AllocError, Global};

/// The texts of these files, each once, as the first file has it, with all files whose text is the same but for white
/// space, that is, has the same words in the same order. White space is what ASCII has: blanks, tabs, and ends of lines
/// and of pages. Texts stand in the order of their first files, and so do the files beside a text.
///
/// Takes `n log n` comparisons of texts, for `n` files.
///
/// # Errors
///
/// Memory was refused.
pub fn shared_texts<'t>(
    alloc: Global,
    texts: &[OwnText<'t>],
) -> Result<Vec<SharedText<'t>>, AllocError>
    ensures exact { IfOk result (λ v. map shared_of v.items ≡ gathered (map own texts.now)) }
    // Each file's text is there, and the file stands beside it.
    ensures each { IfOk result (λ v. EachStands (map own texts.now) (map shared_of v.items)) }
    // No text is there that no file has, and no file beside a text that isn't its own.
    ensures nothing_else { IfOk result (λ v.
        NothingElse (map own texts.now) (map shared_of v.items)) }
    ensures apart { IfOk result (λ v. AreApart (map shared_of v.items)) }
    // Texts are the same exactly if they have the same words in the same order.
    ensures same { SameWords }
{
    let keyed = with_keys(alloc, texts)?;
    shared(alloc, &keyed)
}
