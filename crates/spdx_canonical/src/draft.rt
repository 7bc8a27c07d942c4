// A text that is written beside another one, and kept only where the two differ.

ghost use Rattle.std.specs.Prelude.{◌≡◌, ◌++◌, ◌-◌, [], ◌∷◌, length, take, drop, false, bytes_eq, IfOk, IfErr, option_map, string_bytes};
ghost use Rattle.spdx_canonical.specs.Draft.{extended, IsOff, difference};

use std::alloc::{AllocError, Global};
use std::marker::Model;

// What stands before the rest of a text.
fn front<'t>(text: &'t str, rest: &str) -> &'t str
    requires { rest.now ≡ drop (length text.now - length rest.now) text.now }
    ensures { result.now ≡ take (length text.now - length rest.now) text.now }
{
    &text[..text.len() - rest.len()]
}

// A text of two parts, with room for so many bytes.
fn joined(alloc: Global, room: usize, front: &str, piece: &str) -> Result<String, AllocError>
    ensures { IfOk result (λ text. string_bytes text ≡ front.now ++ piece.now) }
{
    let mut text = String::with_capacity(alloc, room)?;
    text.push_str(front)?;
    text.push_str(piece)?;
    Ok(text)
}

// The bytes that were written, beside the text that they may turn out to be.
#[derive(Drop)]
pub(crate) struct Draft<'t> {
    text: &'t str,
    // what is left of the text behind them, while it begins with them
    rest: &'t str,
    // the bytes themselves, once it does not
    written: Option<String>,
}

impl<'t> Model for Draft<'t> {
    ghost use Rattle.spdx_canonical.specs.Draft.{Drafted};

    ghost Value = { Drafted };

    ghost use Rattle.spdx_canonical.specs.DraftModel.{draft_shown, IsDraft};

    ghost view = { draft_shown };

    ghost invariant = { IsDraft };
}

impl<'t> Draft<'t> {
    // Nothing yet, beside the text.
    pub(crate) fn new(text: &'t str) -> Self
        ensures { result ≡ record { text = text.now; bytes = [] } }
    {
        Draft {
            text,
            rest: text,
            written: None,
        }
    }

    // Writes the piece. Takes no memory while the text begins with all that was written.
    pub(crate) fn push(&mut self, alloc: Global, piece: &str) -> Result<(), AllocError>
        ensures ok { IfOk result (λ _. self.new ≡ extended self.old piece.now) }
        ensures err { IfErr result (λ _. IsOff self.old piece.now) }
    {
        if let Some(written) = &mut self.written {
            return written.push_str(piece);
        }
        match self.rest.strip_prefix(piece) {
            None => {
                let front = front(self.text, self.rest);
                self.written = Some(joined(alloc, self.text.len(), front, piece)?);
            }
            Some(rest) => self.rest = rest,
        }
        Ok(())
    }

    // What was written, unless it is the text.
    pub(crate) fn finish(self, alloc: Global) -> Result<Option<String>, AllocError>
        ensures ok { IfOk result (λ answer.
            option_map string_bytes answer ≡ difference self.entry) }
        ensures err { IfErr result (λ _. bytes_eq self.entry.bytes self.entry.text ≡ false) }
    {
        let Draft {
            text,
            rest,
            written,
        } = self;
        match written {
            Some(written) => Ok(Some(written)),
            None if rest.is_empty() => Ok(None),
            None => Ok(Some(String::from_str(alloc, front(text, rest))?)),
        }
    }
}
