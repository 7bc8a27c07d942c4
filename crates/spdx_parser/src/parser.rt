// The parser of a text.

ghost use Rattle.std.specs.Prelude.{◌≡◌, List, All, Ok, map, IfOk, IfErr, OnOk};
ghost use Rattle.spdx_requirement.specs.declared.failure.Failure.TheVariants.{Refused};
ghost use Rattle.spdx_requirement.specs.Failures.{IfRefused};
ghost use Rattle.spdx_lexer.specs.Layout.{IsPlace};
ghost use Rattle.spdx_lexer.specs.Reading.{reading};
ghost use Rattle.spdx_lexer.specs.Words.{Placed, words};
ghost use Rattle.spdx_parser.specs.Heard.{HearsAll};
ghost use Rattle.spdx_parser.specs.Meaning.{IsParsed, IsRefused};
ghost use Rattle.spdx_parser.specs.Nodes.{placed_node};
ghost use Rattle.spdx_parser.specs.Spans.{requirement_spans};
ghost use Rattle.spdx_parser.specs.State.{start};
ghost use Rattle.spdx_parser.specs.declared.node.ExprNode.{ExprNode};

use crate::frames::{Frame, Frames};
use crate::last::{Last, is_closing, listed, reason, terms};
use crate::listener::{Deaf, Listener};
use crate::name::Name;
use crate::node::NodeList;
use crate::unclosed::last_open;
use smallvec::SmallVec;
use spdx_catalogue::{Catalogue, Failure};
use spdx_lexer::error::{ParseError, Reason};
use spdx_lexer::lexer::Lexer;
use spdx_lexer::token::{LexerToken, ParseMode};
use std::alloc::Global;
use std::marker::Model;
use std::ops::Range;

/// The nodes so far, the frames in which the open parentheses stand, the innermost frame, what was
/// read last, the licence that is no requirement yet, and where the last licence stands.
#[derive(Drop)]
pub(crate) struct Parser<'c, 't> {
    pub alloc: Global,
    pub nodes: NodeList<'c>,
    pub opened: Frames,
    pub frame: Frame,
    pub last: Last<'c>,
    pub license: Option<Name<'c, 't>>,
    pub place: Range<usize>,
}

impl<'c, 't> Model for Parser<'c, 't> {
    ghost use Rattle.spdx_parser.specs.State.{State};

    ghost Value = { State };

    ghost use Rattle.spdx_parser.specs.ParserModel.{state_of};

    ghost view = { state_of };
}

impl<'c, 't> Parser<'c, 't> {
    // Takes the tokens of a text, which have to be an expression, and all of it.
    fn read_text<L: Listener>(
        &mut self,
        catalogue: &'c Catalogue,
        text: &'t str,
        mode: ParseMode,
        listener: &mut L,
    ) -> Result<(), Failure<ParseError<'t>>>
        requires { self.old ≡ start }
        ensures ok { OnOk result ((nodes : List ExprNode) → map placed_node nodes ≡ self.new.nodes
            → IsParsed catalogue.now mode text.now nodes) }
        ensures err { IfErr result (IfRefused (λ error.
            IsRefused catalogue.now mode text.now error)) }
        ensures spans { OnOk result ((nodes : List ExprNode) →
            map placed_node nodes ≡ self.new.nodes
            → All (IsPlace text.now) (requirement_spans nodes)) }
        ensures heard { OnOk result ((read : List Placed) →
            reading catalogue.now mode 0 text.now ≡ map Ok read
            → HearsAll L.Hears listener.old (words read) listener.new) }
    {
        catalogue.is_well_formed();
        let end = text.len();
        let mut is_empty = true;
        let mut lexer = Lexer::new_mode(catalogue, text, mode);
        for item in lexer.by_ref() {
            let LexerToken { token, span } = match item {
                Ok(found) => found,
                Err(error) => return Err(refusal(text, error.span, error.reason)),
            };
            let last = self.last;
            let none_open = self.opened.is_empty();
            if !self.read(catalogue, mode, token, span.start..span.end)? {
                return Err(refusal(text, span, reason(mode, last, none_open, token)));
            }
            listener.hear(self.alloc, listed(last), Some(token))?;
            is_empty = false;
        }
        if is_empty {
            return Err(refusal(text, 0..end, Reason::Empty));
        }
        if !is_closing(self.last) {
            return Err(refusal(text, end..end, Reason::Unexpected(terms(self.last))));
        }
        if !self.opened.is_empty() {
            let place = last_open(catalogue, text, mode, self.opened.count());
            return Err(refusal(text, place, Reason::UnclosedParens));
        }
        listener.hear(self.alloc, listed(self.last), None)?;
        self.finish()?;
        Ok(())
    }
}

fn refusal(text: &str, span: Range<usize>, reason: Reason) -> Failure<ParseError<'_>>
    ensures { result ≡ Refused (record { original = text.entry; span = span; reason = reason }) }
{
    Failure::Refused(ParseError {
        original: text,
        span,
        reason,
    })
}

/// The nodes of the expression that a text means, in postfix order: left operand, right operand,
/// operator. `AND` binds tighter than `OR`, and chains of one operator lean right. The grammar is
/// that of SPDX 2.1 (`docs/EXPRESSIONS.md`), with what the mode allows beyond it.
///
/// The text is read once, up to its end or its first fault, in time linear in the number of its
/// tokens besides their look-up. Where a parenthesis is left open, it is read once more, to find
/// that one: no places are kept, and a `(` directly behind another takes no memory.
///
/// # Errors
///
/// `Refused` with the fault of the first place where no expression goes on: a token, a place that
/// is no token, or the end. `Memory` where memory was refused.
pub fn parse_nodes<'c, 't>(
    alloc: Global,
    catalogue: &'c Catalogue,
    text: &'t str,
    mode: ParseMode,
) -> Result<NodeList<'c>, Failure<ParseError<'t>>>
    ensures ok { IfOk result (λ nodes. IsParsed catalogue.now mode text.now nodes.items) }
    ensures err { IfErr result (IfRefused (λ error. IsRefused catalogue.now mode text.now error)) }
    ensures spans { IfOk result (λ nodes. All (IsPlace text.now) (requirement_spans nodes.items)) }
{
    parse_heard(alloc, catalogue, text, mode, &mut Deaf)
}

/// The nodes of [`parse_nodes`], where the listener hears each token of the expression as it is
/// taken, and then the end.
///
/// # Errors
///
/// Those of [`parse_nodes`], and the listener's want of memory; it may have heard some tokens.
pub fn parse_heard<'c, 't, L: Listener>(
    alloc: Global,
    catalogue: &'c Catalogue,
    text: &'t str,
    mode: ParseMode,
    listener: &mut L,
) -> Result<NodeList<'c>, Failure<ParseError<'t>>>
    ensures ok { IfOk result (λ nodes. IsParsed catalogue.now mode text.now nodes.items) }
    ensures err { IfErr result (IfRefused (λ error. IsRefused catalogue.now mode text.now error)) }
    ensures spans { IfOk result (λ nodes. All (IsPlace text.now) (requirement_spans nodes.items)) }
    ensures heard { OnOk result ((read : List Placed) →
        reading catalogue.now mode 0 text.now ≡ map Ok read
        → HearsAll L.Hears listener.old (words read) listener.new) }
{
    let mut parser = Parser {
        alloc,
        nodes: SmallVec::new(alloc),
        opened: Frames::new(alloc),
        frame: Frame { ors: 0, ands: 0 },
        last: Last::Due,
        license: None,
        place: 0..0,
    };
    parser.read_text(catalogue, text, mode, listener)?;
    Ok(parser.nodes)
}
