// What a token makes of the parser. Each step says whether the token may stand where it does.

ghost use Rattle.std.specs.Prelude.{◌≡◌, ◌+◌, ◌^◌, ◌<◌, length, option_map, None, IfOk, OnOk};
ghost use Rattle.spdx_requirement.specs.Ids.{id_row};
ghost use Rattle.spdx_requirement.specs.Items.{addition_of};
ghost use Rattle.spdx_lexer.specs.Code.{word_of, span_of};
ghost use Rattle.spdx_parser.specs.Code.{IsLicenseRow, IsKnown, last_in, name_license};
ghost use Rattle.spdx_parser.specs.Kept.{kept_place};
ghost use Rattle.spdx_parser.specs.State as states;
ghost use Rattle.spdx_parser.specs.State.{if_taken, all_joined};

use crate::frames::Frame;
use crate::last::{Last, may_stand};
use crate::name::{Name, addition_item, license_item, marked};
use crate::node::{ExprNode, ExpressionReq, Operator};
use crate::nodes::{make_room, put, put_operators};
use crate::parser::Parser;
use spdx_catalogue::{AdditionItem, Catalogue, LicenseId, LicenseItem, LicenseReq};
use spdx_lexer::token::{ParseMode, Token};
use std::alloc::AllocError;
use std::ops::Range;

impl<'c, 't> Parser<'c, 't> {
    // The licence becomes a requirement, with this addition.
    fn require(&mut self, addition: Option<AdditionItem<'c>>) -> Result<(), AllocError>
        ensures { OnOk result (self.new
            ≡ states.require self.old (option_map addition_of addition.entry)) }
    {
        if let Some(name) = self.license {
            let license = license_item(self.alloc, name)?;
            let req = LicenseReq { license, addition };
            let span = self.place.start..self.place.end;
            put(&mut self.nodes, ExprNode::Req(ExpressionReq { req, span }))?;
        }
        self.license = None;
        self.last = Last::Added;
        Ok(())
    }

    // The licence becomes a requirement without an addition; a listed one is written in place.
    #[inline(always)]
    fn require_bare(&mut self) -> Result<(), AllocError>
        ensures { OnOk result (self.new ≡ states.require self.old None) }
    {
        let Some(Name::Listed { id, or_later }) = self.license else {
            return self.require(None);
        };
        let license = LicenseItem::Spdx { id, or_later };
        let req = LicenseReq {
            license,
            addition: None,
        };
        let span = self.place.start..self.place.end;
        put(&mut self.nodes, ExprNode::Req(ExpressionReq { req, span }))?;
        self.license = None;
        self.last = Last::Added;
        Ok(())
    }

    // The operators that wait, those of AND first.
    fn join_all(&mut self) -> Result<(), AllocError>
        ensures { OnOk result (self.new ≡ record self.old { nodes = all_joined self.old }) }
    {
        put_operators(&mut self.nodes, Operator::And, self.frame.ands)?;
        put_operators(&mut self.nodes, Operator::Or, self.frame.ors)
    }

    // Behind a requirement or `)`.
    fn operate(&mut self, token: Token<'_, '_>) -> Result<bool, AllocError>
        requires { self.old.frame.ors + self.old.frame.ands + 1 < 2 ^ 64 }
        ensures { IfOk result (λ taken.
            states.operate self.old (word_of token.entry) ≡ if_taken taken self.new) }
    {
        match token {
            Token::And => {
                self.frame.ands += 1;
                self.last = Last::Due;
            }
            Token::Or => {
                put_operators(&mut self.nodes, Operator::And, self.frame.ands)?;
                self.frame = Frame {
                    ors: self.frame.ors + 1,
                    ands: 0,
                };
                self.last = Last::Due;
            }
            Token::CloseParen => {
                let Some(around) = self.opened.pop() else {
                    return Ok(false);
                };
                self.join_all()?;
                self.frame = around;
                self.last = Last::Closed;
            }
            _ => return Ok(false),
        }
        Ok(true)
    }

    // An operator was read, so that one inline place won't do: the first node needn't move later.
    fn expect_more(&mut self) -> Result<(), AllocError>
        ensures { OnOk result (self.new ≡ self.old) }
    {
        if self.nodes.is_empty() {
            make_room(&mut self.nodes)?;
        }
        Ok(())
    }

    // Behind a licence.
    fn after_license(&mut self, token: Token<'_, '_>) -> Result<bool, AllocError>
        requires { self.old.frame.ors + self.old.frame.ands + 1 < 2 ^ 64 }
        ensures { IfOk result (λ taken.
            states.after_license self.old (word_of token.entry) ≡ if_taken taken self.new) }
    {
        match token {
            Token::With => {
                self.last = Last::Joined;
                Ok(true)
            }
            Token::And | Token::Or => {
                self.expect_more()?;
                self.require_bare()?;
                self.operate(token)
            }
            Token::CloseParen => {
                self.require(None)?;
                self.operate(token)
            }
            _ => Ok(false),
        }
    }

    // A licence was read.
    fn name_as(&mut self, last: Last<'c>, name: Name<'c, 't>, place: Range<usize>)
        ensures { self.new ≡ states.name_as self.old (last_in last.entry)
            (name_license name.entry) (span_of place) }
    {
        self.last = last;
        self.license = Some(name);
        self.place = place;
    }

    // Where a licence or `(` is due.
    fn read_due(
        &mut self,
        mode: ParseMode,
        token: Token<'c, 't>,
        span: Range<usize>,
    ) -> Result<bool, AllocError>
        requires { length self.old.opened + 1 < 2 ^ 64 }
        ensures { IfOk result (λ taken.
            states.read_due mode self.old (word_of token.entry)
            (kept_place (word_of token.entry) (span_of span)) ≡ if_taken taken self.new) }
    {
        match token {
            Token::Spdx(id) => {
                if !may_stand(mode, id) {
                    return Ok(false);
                }
                let or_later = false;
                self.name_as(Last::Listed(id), Name::Listed { id, or_later }, span);
            }
            Token::LicenseRef { doc_ref, lic_ref } => {
                self.name_as(Last::Named, Name::Reference { doc_ref, lic_ref }, span);
            }
            Token::Unknown(text) => self.name_as(Last::Unlisted, Name::Unknown(text), span),
            Token::OpenParen => {
                self.opened.push(self.frame)?;
                self.frame = Frame { ors: 0, ands: 0 };
                self.last = Last::Due;
            }
            _ => return Ok(false),
        }
        Ok(true)
    }

    // Behind a listed licence.
    fn read_listed(
        &mut self,
        catalogue: &'c Catalogue,
        mode: ParseMode,
        id: LicenseId<'c>,
        token: Token<'c, 't>,
    ) -> Result<bool, AllocError>
        requires room { self.old.frame.ors + self.old.frame.ands + 1 < 2 ^ 64 }
        requires known { IsLicenseRow catalogue.now (id_row id) }
        ensures { IfOk result (λ taken. states.read_listed catalogue.now mode (id_row id.entry)
            self.old (word_of token.entry) ≡ if_taken taken self.new) }
    {
        match token {
            Token::Plus => match marked(catalogue, mode, id) {
                Some(name) => {
                    self.last = Last::Named;
                    self.license = Some(name);
                    Ok(true)
                }
                None => Ok(false),
            },
            _ => self.after_license(token),
        }
    }

    // Behind WITH.
    fn read_joined(&mut self, token: Token<'c, 't>) -> Result<bool, AllocError>
        ensures { IfOk result (λ taken.
            states.read_joined self.old (word_of token.entry) ≡ if_taken taken self.new) }
    {
        let addition = match token {
            Token::Exception(id) => AdditionItem::Spdx(id),
            Token::AdditionRef { doc_ref, add_ref } => {
                addition_item(self.alloc, doc_ref, add_ref)?
            }
            Token::Unknown(text) => addition_item(self.alloc, None, text)?,
            _ => return Ok(false),
        };
        self.require(Some(addition))?;
        Ok(true)
    }

    /// Takes a token, or says that it cannot stand here.
    pub(crate) fn read(
        &mut self,
        catalogue: &'c Catalogue,
        mode: ParseMode,
        token: Token<'c, 't>,
        span: Range<usize>,
    ) -> Result<bool, AllocError>
        requires room { self.old.frame.ors + self.old.frame.ands + 1 < 2 ^ 64 }
        requires depth { length self.old.opened + 1 < 2 ^ 64 }
        requires known { IsKnown catalogue.now self.old.last }
        ensures { IfOk result (λ taken. states.step catalogue.now mode self.old
            (word_of token.entry, kept_place (word_of token.entry) (span_of span))
            ≡ if_taken taken self.new) }
    {
        match self.last {
            Last::Due => self.read_due(mode, token, span),
            Last::Listed(id) => self.read_listed(catalogue, mode, id, token),
            Last::Unlisted | Last::Named => self.after_license(token),
            Last::Joined => self.read_joined(token),
            Last::Added | Last::Closed => self.operate(token),
        }
    }

    /// Writes what waits, where an expression may end.
    pub(crate) fn finish(&mut self) -> Result<(), AllocError>
        ensures { OnOk result (self.new.nodes ≡ all_joined (states.require self.old None)) }
    {
        self.require_bare()?;
        self.join_all()
    }
}
