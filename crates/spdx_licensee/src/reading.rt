//! The words of a licensee, one after another.

ghost use Rattle.std.specs.Prelude.{◌≡◌, ◌∷◌, [], IfOk, IsOk, Some, None, Ok, Err, false, true, length, option_map, codes};
ghost use Rattle.std.specs.List.{list_any};
ghost use Rattle.spdx_requirement.specs.Items.{license_of, addition_of, requirement_of};
ghost use Rattle.spdx_lexer.specs.Words.{Unexpected};
ghost use Rattle.spdx_lexer.specs.Faults.{fault_of};
ghost use Rattle.spdx_lexer.specs.Remainder.{items_left};
ghost use Rattle.spdx_lexer.specs.Code.{word_of, item_of, span_of};
ghost use Rattle.spdx_licensee.specs.LicenseeText.{license_named, addition_named, is_reference, item_is_reference, licensee_word_fault};
ghost use Rattle.spdx_requirement.specs.Failures.{IfRefused};
ghost use Rattle.spdx_licensee.specs.Answers.{TellsAFault, Gives, license_at, with_at, addition_at, end_at, starts_reference, licensee_at};

use spdx_catalogue::{AdditionItem, LicenseItem, LicenseReq};
use spdx_lexer::{Failure, Lexer, LexerToken, ParseError, Reason, Token};
use std::alloc::{AllocError, Global};
use std::ops::Range;

// What a lexer gives: a token, a fault, or nothing at the end.
type Item<'c, 't> = Option<Result<LexerToken<'c, 't>, ParseError<'t>>>;

// The refusal of the text for the reason, which stands at the span.
fn refused<'t>(text: &'t str, span: Range<usize>, reason: Reason) -> Failure<ParseError<'t>>
    ensures fault { IfRefused (λ e.
        (fault_of e.reason ≡ fault_of reason) × (span_of e.span ≡ span_of span)
        × (e.original.now ≡ text.now)) result }
    ensures refusal { TellsAFault result }
{
    Failure::Refused(ParseError {
        original: text,
        span,
        reason,
    })
}

// The licence that a token names: a listed one that is not deprecated, or a reference.
fn license_named<'c>(
    alloc: Global,
    token: Token<'c, '_>,
) -> Result<Option<LicenseItem<'c>>, AllocError>
    ensures named { IfOk result (λ item.
        option_map license_of item ≡ license_named (word_of token.entry)) }
    ensures memory { is_reference (word_of token.entry) ≡ false → IsOk result }
{
    match token {
        Token::Spdx(id) => {
            if id.is_deprecated() {
                return Ok(None);
            }
            Ok(Some(LicenseItem::Spdx {
                id,
                or_later: false,
            }))
        }
        Token::LicenseRef { doc_ref, lic_ref } => {
            Ok(Some(LicenseItem::referred(alloc, doc_ref, lic_ref)?))
        }
        _ => Ok(None),
    }
}

// The addition that a token names: an exception, deprecated or not, or a reference.
fn addition_named<'c>(
    alloc: Global,
    token: Token<'c, '_>,
) -> Result<Option<AdditionItem<'c>>, AllocError>
    ensures named { IfOk result (λ item.
        option_map addition_of item ≡ addition_named (word_of token.entry)) }
    ensures memory { is_reference (word_of token.entry) ≡ false → IsOk result }
{
    match token {
        Token::Exception(id) => Ok(Some(AdditionItem::Spdx(id))),
        Token::AdditionRef { doc_ref, add_ref } => {
            Ok(Some(AdditionItem::referred(alloc, doc_ref, add_ref)?))
        }
        _ => Ok(None),
    }
}

// Why a token is no licence.
fn license_fault(token: Token<'_, '_>) -> Reason
    ensures { fault_of result ≡ licensee_word_fault [] (word_of token.entry) }
{
    match token {
        Token::Spdx(_) => Reason::DeprecatedLicenseId,
        _ => Reason::Unexpected(&["<license>"]),
    }
}

// The licence that the item names.
fn read_license<'c, 't>(
    alloc: Global,
    text: &'t str,
    item: Item<'c, 't>,
) -> Result<LicenseItem<'c>, Failure<ParseError<'t>>>
    ensures { Gives license_of text.now (starts_reference (option_map item_of item.entry))
        (license_at (length text.now) (option_map item_of item.entry)) result }
{
    match item {
        None => Err(refused(text, 0..text.len(), Reason::Empty)),
        Some(Err(fault)) => Err(refused(text, fault.span, fault.reason)),
        Some(Ok(LexerToken { token, span })) => match license_named(alloc, token)? {
            Some(license) => Ok(license),
            None => Err(refused(text, span, license_fault(token))),
        },
    }
}

// Refuses an item that is not WITH.
fn read_with<'c, 't>(
    text: &'t str,
    item: Result<LexerToken<'c, 't>, ParseError<'t>>,
) -> Result<(), Failure<ParseError<'t>>>
    ensures { Gives (λ _. tt) text.now false (with_at (item_of item.entry)) result }
{
    match item {
        Err(fault) => Err(refused(text, fault.span, fault.reason)),
        Ok(
            LexerToken {
                token: Token::With,
                ..
            },
        ) => Ok(()),
        Ok(LexerToken { span, .. }) => Err(refused(text, span, Reason::Unexpected(&["WITH"]))),
    }
}

// The addition that the item names.
fn read_addition<'c, 't>(
    alloc: Global,
    text: &'t str,
    item: Item<'c, 't>,
) -> Result<AdditionItem<'c>, Failure<ParseError<'t>>>
    ensures { Gives addition_of text.now (starts_reference (option_map item_of item.entry))
        (addition_at (length text.now) (option_map item_of item.entry)) result }
{
    let expected = Reason::Unexpected(&["<addition>"]);
    match item {
        None => Err(refused(text, text.len()..text.len(), expected)),
        Some(Err(fault)) => Err(refused(text, fault.span, fault.reason)),
        Some(Ok(LexerToken { token, span })) => match addition_named(alloc, token)? {
            Some(addition) => Ok(addition),
            None => Err(refused(text, span, expected)),
        },
    }
}

// Refuses an item behind an addition.
fn read_end<'c, 't>(text: &'t str, item: Item<'c, 't>) -> Result<(), Failure<ParseError<'t>>>
    ensures { Gives (λ _. tt) text.now false (end_at (option_map item_of item.entry)) result }
{
    match item {
        None => Ok(()),
        Some(Err(fault)) => Err(refused(text, fault.span, fault.reason)),
        Some(Ok(token)) => Err(refused(text, token.span, Reason::Unexpected(&[]))),
    }
}

/// The requirement, without a mark, that the items of the text name: a licence, or a licence, WITH
/// and an addition.
pub(crate) fn read_requirement<'c, 't>(
    alloc: Global,
    text: &'t str,
    lexer: &mut Lexer<'c, 't>,
) -> Result<LicenseReq<'c>, Failure<ParseError<'t>>>
    ensures { Gives requirement_of text.now (list_any item_is_reference (items_left lexer.old))
        (licensee_at (length text.now) (items_left lexer.old)) result }
{
    let license = read_license(alloc, text, lexer.next())?;
    let Some(behind) = lexer.next() else {
        return Ok(LicenseReq {
            license,
            addition: None,
        });
    };
    read_with(text, behind)?;
    let addition = read_addition(alloc, text, lexer.next())?;
    read_end(text, lexer.next())?;
    Ok(LicenseReq {
        license,
        addition: Some(addition),
    })
}
