// The canonical text of a licence expression.

ghost use Rattle.std.specs.Prelude.{◌≡◌, ◌++◌, None, Ok, Err, IfOk, IfErr, option_map, is_some, string_bytes};
ghost use Rattle.spdx_requirement.specs.Ids.{id_row};
ghost use Rattle.spdx_requirement.specs.Endings as Endings;
ghost use Rattle.spdx_requirement.specs.Texts.{reference_text};
ghost use Rattle.spdx_lexer.specs.Faults.{fault_of};
ghost use Rattle.spdx_lexer.specs.Code.{word_of, document_of, span_of};
ghost use Rattle.spdx_lexer.specs.Layout.{IsPlace};
ghost use Rattle.spdx_canonical.specs.Canonical.{word_text, canonical_of, answer_to};
ghost use Rattle.spdx_canonical.specs.NextText.{is_misplaced, license_and_plus, is_plus_word, next_text, own_text, waiting};
ghost use Rattle.spdx_canonical.specs.Law.{CanonicalLaws};
ghost use Rattle.spdx_canonical.specs.Draft.{extended, IsOff};
ghost use Rattle.spdx_requirement.specs.Failures.{IfRefused};

use crate::draft::Draft;
use spdx_catalogue::{Catalogue, LicenseId};
use spdx_lexer::{Failure, Lexer, LexerToken, ParseError, ParseMode, Reason, Token};
use spdx_requirement::endings::has_suffix;
use std::alloc::{AllocError, Global};

// The name, a final `-only` taken off.
fn without_only(name: &str) -> &str
    ensures { result.now ≡ Endings.without_only name.now }
{
    if name.as_bytes().ends_with(b"-only") {
        &name[..name.len() - 5]
    } else {
        name
    }
}

// Writes a licence, which a `+` follows or not.
pub(crate) fn push_license(
    draft: &mut Draft<'_>,
    alloc: Global,
    id: LicenseId<'_>,
    plus: bool,
) -> Result<(), AllocError>
    ensures ok { IfOk result (λ _. draft.new
        ≡ extended draft.old (license_and_plus plus (id_row id.entry))) }
    ensures err { IfErr result (λ _. IsOff draft.old (license_and_plus plus (id_row id.entry))) }
{
    let name = id.license().name.as_str();
    if !id.is_gnu() {
        draft.push(alloc, name)?;
        return if plus { draft.push(alloc, "+") } else { Ok(()) };
    }
    if plus {
        return push_both(draft, alloc, without_only(name), "-or-later");
    }
    draft.push(alloc, name)?;
    if has_suffix(name.as_bytes()) {
        return Ok(());
    }
    draft.push(alloc, "-only")
}

// Writes two pieces.
fn push_both(
    draft: &mut Draft<'_>,
    alloc: Global,
    first: &str,
    second: &str,
) -> Result<(), AllocError>
    ensures ok { IfOk result (λ _. draft.new
        ≡ extended draft.old (first.now ++ second.now)) }
    ensures err { IfErr result (λ _. IsOff draft.old (first.now ++ second.now)) }
{
    draft.push(alloc, first)?;
    draft.push(alloc, second)
}

// Writes a reference.
fn push_reference(
    draft: &mut Draft<'_>,
    alloc: Global,
    document: Option<&str>,
    prefix: &str,
    name: &str,
) -> Result<(), AllocError>
    ensures ok { IfOk result (λ _. draft.new
        ≡ extended draft.old (reference_text prefix.now (document_of document.entry) name.now)) }
    ensures err { IfErr result (λ _.
        IsOff draft.old (reference_text prefix.now (document_of document.entry) name.now)) }
{
    match document {
        None => push_both(draft, alloc, prefix, name),
        Some(document) => {
            push_both(draft, alloc, "DocumentRef-", document)?;
            draft.push(alloc, ":")?;
            push_both(draft, alloc, prefix, name)
        }
    }
}

// Writes a token, but for a licence, which waits, and a `+`, which belongs to the licence before.
fn push_token(draft: &mut Draft<'_>, alloc: Global, token: Token<'_, '_>) -> Result<(), AllocError>
    ensures ok { IfOk result (λ _. draft.new
        ≡ extended draft.old (own_text (word_of token.entry))) }
    ensures err { IfErr result (λ _. IsOff draft.old (own_text (word_of token.entry))) }
{
    match token {
        Token::Spdx(_) | Token::Plus => Ok(()),
        Token::And => draft.push(alloc, " AND "),
        Token::Or => draft.push(alloc, " OR "),
        Token::With => draft.push(alloc, " WITH "),
        Token::OpenParen => draft.push(alloc, "("),
        Token::CloseParen => draft.push(alloc, ")"),
        Token::Exception(id) => draft.push(alloc, id.exception().name.as_str()),
        Token::LicenseRef { doc_ref, lic_ref } => {
            push_reference(draft, alloc, doc_ref, "LicenseRef-", lic_ref)
        }
        Token::AdditionRef { doc_ref, add_ref } => {
            push_reference(draft, alloc, doc_ref, "AdditionRef-", add_ref)
        }
        Token::Unknown(name) => draft.push(alloc, name),
    }
}

fn is_plus_word(token: &Token<'_, '_>) -> bool
    ensures { result ≡ is_plus_word (word_of token.now) }
{
    matches!(token, Token::Plus)
}

// Whether the token is a `+` that does not directly follow a listed licence.
fn is_misplaced(behind_license: bool, token: &Token<'_, '_>) -> bool
    ensures { result ≡ is_misplaced behind_license (word_of token.now) }
{
    matches!(token, Token::Plus) && !behind_license
}

// The licence that waits behind the token.
fn waiting<'c>(token: Token<'c, '_>) -> Option<LicenseId<'c>>
    ensures { option_map id_row result ≡ waiting (word_of token.entry) }
{
    match token {
        Token::Spdx(id) => Some(id),
        _ => None,
    }
}

// Writes what the next token decides: the licence that waits before it, and the token itself.
pub(crate) fn push_next(
    draft: &mut Draft<'_>,
    alloc: Global,
    before: Option<LicenseId<'_>>,
    token: Token<'_, '_>,
) -> Result<(), AllocError>
    ensures ok { IfOk result (λ _. draft.new
        ≡ extended draft.old (next_text (option_map id_row before.entry) (word_of token.entry))) }
    ensures err { IfErr result (λ _.
        IsOff draft.old (next_text (option_map id_row before.entry) (word_of token.entry))) }
{
    if let Some(id) = before {
        push_license(draft, alloc, id, is_plus_word(&token))?;
    }
    push_token(draft, alloc, token)
}

/// The canonical text of a licence expression, as the lax mode reads it; `None` where that is the
/// text itself, and then no memory is taken. `docs/EXPRESSIONS.md` states the rules.
///
/// Operators stand in capitals with one space on each side, parentheses, references and names as
/// they are listed, without any other white space. The name of a GNU licence says which versions
/// are meant: where a `+` follows it ends in `-or-later`, in place of a final `-only`, and
/// otherwise in `-only`, unless it has one of the two endings. Such a name need not be listed.
///
/// Nothing else of the grammar is tested: a text that is no expression may have a canonical text.
/// Every text that the lax mode accepts has one; where each licence's name in it is listed and not
/// deprecated, the strict mode accepts it with the same meaning, each GNU licence without an
/// ending made `-only`, and it is its own canonical text.
///
/// # Errors
///
/// `Refused` with the first, in the order of the text, of a fault of the lexer, and a `+` that
/// does not directly follow a listed licence, which is `Unexpected` of `<license>` at the `+`.
/// `Memory` where memory for another text was refused.
#[tactic(auto, using(crate::proofs::Laws::laws))]
pub fn canonical<'t>(
    alloc: Global,
    catalogue: &Catalogue,
    text: &'t str,
) -> Result<Option<String>, Failure<ParseError<'t>>>
    ensures answer { IfOk result (λ answer.
        answer_to text.now (canonical_of catalogue.now text.now)
        ≡ Ok (option_map string_bytes answer)) }
    ensures refusal { IfErr result (IfRefused (λ error.
        (canonical_of catalogue.now text.now ≡ Err (fault_of error.reason, span_of error.span))
        × (error.original.now ≡ text.now))) }
    ensures place { IfErr result (IfRefused (λ error. IsPlace text.now (span_of error.span))) }
    ensures itself { canonical_of catalogue.now text.now ≡ Ok text.now → result ≡ Ok None }
    ensures laws { CanonicalLaws catalogue.now text.now }
{
    catalogue.is_well_formed();
    let mut draft = Draft::new(text);
    let mut before = None;
    let mut lexer = Lexer::new_mode(catalogue, text, ParseMode::LAX);
    for item in lexer.by_ref() {
        let LexerToken { token, span } = match item {
            Ok(found) => found,
            Err(error) => {
                return Err(Failure::Refused(ParseError {
                    original: text,
                    span: error.span,
                    reason: error.reason,
                }));
            }
        };
        if is_misplaced(before.is_some(), &token) {
            return Err(Failure::Refused(ParseError {
                original: text,
                span,
                reason: Reason::Unexpected(&["<license>"]),
            }));
        }
        push_next(&mut draft, alloc, before, token)?;
        before = waiting(token);
    }
    if let Some(id) = before {
        push_license(&mut draft, alloc, id, false)?;
    }
    Ok(draft.finish(alloc)?)
}
