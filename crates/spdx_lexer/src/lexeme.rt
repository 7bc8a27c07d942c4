// The token at the front of a text: of several rules the first that applies.

ghost use Rattle.std.specs.Prelude.{◌≡◌, ◌<◌, ◌≤◌, [], ◌∷◌, option_map, length, IfSome, OnSome, slice_index, IfOk, IfErr, IsCharBoundary};
ghost use Rattle.spdx_lexer.specs.Text as text_of;
ghost use Rattle.spdx_lexer.specs.Lexeme as spec;
ghost use Rattle.spdx_lexer.specs.Groups as groups;
ghost use Rattle.spdx_requirement.specs.Ids.{id_row};
ghost use Rattle.spdx_catalogue.specs.LookUps.{listed};
ghost use Rattle.spdx_lexer.specs.Code.{word_of, found_of, seen_of};

use crate::error::Reason;
use crate::reference::referred;
use crate::token::{ParseMode, Token};
use spdx_catalogue::{Catalogue, LicenseId};

// A token, and how many bytes it takes.
pub(crate) type Found<'c, 't> = Option<(Token<'c, 't>, usize)>;

fn operator<'c, 't>(run: &str) -> Option<Token<'c, 't>>
    ensures { option_map word_of result ≡ spec.operator run.now }
{
    match run.as_bytes() {
        b"AND" | b"and" => Some(Token::And),
        b"OR" | b"or" => Some(Token::Or),
        b"WITH" | b"with" => Some(Token::With),
        _ => None,
    }
}

// The licence of that name. A run has no `+` that the look-up would take off.
fn license_named<'c>(catalogue: &'c Catalogue, run: &str) -> Option<LicenseId<'c>>
    requires { text_of.IsRun run.now }
    ensures { option_map id_row result ≡ listed catalogue.now.licenses run.now }
{
    catalogue.license_id(run)
}

// An operator, or a listed name.
fn exact<'c, 't>(catalogue: &'c Catalogue, run: &str) -> Option<Token<'c, 't>>
    requires { text_of.IsRun run.now }
    ensures { option_map (λ t. (word_of t, length run.now)) result
        ≡ groups.exact catalogue.now run.now }
{
    if let Some(token) = operator(run) {
        return Some(token);
    }
    if let Some(id) = license_named(catalogue, run) {
        return Some(Token::Spdx(id));
    }
    if let Some(id) = catalogue.exception_id(run) {
        return Some(Token::Exception(id));
    }
    None
}

// A listed name in another case.
fn caseless<'c, 't>(catalogue: &'c Catalogue, mode: ParseMode, run: &str) -> Found<'c, 't>
    ensures value { option_map found_of result ≡ groups.caseless catalogue.now mode run.now }
    ensures len { IfSome result (λ f. f.1 ≤ length run.now) }
{
    if !mode.allow_caseless_ids {
        return None;
    }
    if let Some(id) = catalogue.license_id_caseless(run) {
        return Some((Token::Spdx(id), run.len()));
    }
    if let Some(id) = catalogue.exception_id_caseless(run) {
        return Some((Token::Exception(id), run.len()));
    }
    None
}

// An imprecise name, which may end within the run or behind it.
fn imprecise<'c, 't>(catalogue: &'c Catalogue, mode: ParseMode, text: &str) -> Found<'c, 't>
    ensures value { option_map found_of result ≡ groups.imprecise catalogue.now mode text.now }
    ensures cut { IfSome result (λ f. IsCharBoundary text.now f.1) }
{
    if !mode.allow_imprecise_license_names {
        return None;
    }
    let (id, len) = catalogue.imprecise_license_id(text)?;
    Some((Token::Spdx(id), len))
}

// What else the run or the text says. Few words come so far, so that it is a call of its own.
#[inline(never)]
fn inexact<'c, 't>(
    catalogue: &'c Catalogue,
    mode: ParseMode,
    text: &'t str,
    run: &'t str,
) -> Found<'c, 't>
    requires { run.now ≡ text_of.run_at text.now }
    ensures value { option_map found_of result
        ≡ spec.first_of (groups.referred run.now ∷ groups.caseless catalogue.now mode run.now
        ∷ groups.imprecise catalogue.now mode text.now ∷ groups.unknown mode run.now ∷ []) }
    ensures cut { IfSome result (λ f. IsCharBoundary text.now f.1) }
{
    if let Some(found) = referred(run) {
        return Some(found);
    }
    if let Some(found) = caseless(catalogue, mode, run) {
        return Some(found);
    }
    if let Some(found) = imprecise(catalogue, mode, text) {
        return Some(found);
    }
    if mode.allow_unknown {
        return Some((Token::Unknown(run), run.len()));
    }
    None
}

fn sign<'c, 't>(mode: ParseMode, text: &str) -> Option<Token<'c, 't>>
    ensures value { option_map (λ t. (word_of t, 1)) result ≡ spec.sign mode text.now }
    ensures ascii { OnSome result (slice_index text.now 0 < 128) }
{
    let first = *text.as_bytes().first()?;
    if first == b'+' {
        return Some(Token::Plus);
    }
    if first == b'(' {
        return Some(Token::OpenParen);
    }
    if first == b')' {
        return Some(Token::CloseParen);
    }
    if first == b'/' && mode.allow_slash_as_or_operator {
        return Some(Token::Or);
    }
    None
}

// The token at the front of a text that begins with no white space, with the bytes that it takes;
// `run` is the run at its front.
pub(crate) fn lexeme<'c, 't>(
    catalogue: &'c Catalogue,
    mode: ParseMode,
    text: &'t str,
    run: &'t str,
) -> Result<(Token<'c, 't>, usize), (Reason, usize)>
    requires some { 0 < length text.now }
    requires run { run.now ≡ text_of.run_at text.now }
    ensures value { seen_of result ≡ groups.grouped_lexeme catalogue.now mode text.now }
    ensures cut { IfOk result (λ f. IsCharBoundary text.now f.1) }
    ensures cut_fault { IfErr result (λ f. IsCharBoundary text.now f.1) }
{
    if let Some(token) = sign(mode, text) {
        return Ok((token, 1));
    }
    if run.is_empty() {
        return Err((Reason::InvalidCharacters, text.len()));
    }
    if let Some(token) = exact(catalogue, run) {
        return Ok((token, run.len()));
    }
    match inexact(catalogue, mode, text, run) {
        Some(found) => Ok(found),
        None => Err((Reason::UnknownTerm, run.len())),
    }
}
