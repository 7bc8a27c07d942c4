// What was read last, and what may come behind it.

ghost use Rattle.std.specs.Prelude.{◌≡◌, option_map};
ghost use Rattle.spdx_requirement.specs.Ids.{id_row};
ghost use Rattle.spdx_requirement.specs.Endings as Endings;
ghost use Rattle.spdx_lexer.specs.Code.{word_of};
ghost use Rattle.spdx_lexer.specs.Faults.{fault_of, terms_of};
ghost use Rattle.spdx_parser.specs.Code.{last_in};
ghost use Rattle.spdx_parser.specs.Last as words;
ghost use Rattle.spdx_parser.specs.Grammar as Grammar;
ghost use Rattle.spdx_parser.specs.Heard.{listed_last};
ghost use Rattle.spdx_parser.specs.Faults.{fault_behind, plus_fault};

use spdx_catalogue::LicenseId;
use spdx_lexer::error::Reason;
use spdx_lexer::token::{ParseMode, Token};

/// What was read last.
#[derive(Clone, Copy)]
pub enum Last<'c> {
    /// A licence or `(` is due.
    Due,
    /// A listed licence, which `+` may follow.
    Listed(LicenseId<'c>),
    /// An unknown word as a licence.
    Unlisted,
    /// A reference to a licence, or `+`.
    Named,
    /// A licence and `WITH`.
    Joined,
    /// An addition.
    Added,
    /// `)`.
    Closed,
}

/// The listed licence that was read last.
pub fn listed(last: Last<'_>) -> Option<LicenseId<'_>>
    ensures { option_map id_row result ≡ listed_last (last_in last.entry) }
{
    match last {
        Last::Listed(id) => Some(id),
        _ => None,
    }
}

/// Whether a listed licence may stand in an expression.
pub fn may_stand(mode: ParseMode, id: LicenseId<'_>) -> bool
    ensures { result ≡ Grammar.may_stand mode (id_row id.entry) }
{
    !id.is_deprecated() || mode.allow_deprecated
}

/// Whether a licence's name ends in `-or-later`.
pub fn ends_or_later(id: LicenseId<'_>) -> bool
    ensures { result ≡ Endings.ends_or_later (id_row id.entry).name }
{
    id.license().name.as_bytes().ends_with(b"-or-later")
}

/// The terms that are named as expected behind what was read last.
pub fn terms(last: Last<'_>) -> &'static [&'static str]
    ensures { terms_of result.now ≡ words.terms (last_in last.entry) }
{
    match last {
        Last::Due => &["<license>", "("],
        Last::Listed(_) | Last::Unlisted => &["AND", "OR", "WITH", ")", "+"],
        Last::Named => &["AND", "OR", "WITH", ")"],
        Last::Joined => &["<addition>"],
        Last::Added => &["AND", "OR", ")"],
        Last::Closed => &["AND", "OR"],
    }
}

/// Whether an expression can end behind what was read last.
pub fn is_closing(last: Last<'_>) -> bool
    ensures { result ≡ words.is_closing (last_in last.entry) }
{
    match last {
        Last::Due | Last::Joined => false,
        _ => true,
    }
}

fn plus_reason(mode: ParseMode, id: LicenseId<'_>) -> Reason
    ensures { fault_of result ≡ plus_fault mode (id_row id.entry) }
{
    if !mode.allow_postfix_plus_on_gpl {
        Reason::GnuNoPlus
    } else if ends_or_later(id) {
        Reason::GnuPlusWithSuffix
    } else {
        Reason::UnknownLicense
    }
}

/// Why a token cannot stand behind what was read last, where it cannot.
pub fn reason(mode: ParseMode, last: Last<'_>, none_open: bool, token: Token<'_, '_>) -> Reason
    ensures { fault_of result ≡ fault_behind mode (last_in last.entry) none_open
        (word_of token.entry) }
{
    match (last, token) {
        (Last::Due, Token::Spdx(id)) if !may_stand(mode, id) => Reason::DeprecatedLicenseId,
        (Last::Listed(id), Token::Plus) if id.is_gnu() => plus_reason(mode, id),
        (_, Token::CloseParen) if none_open && is_closing(last) => Reason::UnopenedParens,
        _ => Reason::Unexpected(terms(last)),
    }
}
