// The tokens of a text, and what a reader allows.

use spdx_catalogue::{ExceptionId, LicenseId};
use std::fmt;
use std::ops::Range;

/// What a reader allows beyond the strict form.
#[derive(Clone, Copy, Debug, PartialEq, Eq)]
pub struct ParseMode {
    /// `/` is OR.
    pub allow_slash_as_or_operator: bool,
    /// A licence may be spelt as the catalogue's list of imprecise names says.
    pub allow_imprecise_license_names: bool,
    /// `+` may follow a GNU licence.
    pub allow_postfix_plus_on_gpl: bool,
    /// A deprecated licence may stand.
    pub allow_deprecated: bool,
    /// A name that is not listed stands for a reference.
    pub allow_unknown: bool,
    /// A listed name may be written in another case.
    pub allow_caseless_ids: bool,
}

impl ParseMode {
    /// Nothing beyond the strict form: SPDX 2.1, as `docs/EXPRESSIONS.md` states it.
    pub const STRICT: ParseMode = ParseMode {
        allow_slash_as_or_operator: false,
        allow_imprecise_license_names: false,
        allow_postfix_plus_on_gpl: false,
        allow_deprecated: false,
        allow_unknown: false,
        allow_caseless_ids: false,
    };

    /// Everything but names that are not listed.
    pub const LAX: ParseMode = ParseMode {
        allow_slash_as_or_operator: true,
        allow_imprecise_license_names: true,
        allow_postfix_plus_on_gpl: true,
        allow_deprecated: true,
        allow_unknown: false,
        allow_caseless_ids: true,
    };
}

impl Default for ParseMode {
    ghost use Rattle.std.specs.Prelude.{◌≡◌};
    ghost use Rattle.spdx_lexer.specs.Modes.{strict};

    ghost is_default = { λ m. m ≡ strict };

    /// The strict form.
    fn default() -> ParseMode {
        ParseMode::STRICT
    }
}

/// A word or a sign of an expression. Its texts are parts of the text that was read, and its ids
/// name rows of the catalogue.
#[derive(Clone, Copy, Debug, PartialEq, Eq)]
pub enum Token<'c, 't> {
    /// A listed licence.
    Spdx(LicenseId<'c>),
    /// `LicenseRef-y`, or `DocumentRef-x:LicenseRef-y`; x and y may be empty.
    LicenseRef {
        /// x.
        doc_ref: Option<&'t str>,
        /// y.
        lic_ref: &'t str,
    },
    /// A listed exception.
    Exception(ExceptionId<'c>),
    /// `AdditionRef-y`, or `DocumentRef-x:AdditionRef-y`; x and y may be empty.
    AdditionRef {
        /// x.
        doc_ref: Option<&'t str>,
        /// y.
        add_ref: &'t str,
    },
    /// A name that is not listed.
    Unknown(&'t str),
    /// `+`, with no white space before it.
    Plus,
    /// `(`.
    OpenParen,
    /// `)`.
    CloseParen,
    /// `WITH`.
    With,
    /// `AND`.
    And,
    /// `OR`.
    Or,
}

impl fmt::Display for Token<'_, '_> {
    fn fmt<W: fmt::Write>(&self, f: &mut fmt::Formatter<W>) -> fmt::Result {
        write!(f, "{self:?}")
    }
}

/// A token, and the bytes of the text that it takes.
#[derive(Debug, Drop)]
pub struct LexerToken<'c, 't> {
    /// The token.
    pub token: Token<'c, 't>,
    /// The bytes, from its first up to and without its last.
    pub span: Range<usize>,
}
