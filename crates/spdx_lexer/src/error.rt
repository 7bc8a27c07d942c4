// Why a text is no licence expression, and where.

ghost use Rattle.std.specs.Prelude.{◌≡◌, ◌∷◌, Some};
ghost use Rattle.spdx_lexer.specs.Faults.{fault_of, description_text, fault_text, error_text, quoted_words, terms_of};
ghost use Rattle.std.specs.List.{repeat};

pub use spdx_catalogue::Failure;
use std::fmt;
use std::ops::Range;

/// Why a text is refused.
#[derive(Clone, Copy, Debug, PartialEq, Eq)]
pub enum Reason {
    /// A GNU licence with `+` has no listed `-or-later`.
    UnknownLicense,
    /// Kept, and never given.
    UnknownException,
    /// A byte begins no token.
    InvalidCharacters,
    /// A parenthesis is not closed.
    UnclosedParens,
    /// A parenthesis closes none.
    UnopenedParens,
    /// There is no token.
    Empty,
    /// A token, or the end, stands where one of these words was expected.
    Unexpected(&'static [&'static str]),
    /// White space stands before `+`.
    SeparatedPlus,
    /// A word is no operator, no listed name and no reference.
    UnknownTerm,
    /// `+` follows a GNU licence.
    GnuNoPlus,
    /// `+` follows a GNU licence that says `-or-later` already.
    GnuPlusWithSuffix,
    /// A deprecated licence stands where none may.
    DeprecatedLicenseId,
}

impl Reason {
    /// What the reason says, apart from the words that were expected.
    pub fn description(&self) -> &'static str
        ensures { result.now ≡ description_text (fault_of self.now) }
    {
        match self {
            Reason::UnknownLicense => "unknown license id",
            Reason::UnknownException => "unknown exception id",
            Reason::InvalidCharacters => "invalid character(s)",
            Reason::UnclosedParens => "unclosed parens",
            Reason::UnopenedParens => "unopened parens",
            Reason::Empty => "empty expression",
            Reason::Unexpected(_) => "unexpected term",
            Reason::SeparatedPlus => "`+` must not follow whitespace",
            Reason::UnknownTerm => "unknown term",
            Reason::GnuNoPlus => "a GNU license was followed by a `+`",
            Reason::GnuPlusWithSuffix => {
                "a GNU license was followed by a `+` even though it ended in `-only` or `-or-later`"
            }
            Reason::DeprecatedLicenseId => "a deprecated license identifier was used",
        }
    }
}

// Two words or more in backquotes, with commas between them.
#[derive(Clone, Copy)]
struct Quoted {
    first: &'static str,
    second: &'static str,
    rest: &'static [&'static str],
}

impl fmt::Display for Quoted {
    ghost output = { λ q. Some (quoted_words (q.first.now ∷ q.second.now ∷ terms_of q.rest.now)) };

    fn fmt<W: fmt::Write>(&self, f: &mut fmt::Formatter<W>) -> fmt::Result {
        let (first, second) = (self.first, self.second);
        write!(f, "`{first}`, `{second}`")?;
        for word in self.rest {
            write!(f, ", `{word}`")?;
        }
        Ok(())
    }
}

impl fmt::Display for Reason {
    ghost output = { λ r. Some (fault_text (fault_of r)) };

    fn fmt<W: fmt::Write>(&self, f: &mut fmt::Formatter<W>) -> fmt::Result {
        match self {
            Reason::Unexpected([]) => write!(f, "the term was not expected here"),
            Reason::Unexpected([word]) => write!(f, "expected a `{word}` here"),
            Reason::Unexpected([first, second, rest @ ..]) => {
                let words = Quoted {
                    first,
                    second,
                    rest,
                };
                write!(f, "expected one of {words} here")
            }
            _ => f.write_str(self.description()),
        }
    }
}

/// A text that is refused: the reason, and the bytes that it speaks of.
#[derive(Clone, Debug, PartialEq, Eq, Drop)]
pub struct ParseError<'t> {
    /// The text that was handed in.
    pub original: &'t str,
    /// The bytes, from their first up to and without their last; an empty range at the end of the
    /// text where something is missing there.
    pub span: Range<usize>,
    /// The reason.
    pub reason: Reason,
}

impl ParseError<'_> {
    /// What the reason says, apart from the words that were expected.
    pub fn description(&self) -> &'static str
        ensures { result.now ≡ description_text (fault_of self.now.reason) }
    {
        self.reason.description()
    }
}

// A text a number of times.
#[derive(Clone, Copy)]
struct Repeated(&'static str, usize);

impl fmt::Display for Repeated {
    ghost output = { λ r. Some (repeat r.1 r.0.now) };

    fn fmt<W: fmt::Write>(&self, f: &mut fmt::Formatter<W>) -> fmt::Result {
        for i in 0..self.1 {
            f.write_str(self.0)?;
        }
        Ok(())
    }
}

impl fmt::Display for ParseError<'_> {
    ghost output = { λ e. Some (error_text e) };

    fn fmt<W: fmt::Write>(&self, f: &mut fmt::Formatter<W>) -> fmt::Result {
        let text = self.original;
        let reason = self.reason;
        let blanks = Repeated(" ", self.span.start);
        write!(f, "{text}\n{blanks}")?;
        match reason {
            Reason::UnclosedParens => write!(f, "- {reason}"),
            Reason::UnopenedParens => write!(f, "^ {reason}"),
            _ => {
                let carets = Repeated("^", self.span.end.saturating_sub(self.span.start));
                write!(f, "{carets} {reason}")
            }
        }
    }
}
