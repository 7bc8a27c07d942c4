// What is wrong with an expression.

ghost use Rattle.std.specs.Prelude.{◌≡◌, IfOk, MatchOption, None, bytes_eq, find, map, option_map, string_bytes};
ghost use Rattle.std.specs.Option.{option_copied};
ghost use Rattle.std.specs.Str.Lossy.{utf8_valid_len};
ghost use Rattle.spdx_lexer.specs.Code.{span_of};
ghost use Rattle.spdx_lexer.specs.Faults.{fault_of};
ghost use Rattle.spdx_parser.specs.Meaning.{IsRefused};
ghost use Rattle.spdx_canonical.specs.Fix.{IsFixOf, Reads};
ghost use Rattle.finding_forms.specs.Finding.{aid_of, told};
ghost use Rattle.spdx_hints.specs.Borrowed.{nows};
ghost use Rattle.spdx_list.specs.Shown.{shown_replacement};
ghost use Rattle.spdx_list.specs.declared.extras.Replacement.{Replacement};
ghost use Rattle.spdx_check.specs.Checking.{replacements_in, seen_by, spot_of, told_by};
ghost use Rattle.spdx_check.specs.Finding.{IsTheFinding, aid_by, replacement_in, replacement_of, hint_by, hinted, is_unlisted, name_at, unlisted_words, wants_name, without_names, wrong_in, no_text};
ghost use Rattle.spdx_check.specs.Found.{finding_of, fix_of};
ghost use Rattle.spdx_check.specs.Refusals.{aid_in, wrong_of};

use crate::check::Check;
use finding_forms::{Finding, Help, Place, Sight};
use spdx_canonical::{fix, fix_of_refused};
use spdx_catalogue::{Catalogue, Failure};
use spdx_hints::{Meant, hints, phrase};
use spdx_lexer::error::{ParseError, Reason};
use spdx_lexer::token::ParseMode;
use spdx_list::Replacement;
use spdx_parser::parse_nodes;
use std::alloc::{AllocError, Global};

/// What helps: the fix, or names that the catalogue lends, and how that is called which gave them.
#[derive(Drop)]
pub(crate) enum Remedy<'c> {
    Nothing,
    Write(String),
    Names {
        names: Vec<&'c str>,
        rule: &'static str,
    },
    Note(String),
}

/// What is wrong with an expression, in texts of its own.
#[derive(Drop)]
pub struct Refusal<'c> {
    shown: String,
    start: usize,
    end: usize,
    reason: String,
    remedy: Remedy<'c>,
}

impl Refusal<'_> {
    /// Where the fault begins, in bytes of the expression.
    pub fn start(&self) -> usize
        ensures { result ≡ self.now.start }
    {
        self.start
    }

    /// Where the fault ends, in bytes of the expression, which has U+FFFD for each of its sequences that is no UTF-8.
    pub fn end(&self) -> usize
        ensures { result ≡ self.now.end }
    {
        self.end
    }

    /// What is told of an expression that begins at the place. `sight` says where its fault is seen; `None` that the
    /// expression stands there as it is.
    pub fn finding<'t>(&'t self, place: Place<'t>, sight: Option<Sight<'t>>) -> Finding<'t>
        ensures { told result ≡ told_by (spot_of place.entry) (wrong_of self.now)
            (seen_by (spot_of place.entry) (wrong_of self.now) sight.entry) }
    {
        Finding {
            place,
            expression: self.shown.as_str(),
            start: self.start,
            end: self.end,
            reason: self.reason.as_str(),
            help: self.help(),
            sight,
        }
    }

    // What helps, as it is told.
    fn help(&self) -> Help<'_>
        ensures { aid_of result ≡ aid_in self.now.remedy }
    {
        match &self.remedy {
            Remedy::Nothing => Help::Nothing,
            Remedy::Write(mended) => Help::Write(mended.as_str()),
            Remedy::Names { names, rule } => Help::Names {
                names: names.as_slice(),
                rule,
            },
            Remedy::Note(words) => Help::Note(words.as_str()),
        }
    }
}

/// What is wrong with the bytes of an expression, if anything is: as the parser tells it, and as help the fix, where the
/// expression has one; else, of a deprecated name, what replaces it by the rows; else the names of licences that
/// the phrase at the fault may mean, where a name is wanted there: the fault is an unknown term or licence, a byte that
/// begins no token, or a deprecated name. A replacement is told as the one name that may be meant, since it mends the name alone
/// and no reader has tried it. Where none is close to an unknown term, licence or exception, a note says which list hasn't
/// it, and by which option another is taken. Bytes that are no UTF-8 are refused too: U+FFFD is shown for each invalid
/// sequence, the first of which is the fault.
///
/// Linear in the expression's tokens, besides their look-up. One that strict reading refuses is read up to three times more,
/// one that another mode refuses four times, and for names each replacement, or each row of the catalogue, is looked at.
///
/// # Errors
///
/// Memory was refused.
#[tactic(auto, using(crate::proofs::Findings::the_finding))]
pub fn refusal_of<'c>(
    alloc: Global,
    check: &Check<'c>,
    bytes: &[u8],
) -> Result<Option<Refusal<'c>>, AllocError>
    ensures found { IfOk result (λ found. option_map wrong_of found ≡
        finding_of check.now.catalogue.now (replacements_in check.now) check.now.mode bytes.now) }
    ensures is { IfOk result (λ found. IsTheFinding check.now.catalogue.now
        (replacements_in check.now) check.now.mode bytes.now (option_map wrong_of found)) }
{
    refusal_in(alloc, check, bytes)
}

/// What is found, by reading.
pub(crate) fn refusal_in<'c>(
    alloc: Global,
    check: &Check<'c>,
    bytes: &[u8],
) -> Result<Option<Refusal<'c>>, AllocError>
    ensures { IfOk result (λ found. option_map wrong_of found ≡
        finding_of check.now.catalogue.now (replacements_in check.now) check.now.mode bytes.now) }
{
    let written = match str::from_utf8(bytes) {
        Ok(written) => written,
        Err(error) => return Ok(Some(no_text(alloc, bytes, error.valid_up_to())?)),
    };
    match fault_in(alloc, check, written)? {
        None => Ok(None),
        Some(error) => Ok(Some(refused(alloc, check, &error)?)),
    }
}

// Why the text is refused, if it is.
fn fault_in<'t>(
    alloc: Global,
    check: &Check<'_>,
    written: &'t str,
) -> Result<Option<ParseError<'t>>, AllocError>
    ensures { IfOk result (λ error. MatchOption error
        (Reads check.now.catalogue.now check.now.mode written.now)
        (IsRefused check.now.catalogue.now check.now.mode written.now)) }
{
    match parse_nodes(alloc, check.catalogue, written, check.mode) {
        Ok(_) => Ok(None),
        Err(Failure::Refused(error)) => Ok(Some(error)),
        Err(Failure::Memory(error)) => Err(error),
    }
}

// Of bytes that are no text behind so many of them.
fn no_text<'c>(alloc: Global, bytes: &[u8], valid: usize) -> Result<Refusal<'c>, AllocError>
    requires { valid ≡ utf8_valid_len bytes.now }
    ensures { IfOk result (λ refusal. wrong_of refusal ≡ no_text bytes.now) }
{
    Ok(Refusal {
        shown: String::from_utf8_lossy(alloc, bytes)?,
        start: valid,
        end: valid + '\u{fffd}'.len_utf8(),
        reason: String::from_str(alloc, "not UTF-8")?,
        remedy: Remedy::Nothing,
    })
}

// Of a text that is refused.
fn refused<'c>(
    alloc: Global,
    check: &Check<'c>,
    error: &ParseError<'_>,
) -> Result<Refusal<'c>, AllocError>
    requires { Reads check.now.catalogue.now check.now.mode error.now.original.now → ⊥ }
    ensures { IfOk result (λ refusal. wrong_of refusal ≡
        wrong_in check.now.catalogue.now (replacements_in check.now) error.now.original.now
        (fault_of error.now.reason) (span_of error.now.span)
        (fix_of check.now.catalogue.now error.now.original.now)) }
{
    let reason = error.reason;
    Ok(Refusal {
        shown: String::from_str(alloc, error.original)?,
        start: error.span.start,
        end: error.span.end,
        reason: format!(in alloc; "{reason}")?,
        remedy: remedy_of(alloc, check, error)?,
    })
}

// What helps: the fix, where there is one, else names.
fn remedy_of<'c>(
    alloc: Global,
    check: &Check<'c>,
    error: &ParseError<'_>,
) -> Result<Remedy<'c>, AllocError>
    requires { Reads check.now.catalogue.now check.now.mode error.now.original.now → ⊥ }
    ensures { IfOk result (λ remedy. aid_in remedy ≡
        aid_by check.now.catalogue.now (replacements_in check.now) error.now.original.now
        (fault_of error.now.reason) (span_of error.now.span)
        (fix_of check.now.catalogue.now error.now.original.now)) }
{
    match fix_in(alloc, check, error.original)? {
        Some(mended) => Ok(Remedy::Write(mended)),
        None => names_for(alloc, check, error),
    }
}

// The fix of a text that is refused as it is read here.
fn fix_in(alloc: Global, check: &Check<'_>, text: &str) -> Result<Option<String>, AllocError>
    requires { Reads check.now.catalogue.now check.now.mode text.now → ⊥ }
    ensures { IfOk result (λ fix.
        IsFixOf check.now.catalogue.now text.now (option_map string_bytes fix)) }
{
    if check.mode == ParseMode::STRICT {
        fix_of_refused(alloc, check.catalogue, text)
    } else {
        fix(alloc, check.catalogue, text)
    }
}

// What helps where there is no fix: the replacement of a deprecated name, else hints.
fn names_for<'c>(
    alloc: Global,
    check: &Check<'c>,
    error: &ParseError<'_>,
) -> Result<Remedy<'c>, AllocError>
    ensures { IfOk result (λ remedy. aid_in remedy ≡
        aid_by check.now.catalogue.now (replacements_in check.now) error.now.original.now
        (fault_of error.now.reason) (span_of error.now.span) None) }
{
    let Some(replacement) = replacement_of(check.replacements, error) else {
        return hints_for(alloc, check.catalogue, error);
    };
    let mut names = Vec::new(alloc);
    names.push(replacement)?;
    Ok(Remedy::Names {
        names,
        rule: "replaced-by",
    })
}

// What is to be written in place of the deprecated name at the fault.
fn replacement_of<'c>(replacements: &'c [Replacement], error: &ParseError<'_>) -> Option<&'c str>
    ensures { option_copied result ≡ replacement_of (map shown_replacement replacements.now)
        error.now.original.now (fault_of error.now.reason) (span_of error.now.span) }
{
    match error.reason {
        Reason::DeprecatedLicenseId => replacement_in(replacements, name_at(error)),
        _ => None,
    }
}

fn name_at<'t>(error: &ParseError<'t>) -> &'t [u8]
    ensures { result.now ≡ name_at error.now.original.now (span_of error.now.span) }
{
    let text = error.original.as_bytes();
    let end = error.span.end.min(text.len());
    &text[error.span.start.min(end)..end]
}

fn replacement_in<'c>(replacements: &'c [Replacement], name: &[u8]) -> Option<&'c str>
    ensures { option_copied result ≡ replacement_in (map shown_replacement replacements.now)
        name.now }
{
    let row = row_named(replacements, name)?;
    Some(row.write.as_str())
}

fn row_named<'c>(replacements: &'c [Replacement], name: &[u8]) -> Option<&'c Replacement>
    ensures { option_copied result
        ≡ find (λ (r : Replacement). bytes_eq (string_bytes r.name) name.now) replacements.now }
{
    replacements.iter().find(|row| row.name.as_bytes() == name)
}

// The names that the phrase at the fault may mean, if a licence is wanted.
fn hints_for<'c>(
    alloc: Global,
    catalogue: &'c Catalogue,
    error: &ParseError<'_>,
) -> Result<Remedy<'c>, AllocError>
    ensures { IfOk result (λ remedy. aid_in remedy ≡
        hint_by catalogue.entry.now error.now.original.now
        (fault_of error.now.reason) (span_of error.now.span)) }
{
    if !wants_name(error.reason) {
        return without_names(alloc, catalogue, error.reason);
    }
    let phrase = phrase(error.original.as_bytes(), error.span.start);
    let meant = hints(alloc, catalogue, phrase)?;
    remedy_by(alloc, catalogue, error.reason, meant)
}

// The names, where there are any.
fn remedy_by<'c>(
    alloc: Global,
    catalogue: &Catalogue,
    reason: Reason,
    meant: Meant<'c>,
) -> Result<Remedy<'c>, AllocError>
    ensures { IfOk result (λ remedy. aid_in remedy ≡
        hinted (without_names catalogue.now (fault_of reason))
        (nows meant.entry.names.items) meant.entry.rule) }
{
    match meant.rule {
        Some(rule) => Ok(Remedy::Names {
            names: meant.names,
            rule: rule.word(),
        }),
        None => without_names(alloc, catalogue, reason),
    }
}

// What helps where no name is close: to know which list has none.
fn without_names<'c>(
    alloc: Global,
    catalogue: &Catalogue,
    reason: Reason,
) -> Result<Remedy<'c>, AllocError>
    ensures { IfOk result (λ remedy.
        aid_in remedy ≡ without_names catalogue.now (fault_of reason)) }
{
    if is_unlisted(reason) {
        Ok(Remedy::Note(unlisted_words(alloc, catalogue)?))
    } else {
        Ok(Remedy::Nothing)
    }
}

fn unlisted_words(alloc: Global, catalogue: &Catalogue) -> Result<String, AllocError>
    ensures { IfOk result (λ words. string_bytes words ≡ unlisted_words catalogue.now) }
{
    let mut words = String::from_str(alloc, "not in the list ")?;
    words.push_str(catalogue.license_version())?;
    words.push_str(", see --list")?;
    Ok(words)
}

fn is_unlisted(reason: Reason) -> bool
    ensures { result ≡ is_unlisted (fault_of reason) }
{
    matches!(
        reason,
        Reason::UnknownTerm | Reason::UnknownLicense | Reason::UnknownException
    )
}

fn wants_name(reason: Reason) -> bool
    ensures { result ≡ wants_name (fault_of reason) }
{
    match reason {
        Reason::UnknownTerm
        | Reason::UnknownLicense
        | Reason::InvalidCharacters
        | Reason::DeprecatedLicenseId => true,
        _ => false,
    }
}
