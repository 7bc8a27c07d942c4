// References at the front of a run.

ghost use Rattle.std.specs.Prelude.{◌≡◌, ◌+◌, ◌≤◌, length, option_map, IfSome};
ghost use Rattle.std.specs.Option.{option_copied};
ghost use Rattle.spdx_lexer.specs.Lexeme as spec;
ghost use Rattle.spdx_lexer.specs.Groups as groups;
ghost use Rattle.spdx_lexer.specs.Code.{found_of, pair_of};

use crate::lexeme::Found;
use crate::run::{split_name, strip};
use crate::token::Token;

const DOCUMENT: &str = "DocumentRef-";

const LICENSE: &str = "LicenseRef-";

const ADDITION: &str = "AdditionRef-";

// The name behind the prefix.
fn name_behind<'t>(prefix: &str, run: &'t str) -> Option<&'t str>
    ensures value { option_copied result ≡ spec.name_behind prefix.now run.now }
    ensures len { IfSome result (λ name. length prefix.now + length name.now ≤ length run.now) }
{
    let (name, _) = split_name(strip(prefix, run)?);
    Some(name)
}

// The document and the name of a reference into a document.
fn names_behind<'t>(prefix: &str, run: &'t str) -> Option<(&'t str, &'t str)>
    ensures value { option_map pair_of result ≡ spec.names_behind prefix.now run.now }
    ensures len { IfSome result (λ names.
        13 + (length names.0.now + (length prefix.now + length names.1.now)) ≤ length run.now) }
{
    let rest = strip(DOCUMENT, run)?;
    let (document, rest) = split_name(rest);
    let rest = strip(":", rest)?;
    let name = name_behind(prefix, rest)?;
    Some((document, name))
}

fn license_reference<'c, 't>(run: &'t str) -> Found<'c, 't>
    ensures value { option_map found_of result ≡ groups.license_reference run.now }
    ensures len { IfSome result (λ f. f.1 ≤ length run.now) }
{
    if let Some((document, lic_ref)) = names_behind(LICENSE, run) {
        let token = Token::LicenseRef {
            doc_ref: Some(document),
            lic_ref,
        };
        let joined = DOCUMENT.len() + document.len() + ":".len();
        return Some((token, joined + LICENSE.len() + lic_ref.len()));
    }
    let lic_ref = name_behind(LICENSE, run)?;
    let token = Token::LicenseRef {
        doc_ref: None,
        lic_ref,
    };
    Some((token, LICENSE.len() + lic_ref.len()))
}

fn addition_reference<'c, 't>(run: &'t str) -> Found<'c, 't>
    ensures value { option_map found_of result ≡ groups.addition_reference run.now }
    ensures len { IfSome result (λ f. f.1 ≤ length run.now) }
{
    if let Some((document, add_ref)) = names_behind(ADDITION, run) {
        let token = Token::AdditionRef {
            doc_ref: Some(document),
            add_ref,
        };
        let joined = DOCUMENT.len() + document.len() + ":".len();
        return Some((token, joined + ADDITION.len() + add_ref.len()));
    }
    let add_ref = name_behind(ADDITION, run)?;
    let token = Token::AdditionRef {
        doc_ref: None,
        add_ref,
    };
    Some((token, ADDITION.len() + add_ref.len()))
}

// A reference, of a licence or else of an addition.
#[inline(never)]
pub(crate) fn referred<'c, 't>(run: &'t str) -> Found<'c, 't>
    ensures value { option_map found_of result ≡ groups.referred run.now }
    ensures len { IfSome result (λ f. f.1 ≤ length run.now) }
{
    if let Some(found) = license_reference(run) {
        return Some(found);
    }
    addition_reference(run)
}
