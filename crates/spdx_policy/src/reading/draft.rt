// What a TOML table says of a policy, before its names and ranges are read.

ghost use Rattle.std.specs.Prelude.{◌≡◌, Ok, Err, IfOk, IfErr, map, string_bytes, codes};
ghost use Rattle.std.specs.Option.{option_copied};
ghost use Rattle.toml.specs.View.{table_view};
ghost use Rattle.spdx_requirement.specs.Failures.{IfRefused};
ghost use Rattle.spdx_policy.specs.Shape.{shape_of};
ghost use Rattle.spdx_policy.specs.Drafts as spec;
ghost use Rattle.spdx_policy.specs.Drawn.{exception_row, clarify_row, draft_rows};

use crate::decision::Flag;
use crate::error::{Key, Place, Section, ShapeFault};
use crate::reading::shape::{
    Row, copy_at, only, required_at, required_texts_at, rows_at, text_at, texts_at, unknown_word,
};
use spdx_requirement::failure::Failure;
use std::alloc::Global;
use toml::Table;

#[derive(Drop)]
pub(crate) struct ExceptionDraft {
    pub name: String,
    pub versions: Option<String>,
    pub allow: Vec<String>,
    pub reason: Option<String>,
}

#[derive(Drop)]
pub(crate) struct ClarifyDraft {
    pub name: String,
    pub versions: Option<String>,
    pub expression: String,
}

#[derive(Drop)]
pub(crate) struct Draft {
    pub lax: bool,
    pub unstated: bool,
    pub allow: Vec<String>,
    pub allow_if: Vec<Flag>,
    pub deny: Vec<String>,
    pub deny_if: Vec<Flag>,
    pub exceptions: Vec<ExceptionDraft>,
    pub clarifications: Vec<ClarifyDraft>,
}

impl Row for ExceptionDraft {
    ghost Shown = { spec.ExceptionRow };

    ghost shown = { exception_row };

    ghost reads = { spec.exception_of };

    fn read(
        alloc: Global,
        number: usize,
        members: &Table,
    ) -> Result<ExceptionDraft, Failure<ShapeFault>> {
        let section = Section::Exception(number);
        let known = [Key::Package, Key::Versions, Key::Allow, Key::Reason];
        only(alloc, members, section, &known)?;
        let name = required_at(alloc, members, section, Key::Package)?;
        let versions = copy_at(alloc, members, section, Key::Versions)?;
        let allow = required_texts_at(alloc, members, section, Key::Allow)?;
        let reason = copy_at(alloc, members, section, Key::Reason)?;
        Ok(ExceptionDraft {
            name,
            versions,
            allow,
            reason,
        })
    }
}

impl Row for ClarifyDraft {
    ghost Shown = { spec.ClarifyRow };

    ghost shown = { clarify_row };

    ghost reads = { spec.clarify_of };

    fn read(
        alloc: Global,
        number: usize,
        members: &Table,
    ) -> Result<ClarifyDraft, Failure<ShapeFault>> {
        let section = Section::Clarify(number);
        let known = [Key::Package, Key::Versions, Key::Expression];
        only(alloc, members, section, &known)?;
        let name = required_at(alloc, members, section, Key::Package)?;
        let versions = copy_at(alloc, members, section, Key::Versions)?;
        let expression = required_at(alloc, members, section, Key::Expression)?;
        Ok(ClarifyDraft {
            name,
            versions,
            expression,
        })
    }
}

// Whether the second of two words stands at a key; the first is meant where none stands.
fn choice_at(
    alloc: Global,
    members: &Table,
    key: Key,
    first: &str,
    second: &str,
) -> Result<bool, Failure<ShapeFault>>
    ensures ok { IfOk result (λ is.
        spec.choice_at key first.now second.now (table_view members.now) ≡ Ok is) }
    ensures err { IfErr result (IfRefused (λ f.
        spec.choice_at key first.now second.now (table_view members.now) ≡ Err (shape_of f))) }
{
    let Some(word) = text_at(members, Section::Policy, key)? else {
        return Ok(false);
    };
    if word == first {
        return Ok(false);
    }
    if word == second {
        return Ok(true);
    }
    unknown_word(alloc, Place::whole(Section::Policy, key), word)
}

fn flag_named(word: &str) -> Option<Flag>
    ensures { result ≡ spec.flag_named word.now }
{
    if word == Flag::OsiApproved.word() {
        Some(Flag::OsiApproved)
    } else if word == Flag::FsfLibre.word() {
        Some(Flag::FsfLibre)
    } else if word == Flag::Copyleft.word() {
        Some(Flag::Copyleft)
    } else if word == Flag::Deprecated.word() {
        Some(Flag::Deprecated)
    } else {
        None
    }
}

// The flags that words name, if each of them does.
fn flags_of(alloc: Global, key: Key, words: &[String]) -> Result<Vec<Flag>, Failure<ShapeFault>>
    ensures ok { IfOk result (λ flags.
        spec.flags_from key 0 (map string_bytes words.now) ≡ Ok flags.items) }
    ensures err { IfErr result (IfRefused (λ f.
        spec.flags_from key 0 (map string_bytes words.now) ≡ Err (shape_of f))) }
{
    let mut flags = Vec::new(alloc);
    for (index, word) in words.iter().enumerate() {
        match flag_named(word.as_str()) {
            Some(flag) => flags.push(flag)?,
            None => {
                let place = Place::one(Section::Policy, key, index);
                return unknown_word(alloc, place, word.as_str());
            }
        }
    }
    Ok(flags)
}

fn flags_at(alloc: Global, members: &Table, key: Key) -> Result<Vec<Flag>, Failure<ShapeFault>>
    ensures ok { IfOk result (λ flags.
        spec.flags_at key (table_view members.now) ≡ Ok flags.items) }
    ensures err { IfErr result (IfRefused (λ f.
        spec.flags_at key (table_view members.now) ≡ Err (shape_of f))) }
{
    let words = texts_at(alloc, members, Section::Policy, key)?;
    flags_of(alloc, key, &words)
}

/// What the table says of a policy, or its first fault.
pub(crate) fn draft_of(alloc: Global, members: &Table) -> Result<Draft, Failure<ShapeFault>>
    ensures ok { IfOk result (λ d. spec.draft_of (table_view members.now) ≡ Ok (draft_rows d)) }
    ensures err { IfErr result (IfRefused (λ f.
        spec.draft_of (table_view members.now) ≡ Err (shape_of f))) }
{
    let known = [
        Key::Read,
        Key::Unstated,
        Key::Allow,
        Key::AllowIf,
        Key::Deny,
        Key::DenyIf,
        Key::Exception,
        Key::Clarify,
    ];
    only(alloc, members, Section::Policy, &known)?;
    let lax = choice_at(alloc, members, Key::Read, "strict", "lax")?;
    let unstated = choice_at(alloc, members, Key::Unstated, "refuse", "allow")?;
    let allow = texts_at(alloc, members, Section::Policy, Key::Allow)?;
    let allow_if = flags_at(alloc, members, Key::AllowIf)?;
    let deny = texts_at(alloc, members, Section::Policy, Key::Deny)?;
    let deny_if = flags_at(alloc, members, Key::DenyIf)?;
    let exceptions = rows_at(alloc, members, Key::Exception)?;
    let clarifications = rows_at(alloc, members, Key::Clarify)?;
    Ok(Draft {
        lax,
        unstated,
        allow,
        allow_if,
        deny,
        deny_if,
        exceptions,
        clarifications,
    })
}
