//! Where the texts of an element stand in an XML file.
//!
//! It knows no vocabulary and resolves nothing: whoever asked names the element, and reads what stands there.

ghost use Rattle.std.specs.Prelude.{◌≡◌, ◌++◌, ◌<◌, ◌≤◌, IfOk, OnOk, length};
ghost use Rattle.std.specs.Option.{option_to_list};
ghost use Rattle.text_places.specs.Elements.{step_at, elements_of, AreInOrder};

use crate::Span;
use crate::tags::{comment_len, element_behind, name_end};
use std::alloc::{AllocError, Global};

/// An element with nothing but text in it: the places of the text, and of what stands in its tag behind the name. Both
/// are without the blanks round them.
#[derive(Clone, Copy, PartialEq, Eq, Debug)]
pub struct Element {
    pub attributes: Span,
    pub text: Span,
}

/// What stands at a place of the file: maybe an element, and how many bytes are read.
#[derive(Clone, Copy, PartialEq, Eq, Debug)]
struct Step {
    element: Option<Element>,
    read: usize,
}

fn step_at(name: &[u8], end: usize, text: &[u8]) -> Step
    requires some { 0 < length text.now }
    requires room { length text.now ≤ end }
    ensures value { result ≡ step_at name.now end text.now }
    ensures read { 0 < result.read }
    ensures within { result.read ≤ length text.now }
{
    let comment = comment_len(text);
    if comment > 0 {
        return Step {
            element: None,
            read: comment,
        };
    }
    let Some(behind) = name_end(name, text) else {
        return Step {
            element: None,
            read: 1,
        };
    };
    match element_behind(name, end, behind) {
        Some((element, left)) => Step {
            element: Some(element),
            read: text.len() - left,
        },
        None => Step {
            element: None,
            read: 1,
        },
    }
}

fn push_some(found: &mut Vec<Element>, element: Option<Element>) -> Result<(), AllocError>
    ensures { OnOk result (found.new.items ≡ found.old.items ++ option_to_list element) }
{
    if let Some(element) = element {
        found.push(element)?;
    }
    Ok(())
}

/// The places of the texts and attributes of the elements of this name, in bytes from the file's beginning, in its
/// order: of each `<name ..>TEXT</name>` where TEXT has no other element, comment or CDATA in it. What stands in comments
/// and in CDATA is passed over. A tag ends at its first `>`, and one with a `<` before it is none. Linear.
///
/// # Errors
///
/// Memory was refused.
pub fn elements(alloc: Global, bytes: &[u8], name: &[u8]) -> Result<Vec<Element>, AllocError>
    ensures value { IfOk result (λ found. found.items ≡ elements_of name.now bytes.now) }
    ensures in_order { IfOk result (λ found. AreInOrder 0 found.items (length bytes.now)) }
{
    let mut found = Vec::new(alloc);
    let mut rest = bytes;
    while !rest.is_empty() {
        let step = step_at(name, bytes.len(), rest);
        push_some(&mut found, step.element)?;
        rest = &rest[step.read..];
    }
    Ok(found)
}
