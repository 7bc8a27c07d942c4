//! The texts that a requirement wants.

ghost use Rattle.std.specs.Prelude.{◌≡◌, IfOk, map, string_bytes};
ghost use Rattle.spdx_requirement.specs.Items.{license_of, requirement_of};
ghost use Rattle.spdx_requirement.specs.Texts.{requirement_text};
ghost use Rattle.spdx_licensee.specs.Wanted.{license_wants, wanted};

use spdx_catalogue::{LicenseItem, LicenseReq};
use std::alloc::{AllocError, Global};

/// A requirement as it is written, and the names of the texts that it wants.
#[derive(Debug, Drop)]
pub struct RequirementTexts {
    /// As it is written, as `GPL-2.0-or-later WITH Classpath-exception-2.0` or `MPL-1.1+`.
    pub name: String,
    /// The name of the licence's text, then of the addition's, if there is one.
    pub texts: Vec<String>,
}

/// The requirement as it is written, and the names of the texts that it wants. A listed licence wants the text of its
/// row's name, whatever its mark: `MPL-1.1+` that of `MPL-1.1`, and `GPL-2.0-or-later` that of its own name, for that is
/// listed. An exception wants the text of its name, and a reference one of the name that it is written by.
///
/// # Errors
///
/// Memory was refused.
pub fn texts_of(alloc: Global, requirement: &LicenseReq<'_>) -> Result<RequirementTexts, AllocError>
    ensures name { IfOk result (λ t.
        string_bytes t.name ≡ requirement_text (requirement_of requirement.now)) }
    ensures texts { IfOk result (λ t.
        map string_bytes t.texts.items ≡ wanted (requirement_of requirement.now)) }
{
    let mut texts = Vec::new(alloc);
    texts.push(license_text(alloc, &requirement.license)?)?;
    if let Some(addition) = &requirement.addition {
        texts.push(format!(in alloc; "{addition}")?)?;
    }
    let name = format!(in alloc; "{requirement}")?;
    Ok(RequirementTexts { name, texts })
}

// The name of the licence's text.
fn license_text(alloc: Global, license: &LicenseItem<'_>) -> Result<String, AllocError>
    ensures { IfOk result (λ t. string_bytes t ≡ license_wants (license_of license.now)) }
{
    match license {
        LicenseItem::Spdx { id, .. } => String::from_str(alloc, id.license().name.as_str()),
        LicenseItem::Other(reference) => format!(in alloc; "{reference}"),
    }
}
