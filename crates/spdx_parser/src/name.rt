// What names a licence, and the items that are made of names.

ghost use Rattle.std.specs.Prelude.{◌≡◌, true, false, IfOk, option_map};
ghost use Rattle.spdx_requirement.specs.Flags as Flags;
ghost use Rattle.spdx_requirement.specs.Ids.{id_row};
ghost use Rattle.spdx_requirement.specs.Items.{license_of, addition_of, added};
ghost use Rattle.spdx_requirement.specs.Endings as Endings;
ghost use Rattle.spdx_lexer.specs.Code.{document_of};
ghost use Rattle.spdx_parser.specs.Code.{name_license, IsLicenseRow};
ghost use Rattle.spdx_parser.specs.Grammar as Grammar;
ghost use Rattle.spdx_parser.specs.State as states;

use crate::last::ends_or_later;
use spdx_catalogue::{AdditionItem, Catalogue, LicenseId, LicenseItem};
use spdx_lexer::token::ParseMode;
use std::alloc::{AllocError, Global};

/// What names a licence.
#[derive(Clone, Copy)]
pub enum Name<'c, 't> {
    Listed {
        id: LicenseId<'c>,
        or_later: bool,
    },
    Reference {
        doc_ref: Option<&'t str>,
        lic_ref: &'t str,
    },
    Unknown(&'t str),
}

/// The licence of a name. Only a reference takes memory.
pub fn license_item<'c>(alloc: Global, name: Name<'c, '_>) -> Result<LicenseItem<'c>, AllocError>
    ensures { IfOk result (λ item. license_of item ≡ name_license name.entry) }
{
    match name {
        Name::Listed { id, or_later } => Ok(LicenseItem::Spdx { id, or_later }),
        Name::Reference { doc_ref, lic_ref } => LicenseItem::referred(alloc, doc_ref, lic_ref),
        Name::Unknown(text) => LicenseItem::referred(alloc, None, text),
    }
}

/// The addition of a reference's texts.
pub fn addition_item<'c>(
    alloc: Global,
    doc_ref: Option<&str>,
    add_ref: &str,
) -> Result<AdditionItem<'c>, AllocError>
    ensures { IfOk result (λ item. addition_of item
        ≡ added (record { document = document_of doc_ref.entry; name = add_ref.now })) }
{
    AdditionItem::referred(alloc, doc_ref, add_ref)
}

/// A listed licence with its `+`: of a GNU licence the one whose name has `-or-later` in place of
/// `-only`, or behind its name.
pub fn marked<'c>(
    catalogue: &'c Catalogue,
    mode: ParseMode,
    id: LicenseId<'c>,
) -> Option<Name<'c, 'static>>
    requires { IsLicenseRow catalogue.now (id_row id) }
    ensures { option_map name_license result ≡ states.marked catalogue.now mode (id_row id.entry) }
{
    if !id.is_gnu() {
        return Some(Name::Listed { id, or_later: true });
    }
    if !mode.allow_postfix_plus_on_gpl || ends_or_later(id) {
        return None;
    }
    let id = later_id(catalogue, id)?;
    let or_later = false;
    Some(Name::Listed { id, or_later })
}

// The listed licence whose name has `-or-later` in place of a GNU licence's `-only`, or behind its name.
fn later_id<'c>(catalogue: &'c Catalogue, id: LicenseId<'_>) -> Option<LicenseId<'c>>
    requires row { IsLicenseRow catalogue.now (id_row id) }
    requires gnu { Flags.is_gnu (id_row id).flags ≡ true }
    requires bare { Endings.ends_or_later (id_row id).name ≡ false }
    ensures { option_map id_row result ≡ Grammar.later_row catalogue.now (id_row id.entry) }
{
    catalogue.is_well_formed();
    let name = id.license().name.as_str();
    catalogue.gnu_license_id(name.strip_suffix("-only").unwrap_or(name), true)
}
