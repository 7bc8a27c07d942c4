//! The items of a licence requirement: listed licences and exceptions, references, their orders, texts and
//! equality.
//!
//! ```rust
//! // crates/spdx_bench/src/calls.rt
//! match &req.license {
//! LicenseItem::Spdx { id, .. } => id.is_osi_approved(),
//! ```
//!
//! It stands on nothing but std.
#![tactic(auto)]

pub mod endings;
pub mod equality;
pub mod failure;
pub mod id;
pub mod item;
pub mod order;
pub mod reference;
pub mod requirement;
pub mod row;
pub mod versions;

pub use crate::failure::Failure;
pub use crate::id::{ExceptionId, LicenseId};
pub use crate::item::{AdditionItem, LicenseItem};
pub use crate::reference::{AdditionRef, LicenseRef};
pub use crate::requirement::LicenseReq;
pub use crate::row::{Exception, ImpreciseName, License};

/// The flags of a licence or an exception, one bit each.
pub mod flags {
    /// The type that holds the flags of a row.
    pub type Type = u8;

    /// The Free Software Foundation lists the licence as free.
    pub const IS_FSF_LIBRE: Type = 0x1;

    /// The Open Source Initiative has approved the licence.
    pub const IS_OSI_APPROVED: Type = 0x2;

    /// The licence or the exception is deprecated.
    pub const IS_DEPRECATED: Type = 0x4;

    /// The licence is copyleft.
    pub const IS_COPYLEFT: Type = 0x8;

    /// The licence is one of the GNU family, whose names say `-only` or `-or-later`.
    pub const IS_GNU: Type = 0x10;
}
