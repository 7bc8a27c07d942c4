// The formats that list packages, each a file.

pub(crate) mod cargo;
pub(crate) mod cyclonedx;
pub(crate) mod described;
pub(crate) mod folder;
pub(crate) mod npm;
pub(crate) mod spdx;
