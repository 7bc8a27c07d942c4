// Tries of the calls over devices in memory, a file for each kind.

pub(crate) mod again;
pub(crate) mod long;
pub(crate) mod parts;
pub(crate) mod readers;
pub(crate) mod writers;
