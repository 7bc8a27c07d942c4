// The commands, a file for each.

pub(crate) mod changes;
pub(crate) mod check;
pub(crate) mod compare;
pub(crate) mod fix;
pub(crate) mod gate;
pub(crate) mod list;
pub(crate) mod notice;
pub(crate) mod simplify;
