// The files of the system.

pub(crate) mod replace;
pub(crate) mod system;
