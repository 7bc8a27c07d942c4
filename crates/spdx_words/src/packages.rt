// The commands over packages: what they are, and what they ask for.

pub(crate) mod command;
pub mod request;
pub(crate) mod requests;
