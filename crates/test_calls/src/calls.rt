// What each call makes of texts, a file for each kind of call.

pub(crate) mod canonical;
pub(crate) mod choice;
pub(crate) mod copies;
pub(crate) mod evaluation;
pub(crate) mod json;
pub(crate) mod lexing;
pub(crate) mod licensees;
pub(crate) mod look_ups;
pub(crate) mod making;
pub(crate) mod meaning;
pub(crate) mod orders;
pub(crate) mod parsing;
pub(crate) mod printing;
