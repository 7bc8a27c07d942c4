// What is told for people to read.

pub(crate) mod carets;
pub(crate) mod human;
pub(crate) mod lines;
pub(crate) mod refusals;
pub(crate) mod tree;
