// Findings for people to read.

pub(crate) mod carets;
pub(crate) mod excerpt;
pub(crate) mod frames;
pub(crate) mod line_forms;
pub(crate) mod paint;
