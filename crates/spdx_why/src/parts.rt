//! The parts of an expression that were read and stand open.

/// A part: whether it is accepted, and how many requirements were missing before it.
#[derive(Clone, Copy)]
pub(crate) struct Part {
    pub(crate) truth: bool,
    pub(crate) from: usize,
}
