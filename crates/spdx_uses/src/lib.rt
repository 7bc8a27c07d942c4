//! Four callers of `spdx` as its users write them, each proved against what the library's contracts say.
//! `docs/USES.md` quotes them whole.
#![tactic(auto)]

pub mod attribution;
pub mod explainer;
pub mod gate;
pub mod linter;
#[cfg(test)]
mod tests;
