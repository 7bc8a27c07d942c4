// Verdicts of a gate in each form: a hostile name, a fault, a package without a licence, one that is allowed, expressions of
// more than 200 bytes.

mod advice;
mod alike;
mod excerpts;
mod known;
mod packages;
mod rows;
mod summaries;

use crate::verdicts::advice::put_advised;
use crate::verdicts::alike::put_alike;
use crate::verdicts::excerpts::put_long;
use crate::verdicts::known::put_beside_baseline;
use crate::verdicts::rows::put_all;
use crate::verdicts::summaries::put_behind;
use std::alloc::{AllocError, Global};

/// Appends the verdicts.
pub(crate) fn put_verdicts(alloc: Global, shown: &mut Vec<u8>) -> Result<(), AllocError> {
    put_all(alloc, shown)?;
    put_advised(alloc, shown)?;
    put_alike(alloc, shown)?;
    put_behind(alloc, shown)?;
    put_beside_baseline(alloc, shown)?;
    put_long(alloc, shown)
}
