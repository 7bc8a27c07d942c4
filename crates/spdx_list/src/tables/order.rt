// Rows in the order of their names.

ghost use Rattle.std.specs.Prelude.{◌≡◌, ℕ, List, IfOk, map};
ghost use Rattle.spdx_requirement.specs.Rows.{LicenseRow, ExceptionRow, row_of, exception_of, license_name, exception_name};
ghost use Rattle.spdx_tables.specs.Places.{license_at, exception_at, numbered};
ghost use Rattle.spdx_list.specs.Made.{Arranges};

use spdx_requirement::row::{Exception, License};
use std::alloc::{AllocError, Global};

/// A row of a list whose names ascend.
pub(crate) trait Placed: Drop {
    ghost Shown: { Type 0 };

    ghost shown: { Self → Shown };

    ghost name_of: { Shown → List ℕ };

    ghost place: { ℕ → Shown → Shown };

    fn name(&self) -> &str
        ensures { result.now ≡ name_of (shown self.now) };

    /// The row, at that place.
    fn at(self, index: usize) -> Self
        ensures { shown result ≡ place index (shown self) };
}

impl Placed for License {
    ghost Shown = { LicenseRow };

    ghost shown = { row_of };

    ghost name_of = { license_name };

    ghost place = { license_at };

    fn name(&self) -> &str {
        self.name.as_str()
    }

    fn at(self, index: usize) -> License {
        License {
            name: self.name,
            full_name: self.full_name,
            index,
            flags: self.flags,
        }
    }
}

impl Placed for Exception {
    ghost Shown = { ExceptionRow };

    ghost shown = { exception_of };

    ghost name_of = { exception_name };

    ghost place = { exception_at };

    fn name(&self) -> &str {
        self.name.as_str()
    }

    fn at(self, index: usize) -> Exception {
        Exception {
            name: self.name,
            index,
            flags: self.flags,
        }
    }
}

// The rows, each with its place as its index.
fn numbered<R: Placed>(alloc: Global, rows: Vec<R>) -> Result<Vec<R>, AllocError>
    ensures { IfOk result (λ placed.
        map R.shown placed.items ≡ numbered R.place 0 (map R.shown rows.items)) }
{
    let mut placed = Vec::new(alloc);
    for row in rows {
        let index = placed.len();
        placed.push(row.at(index))?;
    }
    Ok(placed)
}

/// The rows in the order of their names, by bytes, each with its place as its index.
pub(crate) fn in_order<R: Placed>(alloc: Global, mut rows: Vec<R>) -> Result<Vec<R>, AllocError>
    ensures { IfOk result (λ arranged.
        Arranges R.name_of R.place (map R.shown rows.items) (map R.shown arranged.items)) }
{
    rows.sort_unstable_by(|a, b| a.name().cmp(b.name()));
    numbered(alloc, rows)
}
