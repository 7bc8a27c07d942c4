// Rows by name: those whose names ascend are searched by halving, where no name is at hand whose key an index has.

ghost use Rattle.std.specs.Prelude.{◌≡◌, ◌++◌, ◌<◌, option_map, slice_get, map, find, bytes_eq};
ghost use Rattle.std.specs.Option.{option_copied};
ghost use Rattle.spdx_catalogue.specs.Ascent.{Ascends};

use crate::names::compare_joined;
use crate::row::Row;

pub(crate) fn row_at<R: Row>(rows: &[R], at: usize) -> Option<&R>
    ensures { option_map R.shown (option_copied result) ≡ slice_get (map R.shown rows.now) at }
{
    rows.get(at)
}

/// The row whose name is the front and the ending.
pub(crate) fn joined<'c, R: Row>(rows: &'c [R], front: &[u8], ending: &[u8]) -> Option<&'c R>
    requires { Ascends R.name_of (map R.shown rows.now) }
    ensures { option_map R.shown (option_copied result)
        ≡ find (λ r. bytes_eq (R.name_of r) (front.now ++ ending.now)) (map R.shown rows.now) }
{
    match rows.binary_search_by(|row| compare_joined(row.name().as_bytes(), front, ending)) {
        Ok(at) => row_at(rows, at),
        Err(_) => None,
    }
}
