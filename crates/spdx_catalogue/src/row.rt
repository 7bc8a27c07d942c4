// What licences and exceptions have in common: a name, and rules of their own.

ghost use Rattle.std.specs.Prelude.{◌≡◌, ℕ, List, Option};
ghost use Rattle.std.specs.Option.{option_copied};
ghost use Rattle.spdx_requirement.specs.Rows.{LicenseRow, ExceptionRow, row_of, exception_of, license_name, exception_name};
ghost use Rattle.spdx_catalogue.specs.RowRules.{RowRule, name_rules, license_row_rules, exception_row_rules};
ghost use Rattle.spdx_catalogue.specs.RowChecks.{first_broken};

use crate::error::{CatalogueError, List};
use crate::names::{has_two_suffixes, is_above, is_name, is_operator};
use spdx_requirement::flags::IS_GNU;
use spdx_requirement::row::{Exception, License};

/// A row of a list whose names ascend.
pub(crate) trait Row: Drop {
    ghost Shown: { Type 0 };

    ghost shown: { Self → Shown };

    ghost name_of: { Shown → List ℕ };

    ghost rules: { Option (List ℕ) → ℕ → Shown → List RowRule };

    fn name(&self) -> &str
        ensures { result.now ≡ name_of (shown self.now) };

    /// The first of its rules that the row breaks, behind a row of that name.
    fn fault(&self, previous: Option<&str>, row: usize) -> Option<CatalogueError>
        ensures { result
            ≡ first_broken (rules (option_copied previous.entry) row (shown self.now)) };
}

fn name_fault(
    list: List,
    name: &str,
    previous: Option<&str>,
    index: usize,
    row: usize,
) -> Option<CatalogueError>
    ensures { result ≡ first_broken
        (name_rules list name.now (option_copied previous.entry) index row) }
{
    if !is_name(name) {
        return Some(CatalogueError::BadName(list, row));
    }
    if is_operator(name) {
        return Some(CatalogueError::OperatorName(list, row));
    }
    if !is_above(previous, name) {
        return Some(CatalogueError::NotAscending(list, row));
    }
    if index != row {
        return Some(CatalogueError::BadIndex(list, row));
    }
    None
}

impl Row for License {
    ghost Shown = { LicenseRow };

    ghost shown = { row_of };

    ghost name_of = { license_name };

    ghost rules = { license_row_rules };

    fn name(&self) -> &str {
        self.name.as_str()
    }

    fn fault(&self, previous: Option<&str>, row: usize) -> Option<CatalogueError> {
        let name = self.name.as_str();
        if let Some(fault) = name_fault(List::Licenses, name, previous, self.index, row) {
            return Some(fault);
        }
        if self.flags & IS_GNU != 0 && has_two_suffixes(name.as_bytes()) {
            return Some(CatalogueError::TwoSuffixes(row));
        }
        None
    }
}

impl Row for Exception {
    ghost Shown = { ExceptionRow };

    ghost shown = { exception_of };

    ghost name_of = { exception_name };

    ghost rules = { exception_row_rules };

    fn name(&self) -> &str {
        self.name.as_str()
    }

    fn fault(&self, previous: Option<&str>, row: usize) -> Option<CatalogueError> {
        name_fault(
            List::Exceptions,
            self.name.as_str(),
            previous,
            self.index,
            row,
        )
    }
}
