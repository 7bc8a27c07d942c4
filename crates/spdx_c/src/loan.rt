// A catalogue that is lent by a pointer: as C hands it in, and as it is read.

ghost use Rattle.std.specs.Prelude.{◌≡◌, ℕ, Option, None, Some};
ghost use Rattle.std.specs.Coded.{coded_option};
ghost use Rattle.spdx_requirement.specs.Rows.{Rows};
ghost use Rattle.spdx_c.specs.Held.{IsHeld};
ghost use Rattle.spdx_c.specs.Owned.{rows_coded, loan_owns, seen_owns, seen_shares};

use spdx_catalogue::catalogue::Catalogue;
use std::marker::Model;
use std::ptr::null;

// Nothing, or the right to read the catalogue until the lifetime `life` ends.
#[repr(C)]
#[derive(Drop)]
pub struct Loan {
    at: *const u8,
    pub ghost held: { Option Rows } by { coded_option rows_coded },
    ghost life: { ℕ },
}

impl Model for Loan {
    ghost also_owns = { λ l. loan_owns l.at l.life l.held };
}

/// The right to read a catalogue that is lent.
#[derive(Drop)]
pub struct Seen {
    at: *const Catalogue,
    pub ghost rows: { Rows } by { rows_coded },
    ghost life: { ℕ },
}

impl Model for Seen {
    ghost also_owns = { λ s. seen_owns s.at s.life s.rows };

    ghost also_shares = { λ s _ κ. seen_shares s.at s.rows κ };
}

// Threads may read the catalogue at once.
unsafe impl Send for Loan {}

impl Loan {
    pub(crate) fn empty() -> Loan
        ensures { result.held ≡ None }
    {
        Loan { at: null() }
    }

    pub(crate) fn of_seen(seen: Seen) -> Loan
        ensures { result.held ≡ Some seen.rows }
    {
        let Seen { at } = seen;
        Loan {
            at: at as *const u8,
        }
    }

    pub(crate) fn into_seen(self) -> Seen
        requires { IsHeld self.held }
        ensures { self.held ≡ Some result.rows }
    {
        let Loan { at } = self;
        Seen {
            at: at as *const Catalogue,
        }
    }
}

impl Seen {
    /// The catalogue.
    pub fn get(&self) -> &Catalogue
        ensures { result.now ≡ self.now.rows }
    {
        unsafe { &*self.at }
    }
}
