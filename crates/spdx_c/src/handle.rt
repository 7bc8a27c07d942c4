//! The handle that C keeps, and what it hands in to read the list.
//!
//! Both are a pointer and a number, and all zeroes stand for a handle with no list.

ghost use Rattle.std.specs.Prelude.{◌≡◌, ◌==◌, None, Some, IfSome, is_some};

use crate::loan::{Loan, Seen};
use crate::parts::Parts;
use crate::slot::Slot;
use spdx_catalogue::catalogue::Catalogue;
use std::alloc::Global;
use std::mem::replace;

// What the number of an open handle is. In one that C made, all zeroes, it is another.
const OPEN: u32 = 1;

const CLOSED: u32 = 0;

/// A list that was read and is owned, or none.
///
/// C hands it to one call at a time: as all zeroes, or as the last call left it, while no `ListLoan` of it is in use.
/// Its drop forgets the list: `take` it first.
#[repr(C)]
#[derive(Drop)]
pub struct ListHandle {
    pub(crate) slot: Slot,
    pub(crate) state: u32,
    ghost tells: { (state == 1) ≡ is_some slot.held },
}

/// A list that is lent, or none.
///
/// C hands in the copy of a `ListHandle` whose list stays until the call has ended. Many calls may have such copies at
/// once.
#[repr(C)]
#[derive(Drop)]
pub struct ListLoan {
    pub(crate) loan: Loan,
    pub(crate) state: u32,
    ghost tells: { (state == 1) ≡ is_some loan.held },
}

impl ListHandle {
    ghost use Rattle.spdx_c.specs.Lists.{rows_of};

    /// Whether there is a list.
    pub fn is_open(&self) -> bool
        ensures { result ≡ is_some (rows_of self.now) }
    {
        self.state == OPEN
    }

    /// Takes this list, where there was none.
    pub fn put(&mut self, list: Box<Catalogue, Global>)
        requires { rows_of self.old ≡ None }
        ensures { rows_of self.new ≡ Some list.value }
    {
        *self = ListHandle {
            slot: Slot::of_parts(Parts::of(list)),
            state: OPEN,
        };
    }

    /// Gives the list up, if there is one.
    pub fn take(&mut self, alloc: Global) -> Option<Box<Catalogue, Global>>
        ensures closed { rows_of self.new ≡ None }
        ensures some { IfSome result (λ list. rows_of self.old ≡ Some list.value) }
        ensures none { is_some result ≡ is_some (rows_of self.old) }
    {
        if self.state != OPEN {
            return None;
        }
        let none = ListHandle {
            slot: Slot::empty(),
            state: CLOSED,
        };
        let ListHandle { slot, state: _ } = replace(self, none);
        Some(slot.into_parts(alloc).into_box())
    }
}

impl ListLoan {
    ghost use Rattle.spdx_c.specs.Lists.{rows_lent};

    /// Takes the right to read the list, if there is one.
    pub fn take(&mut self) -> Option<Seen>
        ensures empty { rows_lent self.new ≡ None }
        ensures some { IfSome result (λ seen. rows_lent self.old ≡ Some seen.rows) }
        ensures none { is_some result ≡ is_some (rows_lent self.old) }
    {
        if self.state != OPEN {
            return None;
        }
        let none = ListLoan {
            loan: Loan::empty(),
            state: CLOSED,
        };
        let ListLoan { loan, state: _ } = replace(self, none);
        Some(loan.into_seen())
    }

    /// Puts the right to read the list back.
    pub fn put_back(&mut self, seen: Seen)
        ensures { rows_lent self.new ≡ Some seen.rows }
    {
        *self = ListLoan {
            loan: Loan::of_seen(seen),
            state: OPEN,
        };
    }
}
