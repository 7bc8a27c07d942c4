// A place for a catalogue: nothing, or the catalogue that a pointer leads to and that the place owns.

ghost use Rattle.std.specs.Prelude.{◌≡◌, Option, None, Some};
ghost use Rattle.std.specs.Coded.{coded_option};
ghost use Rattle.spdx_requirement.specs.Rows.{Rows};
ghost use Rattle.spdx_c.specs.Held.{IsHeld};
ghost use Rattle.spdx_c.specs.Owned.{rows_coded, slot_owns};

use crate::parts::Parts;
use spdx_catalogue::catalogue::Catalogue;
use std::alloc::Global;
use std::marker::Model;
use std::ptr::null_mut;

// Its drop forgets the catalogue, so it is let go only where it is empty.
#[repr(C)]
#[derive(Drop)]
pub struct Slot {
    at: *mut u8,
    pub ghost held: { Option Rows } by { coded_option rows_coded },
}

impl Model for Slot {
    ghost also_owns = { λ s. slot_owns s.at s.held };
}

// The catalogue may go to another thread, and C's heap frees the block on any.
unsafe impl Send for Slot {}

impl Slot {
    pub(crate) fn empty() -> Slot
        ensures { result.held ≡ None }
    {
        Slot { at: null_mut() }
    }

    pub(crate) fn of_parts(parts: Parts<Catalogue, Global>) -> Slot
        ensures { result.held ≡ Some parts.value }
    {
        let Parts { ptr, alloc: _ } = parts;
        Slot { at: ptr as *mut u8 }
    }

    pub(crate) fn into_parts(self, alloc: Global) -> Parts<Catalogue, Global>
        requires { IsHeld self.held }
        ensures { self.held ≡ Some result.value }
    {
        let Slot { at } = self;
        Parts {
            ptr: at as *mut Catalogue,
            alloc,
        }
    }
}
