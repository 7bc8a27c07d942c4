// What is known of expressions that came lately.

ghost use Rattle.std.specs.Prelude.{ℕ, IfOk, IfSome, List};
ghost use Rattle.spdx_check.specs.declared.check.Check.{Check};
ghost use Rattle.spdx_check.specs.Known.{IsKnownOf, IsHeld, AreHeld};

use crate::known::Known;
use std::alloc::{AllocError, Global};

// Most runs have few expressions: room for those is made first, and takes little time.
const FEW: usize = 16;

const SLOTS: usize = 1024;

// What is longer isn't remembered, so that the slots stay small.
const LONGEST: usize = 128;

/// An expression and what is known of it, where the slot is used.
#[derive(Drop)]
pub(crate) struct Slot<'c> {
    is_used: bool,
    expression: Vec<u8>,
    known: Known<'c>,
}

impl<'c> Slot<'c> {
    fn new(alloc: Global) -> Slot<'c>
        ensures { (check : Check) (file : List ℕ) → IsHeld check file result }
    {
        Slot {
            is_used: false,
            expression: Vec::new(alloc),
            known: Known::Accepted,
        }
    }

    // Holds this expression in place of another one; where memory is wanting, none.
    fn fill(&mut self, expression: &[u8], known: Known<'c>)
        ensures { (check : Check) (file : List ℕ) →
            IsKnownOf check file expression.now known.entry → IsHeld check file self.new }
    {
        self.is_used = false;
        self.known = known;
        self.expression.clear();
        if self.expression.extend_from_slice(expression).is_ok() {
            self.is_used = true;
        }
    }
}

// One more part of a hash.
fn mixed(hash: u64, part: u64) -> u64 {
    (hash.rotate_left(5) ^ part).wrapping_mul(0x9e37_79b9_7f4a_7c15)
}

// Up to seven bytes as one part.
fn part_of(bytes: &[u8]) -> u64 {
    let mut part = 0u64;
    for byte in bytes {
        part = part.wrapping_mul(256) ^ u64::from(*byte);
    }
    part
}

// By eight bytes at a time, since each line is hashed.
fn hash_of(expression: &[u8]) -> u64 {
    let (parts, rest) = expression.as_chunks::<8>();
    let mut hash = part_of(rest);
    for part in parts {
        hash = mixed(hash, u64::from_le_bytes(*part));
    }
    mixed(hash, expression.len() as u64)
}

// The two slots that an expression may stand in, of this many, which are a power of two.
fn places_of(expression: &[u8], slots: usize) -> (usize, usize) {
    let hash = hash_of(expression);
    let last = slots.wrapping_sub(1);
    ((hash >> 32) as usize & last, (hash >> 48) as usize & last)
}

fn empty_slots<'c>(alloc: Global, count: usize) -> Result<Vec<Slot<'c>>, AllocError>
    ensures { IfOk result (λ slots. (check : Check) (file : List ℕ) →
        AreHeld check file slots.items) }
{
    let mut slots = Vec::with_capacity(alloc, count)?;
    for _ in 0..count {
        slots.push(Slot::new(alloc))?;
    }
    Ok(slots)
}

/// Expressions with what is known of them, one in each slot. An expression that finds both of its slots used takes the
/// place of the one in the first.
#[derive(Drop)]
pub(crate) struct Remembered<'c> {
    slots: Vec<Slot<'c>>,
    // How many expressions were kept so far.
    kept: usize,
}

impl<'c> Remembered<'c> {
    pub(crate) fn new(alloc: Global) -> Remembered<'c>
        ensures { (check : Check) (file : List ℕ) → AreHeld check file result.slots.items }
    {
        Remembered {
            slots: Vec::new(alloc),
            kept: 0,
        }
    }

    /// What is known of this expression, if it is remembered.
    pub(crate) fn find(&self, expression: &[u8]) -> Option<&Known<'c>>
        ensures { IfSome result (λ known. (check : Check) (file : List ℕ) →
            AreHeld check file self.now.slots.items →
            IsKnownOf check file expression.now known.now) }
    {
        if expression.len() > LONGEST {
            return None;
        }
        let (first, second) = places_of(expression, self.slots.len());
        match self.held_at(first, expression) {
            Some(known) => Some(known),
            None => self.held_at(second, expression),
        }
    }

    fn held_at(&self, place: usize, expression: &[u8]) -> Option<&Known<'c>>
        ensures { IfSome result (λ known. (check : Check) (file : List ℕ) →
            AreHeld check file self.now.slots.items →
            IsKnownOf check file expression.now known.now) }
    {
        let slot = self.slots.get(place)?;
        if slot.is_used && *slot.expression == *expression {
            Some(&slot.known)
        } else {
            None
        }
    }

    fn is_free(&self, place: usize) -> bool {
        self.slots.get(place).is_some_and(|slot| !slot.is_used)
    }

    // The slot that an expression takes.
    fn place_for(&self, expression: &[u8]) -> usize {
        let (first, second) = places_of(expression, self.slots.len());
        if self.is_free(first) || !self.is_free(second) {
            first
        } else {
            second
        }
    }

    // How many slots there are to be.
    fn wanted(&self) -> usize {
        if self.kept < FEW { FEW } else { SLOTS }
    }

    // Makes few slots where there are none, and many behind few expressions, which are forgotten then. Says whether there are any.
    fn has_slots(&mut self, alloc: Global) -> bool
        ensures { (check : Check) (file : List ℕ) → AreHeld check file self.old.slots.items →
            AreHeld check file self.new.slots.items }
    {
        let wanted = self.wanted();
        if self.slots.len() >= wanted {
            return true;
        }
        match empty_slots(alloc, wanted) {
            Ok(slots) => {
                self.slots = slots;
                true
            }
            Err(AllocError) => !self.slots.is_empty(),
        }
    }

    /// Remembers what is known of an expression, if it isn't long and memory is there.
    pub(crate) fn keep(&mut self, alloc: Global, expression: &[u8], known: Known<'c>)
        ensures { (check : Check) (file : List ℕ) → AreHeld check file self.old.slots.items →
            IsKnownOf check file expression.now known.entry →
            AreHeld check file self.new.slots.items }
    {
        if expression.len() > LONGEST {
            return;
        }
        if !self.has_slots(alloc) {
            return;
        }
        self.kept = self.kept.saturating_add(1);
        let place = self.place_for(expression);
        if let Some(slot) = self.slots.get_mut(place) {
            slot.fill(expression, known);
        }
    }
}
