// Where an expression that is kept may stand, by a hash of its tree: hints, of which nothing is claimed.

use spdx::expression::{ExprNode, Operator};
use spdx::{AdditionItem, Expression, LicenseItem};
use std::alloc::{AllocError, Global};

/// So many hints are looked at for one expression, and no more, whatever the hashes are.
pub(crate) const LONGEST_RUN: usize = 64;

const FEWEST_SLOTS: usize = 1024;

// The place of a slot that is not used: no expression stands there.
const NOWHERE: u32 = 0xFFFF_FFFF;

// What the operators are in a hash, where a licence is a small number.
const AND: u64 = 0xFFFF_FFFF_0000_0001;

const OR: u64 = 0xFFFF_FFFF_0000_0002;

/// The place of an expression, and its hash, by which most others are told from it.
#[derive(Clone, Copy)]
pub(crate) struct Hint {
    pub(crate) hash: u32,
    pub(crate) place: u32,
}

// A hash with one more part.
fn mixed(hash: u64, part: u64) -> u64 {
    (hash.rotate_left(5) ^ part).wrapping_mul(0x9E37_79B9_7F4A_7C15)
}

fn with_text(hash: u64, text: &str) -> u64 {
    let (words, rest) = text.as_bytes().as_chunks::<8>();
    let mut hash = mixed(hash, text.len() as u64);
    for word in words {
        hash = mixed(hash, u64::from_le_bytes(*word));
    }
    for byte in rest {
        hash = mixed(hash, u64::from(*byte));
    }
    hash
}

fn with_reference(hash: u64, document: &Option<String>, name: &str) -> u64 {
    match document {
        Some(document) => with_text(with_text(hash, document.as_str()), name),
        None => with_text(hash, name),
    }
}

fn with_license(hash: u64, license: &LicenseItem<'_>) -> u64 {
    match license {
        LicenseItem::Spdx { id, or_later } => {
            let row = id.license().index.wrapping_mul(2);
            mixed(hash, row.wrapping_add(usize::from(*or_later)) as u64)
        }
        LicenseItem::Other(reference) => {
            with_reference(hash, &reference.doc_ref, reference.lic_ref.as_str())
        }
    }
}

fn with_addition(hash: u64, addition: &AdditionItem<'_>) -> u64 {
    match addition {
        AdditionItem::Spdx(exception) => mixed(hash, !(exception.exception().index as u64)),
        AdditionItem::Other(reference) => {
            with_reference(hash, &reference.doc_ref, reference.add_ref.as_str())
        }
    }
}

fn with_node(hash: u64, node: &ExprNode<'_>) -> u64 {
    match node {
        ExprNode::Op(Operator::And) => mixed(hash, AND),
        ExprNode::Op(Operator::Or) => mixed(hash, OR),
        ExprNode::Req(requirement) => {
            let hash = with_license(hash, &requirement.req.license);
            match &requirement.req.addition {
                Some(addition) => with_addition(hash, addition),
                None => hash,
            }
        }
    }
}

/// The same for equal expressions.
pub(crate) fn hash_of(expression: &Expression<'_>) -> u32 {
    let mut hash = 0;
    for node in expression.iter() {
        hash = with_node(hash, node);
    }
    ((mixed(hash, hash >> 32) >> 32) % 0x1_0000_0000) as u32
}

// The slot of this hash behind so many others, where a power of two of them is there.
fn slot_of(hash: u32, step: usize, count: usize) -> usize {
    (hash as usize).wrapping_add(step) & count.wrapping_sub(1)
}

fn empty_slots(alloc: Global, count: usize) -> Result<Vec<Hint>, AllocError> {
    let mut slots = Vec::with_capacity(alloc, count)?;
    for _ in 0..count {
        slots.push(Hint {
            hash: 0,
            place: NOWHERE,
        })?;
    }
    Ok(slots)
}

// Puts the hint into the first free slot of its run, if there is one.
fn put(slots: &mut Vec<Hint>, hint: Hint) {
    for step in 0..LONGEST_RUN {
        let place = slot_of(hint.hash, step, slots.len());
        if let Some(slot) = slots.get_mut(place)
            && slot.place == NOWHERE
        {
            *slot = hint;
            return;
        }
    }
}

/// Hints in slots: each stands in the slot of its hash, or in one behind it, with no free one between.
#[derive(Drop)]
pub(crate) struct Hints {
    slots: Vec<Hint>,
    count: usize,
}

impl Hints {
    pub(crate) fn new(alloc: Global) -> Hints {
        Hints {
            slots: Vec::new(alloc),
            count: 0,
        }
    }

    /// The hint in the slot of this hash, or so many behind it. None where the slot is free: no hint for this hash stands
    /// behind it.
    pub(crate) fn at(&self, hash: u32, step: usize) -> Option<Hint> {
        let hint = *self.slots.get(slot_of(hash, step, self.slots.len()))?;
        if hint.place == NOWHERE {
            None
        } else {
            Some(hint)
        }
    }

    /// Notes that an expression with this hash stands at this place.
    pub(crate) fn note(
        &mut self,
        alloc: Global,
        hash: u32,
        place: usize,
    ) -> Result<(), AllocError> {
        if place >= NOWHERE as usize {
            return Ok(());
        }
        if self.count / 3 >= self.slots.len() / 4 {
            self.grow(alloc)?;
        }
        let place = place as u32;
        put(&mut self.slots, Hint { hash, place });
        self.count = self.count.saturating_add(1);
        Ok(())
    }

    // Twice as many slots. A quarter of them and more stays free, so that runs are short.
    fn grow(&mut self, alloc: Global) -> Result<(), AllocError> {
        let count = self.slots.len().saturating_mul(2).max(FEWEST_SLOTS);
        let mut slots = empty_slots(alloc, count)?;
        for hint in &self.slots {
            if hint.place != NOWHERE {
                put(&mut slots, *hint);
            }
        }
        self.slots = slots;
        Ok(())
    }
}
