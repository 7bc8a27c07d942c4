// Answers that were given lately, beside their lines.

ghost use Rattle.std.specs.Prelude.{◌≡◌, [], IfOk, IfSome};
ghost use Rattle.line_engine.specs.Rule.{Rule};
ghost use Rattle.spdx_lines.specs.Remembered.{IsAnswer, AreAnswers};

use std::alloc::{AllocError, Global};

const SLOTS: usize = 512;

// What is longer isn't remembered, so that all slots together hold 320 KiB at most.
const LONGEST_LINE: usize = 128;

const LONGEST_ANSWER: usize = 512;

/// A line and its answer, where it is used.
#[derive(Drop)]
pub(crate) struct Slot {
    is_used: bool,
    line: Vec<u8>,
    answer: Vec<u8>,
    is_refused: bool,
}

impl Slot {
    fn new(alloc: Global) -> Slot
        ensures { (rule : Rule) → IsAnswer rule result }
    {
        Slot {
            is_used: false,
            line: Vec::new(alloc),
            answer: Vec::new(alloc),
            is_refused: false,
        }
    }

    /// What was answered.
    pub(crate) fn answer(&self) -> &[u8]
        ensures { result.now ≡ self.now.answer.items }
    {
        &self.answer
    }

    /// Whether the line is refused.
    pub(crate) fn is_refused(&self) -> bool
        ensures { result ≡ self.now.is_refused }
    {
        self.is_refused
    }

    // Holds this line in place of another one; where memory is wanting, none.
    fn fill(&mut self, line: &[u8], answer: &[u8], is_refused: bool)
        ensures { (rule : Rule) → answer.now ≡ rule.text [] line.now →
            is_refused ≡ rule.refuses line.now → IsAnswer rule self.new }
    {
        self.is_used = false;
        self.is_refused = is_refused;
        self.line.clear();
        self.answer.clear();
        if self.line.extend_from_slice(line).is_ok()
            && self.answer.extend_from_slice(answer).is_ok()
        {
            self.is_used = true;
        }
    }
}

// A hash with eight bytes more; each of their bits tells in its high bits.
fn mixed(hash: u64, bytes: u64) -> u64 {
    (hash ^ bytes).wrapping_mul(0x9E37_79B9_7F4A_7C15)
}

fn hash_of(words: &[[u8; 8]]) -> u64 {
    let mut hash = 0;
    for word in words {
        hash = mixed(hash, u64::from_le_bytes(*word));
    }
    hash
}

// The slot of a line.
fn place_of(line: &[u8]) -> usize {
    let (words, rest) = line.as_chunks::<8>();
    let mut hash = hash_of(words);
    for byte in rest {
        hash = mixed(hash, u64::from(*byte));
    }
    ((hash >> 55) % SLOTS as u64) as usize
}

fn empty_slots(alloc: Global) -> Result<Vec<Slot>, AllocError>
    ensures { IfOk result (λ slots. (rule : Rule) → AreAnswers rule slots.items) }
{
    let mut slots = Vec::with_capacity(alloc, SLOTS)?;
    for _ in 0..SLOTS {
        slots.push(Slot::new(alloc))?;
    }
    Ok(slots)
}

/// Lines with their answers, one in each slot: a line takes the place of the one that was there.
#[derive(Drop)]
pub(crate) struct Remembered {
    slots: Vec<Slot>,
}

impl Remembered {
    pub(crate) fn new(alloc: Global) -> Remembered
        ensures { (rule : Rule) → AreAnswers rule result.slots.items }
    {
        Remembered {
            slots: Vec::new(alloc),
        }
    }

    /// The slot of this line, if the line is remembered.
    pub(crate) fn find(&self, line: &[u8]) -> Option<&Slot>
        ensures { IfSome result (λ slot. (rule : Rule) → AreAnswers rule self.now.slots.items →
            (slot.now.answer.items ≡ rule.text [] line.now)
            × (slot.now.is_refused ≡ rule.refuses line.now)) }
    {
        if line.len() > LONGEST_LINE {
            return None;
        }
        let slot = self.slots.get(place_of(line))?;
        if slot.is_used && *slot.line == *line {
            Some(slot)
        } else {
            None
        }
    }

    /// Remembers the answer to a line, if neither is long and memory is there.
    pub(crate) fn keep(&mut self, alloc: Global, line: &[u8], answer: &[u8], is_refused: bool)
        ensures { (rule : Rule) → AreAnswers rule self.old.slots.items →
            answer.now ≡ rule.text [] line.now → is_refused ≡ rule.refuses line.now →
            AreAnswers rule self.new.slots.items }
    {
        if line.len() > LONGEST_LINE || answer.len() > LONGEST_ANSWER {
            return;
        }
        if self.slots.is_empty() {
            match empty_slots(alloc) {
                Ok(slots) => self.slots = slots,
                Err(AllocError) => return,
            }
        }
        if let Some(slot) = self.slots.get_mut(place_of(line)) {
            slot.fill(line, answer, is_refused);
        }
    }
}
