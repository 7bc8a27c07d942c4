//! A stack of truths, packed 64 to a word.
//!
//! The contracts see a list, the newest truth first, and the room of the stack. How the truths lie in words is
//! private: a word is itself a small stack, whose lowest bit is its newest truth.

ghost use Rattle.std.specs.Prelude.{◌≡◌, ◌+◌, ◌*◌, ◌/◌, ◌^◌, ◌<◌, ◌≤◌, ℕ, Bool, List, [], ◌∷◌, ◌++◌, length, true, false, ◌&&◌, ◌||◌, IfOk, IsOk};
ghost use Rattle.selections.specs.Truths.{Stack, join_newest};

use smallvec::SmallVec;
use std::alloc::{AllocError, Global};
use std::marker::Model;

/// A stack of truths.
#[derive(Drop)]
pub struct Truths {
    full: SmallVec<u64, 1>,
    top: u64,
    used: u32,
}

impl Model for Truths {
    ghost use Rattle.std.specs.Prelude.{◌+◌, ◌*◌, ◌^◌, ◌<◌, ◌≤◌, []};
    ghost use Rattle.selections.specs.Truths.{Stack, bits, words_bits};

    ghost Value = { Stack };

    ghost view = { λ s. record {
      items = bits s.used s.top (words_bits s.full.items []);
      room = 64 * s.full.capacity + 64;
    } };

    ghost invariant = { λ s. (s.used ≤ 64) × (s.top < 2 ^ s.used) };
}

impl Truths {
    /// An empty stack with room for at least `count` truths. Fewer than 128 take no memory.
    pub fn with_room(alloc: Global, count: usize) -> Result<Self, AllocError>
        ensures empty { IfOk result (λ s. s.items ≡ []) }
        ensures room { IfOk result (λ s. count ≤ s.room) }
        ensures inline { count < 128 → IsOk result }
    {
        let full = SmallVec::with_capacity(alloc, count / 64)?;
        Ok(Truths {
            full,
            top: 0,
            used: 0,
        })
    }

    /// Puts a truth on top. The stack has room for it, so that no memory is taken.
    pub fn push(&mut self, truth: bool)
        requires { length self.old.items < self.old.room }
        ensures items { self.new.items ≡ truth ∷ self.old.items }
        ensures room { self.new.room ≡ self.old.room }
    {
        if self.used == 64 {
            self.full.push_reserved(self.top);
            self.top = 0;
            self.used = 0;
        }
        self.top = self.top * 2 + truth as u64;
        self.used += 1;
    }

    /// Takes the newest truth off, if there is one.
    pub fn pop(&mut self) -> Option<bool>
        ensures none { result ≡ None → (self.old.items ≡ []) × (self.new.items ≡ []) }
        ensures some { (truth : Bool) → result ≡ Some truth →
            self.old.items ≡ truth ∷ self.new.items }
        ensures room { self.new.room ≡ self.old.room }
    {
        if self.used == 0 {
            self.top = self.full.pop()?;
            self.used = 64;
        }
        let truth = self.top % 2 == 1;
        self.top /= 2;
        self.used -= 1;
        Some(truth)
    }

    /// Takes the newest truth off; the caller knows that there is one.
    pub fn take(&mut self) -> bool
        requires { 0 < length self.old.items }
        ensures items { self.old.items ≡ result ∷ self.new.items }
        ensures room { self.new.room ≡ self.old.room }
    {
        match self.pop() {
            Some(truth) => truth,
            None => unreachable!(),
        }
    }

    // Takes off the two newest truths, which nearly always lie in one word: the older one and the newer.
    fn take_two(&mut self) -> (bool, bool)
        requires { 2 ≤ length self.old.items }
        ensures items { self.old.items ≡ result.1 ∷ result.0 ∷ self.new.items }
        ensures room { self.new.room ≡ self.old.room }
    {
        if self.used < 2 {
            let right = self.take();
            return (self.take(), right);
        }
        let right = self.top % 2 == 1;
        let left = self.top / 2 % 2 == 1;
        self.top /= 4;
        self.used -= 2;
        (left, right)
    }

    /// Puts in place of the two newest truths whether both hold.
    pub fn both(&mut self)
        requires two { 2 ≤ length self.old.items }
        requires room { length self.old.items ≤ self.old.room }
        ensures items { self.new.items ≡ join_newest (λ left right. left && right) self.old.items }
        ensures room { self.new.room ≡ self.old.room }
    {
        let (left, right) = self.take_two();
        self.push(left && right);
    }

    /// Puts in place of the two newest truths whether either holds.
    pub fn either(&mut self)
        requires two { 2 ≤ length self.old.items }
        requires room { length self.old.items ≤ self.old.room }
        ensures items { self.new.items ≡ join_newest (λ left right. left || right) self.old.items }
        ensures room { self.new.room ≡ self.old.room }
    {
        let (left, right) = self.take_two();
        self.push(left || right);
    }

    /// Takes every truth off; the room stays.
    pub fn clear(&mut self)
        ensures items { self.new.items ≡ [] }
        ensures room { self.new.room ≡ self.old.room }
    {
        self.full.clear();
        self.top = 0;
        self.used = 0;
    }
}

#[cfg(test)]
mod tests {
    use super::*;
    use std::test::Fail;

    #[test]
    fn joins(rt: HostRuntime) -> Result<(), Fail> {
        let mut truths = Truths::with_room(rt.alloc(), 3)?;
        assert!(rt; truths.pop().is_none());
        truths.push(true);
        truths.push(false);
        truths.push(true);
        truths.both();
        truths.either();
        assert!(rt; truths.take());
        truths.push(true);
        truths.clear();
        assert!(rt; truths.pop().is_none());
        Ok(())
    }
}
