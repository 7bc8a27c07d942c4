//! A stack of at most 64 truths, in one word.

ghost use Rattle.std.specs.Prelude.{◌≡◌, ◌<◌, ◌≤◌, [], ◌∷◌, length, ◌&&◌, ◌||◌};
ghost use Rattle.selections.specs.Truths.{join_newest};

use std::marker::Model;

/// A stack of at most 64 truths. It takes no memory and tests nothing, where [`crate::truths::Truths`] goes from word to word.
#[derive(Drop)]
pub struct WordTruths {
    word: u64,
    used: u32,
}

impl Model for WordTruths {
    ghost use Rattle.std.specs.Prelude.{◌^◌, ◌<◌, ◌≤◌, []};
    ghost use Rattle.selections.specs.Truths.{Stack, bits};

    ghost Value = { Stack };

    ghost view = { λ s. record { items = bits s.used s.word []; room = 64 } };

    ghost invariant = { λ s. (s.used ≤ 64) × (s.word < 2 ^ s.used) };
}

impl WordTruths {
    /// An empty stack.
    pub fn new() -> Self
        ensures empty { result.items ≡ [] }
        ensures room { result.room ≡ 64 }
    {
        WordTruths { word: 0, used: 0 }
    }

    /// Puts a truth on top.
    #[inline(always)]
    pub fn push(&mut self, truth: bool)
        requires { length self.old.items < self.old.room }
        ensures items { self.new.items ≡ truth ∷ self.old.items }
        ensures room { self.new.room ≡ self.old.room }
    {
        self.word = self.word * 2 + truth as u64;
        self.used += 1;
    }

    /// Takes the newest truth off.
    #[inline(always)]
    pub fn take(&mut self) -> bool
        requires { 0 < length self.old.items }
        ensures items { self.old.items ≡ result ∷ self.new.items }
        ensures room { self.new.room ≡ self.old.room }
    {
        let truth = self.word % 2 == 1;
        self.word /= 2;
        self.used -= 1;
        truth
    }

    /// Puts in place of the two newest truths whether both hold.
    #[inline(always)]
    pub fn both(&mut self)
        requires two { 2 ≤ length self.old.items }
        requires room { length self.old.items ≤ self.old.room }
        ensures items { self.new.items ≡ join_newest (λ left right. left && right) self.old.items }
        ensures room { self.new.room ≡ self.old.room }
    {
        let right = self.take();
        let left = self.take();
        self.push(left && right);
    }

    /// Puts in place of the two newest truths whether either holds.
    #[inline(always)]
    pub fn either(&mut self)
        requires two { 2 ≤ length self.old.items }
        requires room { length self.old.items ≤ self.old.room }
        ensures items { self.new.items ≡ join_newest (λ left right. left || right) self.old.items }
        ensures room { self.new.room ≡ self.old.room }
    {
        let right = self.take();
        let left = self.take();
        self.push(left || right);
    }
}
