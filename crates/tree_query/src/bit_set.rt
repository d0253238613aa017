//! Sets of numbers.
ghost use Rattle.std.specs.Prelude.{◌≡◌, ℕ, ◌+◌, ◌*◌, ◌^◌, ◌<◌, ◌≤◌, ◌==◌, true, false, if◌then◌else◌, length, IfOk, IfSome, IfNone};
ghost use Rattle.tree_query.specs.Indexes.{has_bit, IsFirst, HasNone, AreZeroOutside};

use crate::bits::{first_beside, put_in, take_out};
use std::alloc::{AllocError, Global};

/// A set of numbers below 64 times the number of its words, a bit for each, and where the words lie that are not 0. What
/// looks for numbers or clears the set reads no word beyond.
#[derive(Drop)]
pub(crate) struct BitSet {
    pub(crate) words: Vec<u64>,
    /// Words that are not 0 are from this one on.
    from: usize,
    /// They are before this one.
    to: usize,
    ghost few: { length words.items ≤ 2 ^ 17 },
    ghost within: { to ≤ length words.items },
    ghost outside: { AreZeroOutside words.items from to },
}

impl BitSet {
    /// No number, with room for 64 in each of so many words.
    pub(crate) fn new(alloc: Global, words: usize) -> Result<BitSet, AllocError>
        requires { words ≤ 2 ^ 17 }
        ensures none { IfOk result (λ set. (number : ℕ) → has_bit set.words.items number ≡ false) }
        ensures room { IfOk result (λ set. length set.words.items ≡ words) }
    {
        Ok(BitSet {
            words: vec![in alloc; 0; words]?,
            from: words,
            to: 0,
        })
    }

    /// Puts a number in.
    #[inline(always)]
    pub(crate) fn insert(&mut self, number: u32)
        requires { number < 64 * length self.old.words.items }
        ensures has { (other : ℕ) → has_bit self.new.words.items other ≡ if number == other then true else has_bit self.old.words.items other }
        ensures room { length self.new.words.items ≡ length self.old.words.items }
    {
        let word = (number / 64) as usize;
        put_in(&mut self.words, number);
        if word < self.from {
            self.from = word;
        }
        if self.to <= word {
            self.to = word + 1;
        }
    }

    /// Takes a number out.
    #[inline(always)]
    pub(crate) fn remove(&mut self, number: u32)
        requires { number < 64 * length self.old.words.items }
        ensures has { (other : ℕ) → has_bit self.new.words.items other ≡ if number == other then false else has_bit self.old.words.items other }
        ensures room { length self.new.words.items ≡ length self.old.words.items }
    {
        take_out(&mut self.words, number);
    }

    /// The first number that is in, from one on.
    #[inline(always)]
    pub(crate) fn first_from(&self, at: u32) -> Option<u32>
        ensures some { IfSome result (IsFirst (has_bit self.now.words.items) at) }
        ensures none { IfNone result (HasNone (has_bit self.now.words.items) at) }
    {
        let word = (at / 64) as usize;
        if word >= self.to {
            return None;
        }
        let beside = first_beside(&self.words, at);
        if beside.is_some() {
            return beside;
        }
        self.first_after(word)
    }

    /// The first number that is in, in the words after one.
    fn first_after(&self, before: usize) -> Option<u32>
        requires { before < self.now.to }
        ensures some { IfSome result (IsFirst (has_bit self.now.words.items) (64 * (before + 1))) }
        ensures none { IfNone result (HasNone (has_bit self.now.words.items) (64 * (before + 1))) }
    {
        let start = if before < self.from {
            self.from
        } else {
            before + 1
        };
        for word in start..self.to {
            let beside = first_beside(&self.words, word as u32 * 64);
            if beside.is_some() {
                return beside;
            }
        }
        None
    }

    /// Takes all numbers out.
    pub(crate) fn clear(&mut self)
        ensures none { (number : ℕ) → has_bit self.new.words.items number ≡ false }
        ensures room { length self.new.words.items ≡ length self.old.words.items }
    {
        for word in self.from..self.to {
            self.words[word] = 0;
        }
        self.from = self.words.len();
        self.to = 0;
    }
}
