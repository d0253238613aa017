//! Sets of locks.
ghost use Rattle.std.specs.Prelude.{◌≡◌, ◌↔◌, ℕ, true, ◌<◌, ◌==◌, if◌then◌else◌};
ghost use Rattle.std.specs.Int.{bit_at};
ghost use Rattle.pass_table.specs.LockSets.{bit_of, bit_in, IsChanged};

/// A set of the locks of a world, a bit for each.
///
/// It has two words and no array, so that the sets of a pass that is a function's own variable can stay in registers
/// from step to step.
#[derive(Clone, Copy)]
pub(crate) struct LockSet {
    /// The locks below 64.
    low: u64,
    /// The locks from 64 on.
    high: u64,
}

impl LockSet {
    /// No lock.
    pub(crate) fn none() -> LockSet
        ensures { (lock : ℕ) → bit_in result lock ≡ 0 }
    {
        LockSet { low: 0, high: 0 }
    }

    /// Whether no lock is in the set.
    pub(crate) fn is_empty(&self) -> bool
        ensures { (result ≡ true) ↔ ((lock : ℕ) → bit_in self.now lock ≡ 0) }
    {
        are_empty(self.low, self.high)
    }

    /// Whether the lock is in the set.
    #[inline(always)]
    pub(crate) fn has(&self, lock: u32) -> bool
        requires { lock < 66 }
        ensures { (result ≡ true) ↔ (bit_in self.now lock ≡ 1) }
    {
        if lock < 64 {
            has_bit(self.low, lock)
        } else {
            has_bit(self.high, lock - 64)
        }
    }

    /// Puts a lock in.
    #[inline(always)]
    pub(crate) fn insert(&mut self, lock: u32)
        requires { lock < 66 }
        ensures { IsChanged self.old lock 1 self.new }
    {
        if lock < 64 {
            self.low = with_bit(self.low, lock);
        } else {
            self.high = with_bit(self.high, lock - 64);
        }
    }

    /// Takes a lock out.
    #[inline(always)]
    pub(crate) fn remove(&mut self, lock: u32)
        requires { lock < 66 }
        ensures { IsChanged self.old lock 0 self.new }
    {
        if lock < 64 {
            self.low = without_bit(self.low, lock);
        } else {
            self.high = without_bit(self.high, lock - 64);
        }
    }
}

/// Whether no bit is set in the two words of a set.
fn are_empty(low: u64, high: u64) -> bool
    ensures { (result ≡ true) ↔ ((lock : ℕ) → bit_of low high lock ≡ 0) }
{
    low == 0 && high == 0
}

/// Whether a bit is set.
#[inline(always)]
fn has_bit(word: u64, at: u32) -> bool
    requires { at < 64 }
    ensures { (result ≡ true) ↔ (bit_at word at ≡ 1) }
{
    (word >> at) & 1 == 1
}

/// The word with a bit set.
#[inline(always)]
fn with_bit(word: u64, at: u32) -> u64
    requires { at < 64 }
    ensures { (other : ℕ) → bit_at result other ≡ if at == other then 1 else bit_at word other }
{
    word | (1u64 << at)
}

/// The word with a bit cleared.
#[inline(always)]
fn without_bit(word: u64, at: u32) -> u64
    requires { at < 64 }
    ensures { (other : ℕ) → bit_at result other ≡ if at == other then 0 else bit_at word other }
{
    word & !(1u64 << at)
}
