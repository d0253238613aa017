//! The answers of a try to take a lock.

/// What came of a try to take a lock. After a refusal the pass has just the locks that it had.
#[derive(Clone, Copy, Debug, PartialEq, Eq)]
pub enum Take {
    /// The pass has the lock.
    Taken,
    /// The word of the lock shows a holder that excludes this one.
    Busy { lock: u32, word: u64 },
    /// The word changed between the load, which found the first value, and the exchange, which found the second.
    Lost { first: u64, second: u64 },
}
