//! What a turn of an operation comes to.

/// What a turn of an operation came to.
#[derive(Clone, Copy, Debug, PartialEq, Eq)]
pub enum Turn<T> {
    /// The operation is at its end, and this is its answer.
    Done(T),
    /// There is more to do.
    More,
    /// The word of the lock shows a holder that excludes this one: a later turn may find it let go.
    Again { lock: u32, word: u64 },
}
