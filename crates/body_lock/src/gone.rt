//! Why a body is not locked.

/// The id names no live body: the state word of its index, read under the lock, is this. It is below 256 where no body is
/// live there; else it has the sequence number of another one.
#[derive(Clone, Copy, Debug, PartialEq, Eq)]
pub struct Gone {
    pub state: u64,
}
