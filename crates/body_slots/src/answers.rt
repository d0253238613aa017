//! Why a body is not created or not destroyed.
use scene_model::Phase;

/// At each index a body is live: the head of the list of free indexes names none.
#[derive(Clone, Copy, Debug, PartialEq, Eq)]
pub struct Full {
    pub head: u64,
}

/// Why a body was not destroyed.
#[derive(Clone, Copy, Debug, PartialEq, Eq)]
pub enum DestroyRefused {
    /// The id names no live body. The state word of its index is this.
    Gone { state: u64 },
    /// The body is held by a batch, or in the broad phase.
    InUse { phase: Phase },
}
