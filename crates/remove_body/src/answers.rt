//! Why a body is not removed.

/// Why a body was not taken out of the broad phase.
#[derive(Clone, Copy, Debug, PartialEq, Eq)]
pub enum RemoveRefused {
    /// The id names no live body. The state word of its index is this.
    Gone { state: u64 },
    /// The body is out of the broad phase already, and no batch holds it. Its phase word is this.
    NotIn { phase: u64 },
    /// A batch holds the body. The word of its slot is this, which names a pass.
    Held { slot: u64 },
}
