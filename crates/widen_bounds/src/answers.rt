//! Why a body is not moved.

/// Why a body was not given another box.
#[derive(Clone, Copy, Debug, PartialEq, Eq)]
pub enum MoveRefused {
    /// The id names no live body. The state word of its index is this.
    Gone { state: u64 },
    /// A batch holds the body. The word of its slot is this, which names a pass.
    Held { slot: u64 },
}

/// A batch holds the body that a guard has locked, and so it was not given another box. The word of its slot is this, which
/// names a pass.
#[derive(Clone, Copy, Debug, PartialEq, Eq)]
pub struct HeldAt {
    pub slot: u64,
}
