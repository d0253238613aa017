//! What taking a lock by turns keeps.
use core_state::Mode;

/// Taking a lock by turns: a load, and where its word shows nobody that excludes this one, an exchange.
#[derive(Clone, Copy)]
pub struct TakeOp {
    pub(crate) lock: u32,
    pub(crate) mode: Mode,
    /// The word that the last load found, until it is exchanged.
    pub(crate) loaded: Option<u64>,
}
