//! What locking a body by turns keeps.
use body_ident::BodyId;
use body_look::LookOp;
use core_state::Mode;

/// How far it is.
#[derive(Clone, Copy)]
pub(crate) enum LockStage {
    /// The body is looked at, under its stripe.
    Looking,
    /// The body is gone: its state word is this. The stripe is to be let go.
    Leaving { state: u64 },
}

/// Locking a body by turns: a look takes its stripe and tells whether the body is the one that is meant.
#[derive(Clone, Copy)]
pub(crate) struct LockOp {
    pub(crate) id: BodyId,
    pub(crate) mode: Mode,
    pub(crate) look: LookOp,
    pub(crate) stage: LockStage,
}
