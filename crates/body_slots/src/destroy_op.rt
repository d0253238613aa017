//! What a destruction by turns keeps.
use crate::answers::DestroyRefused;
use body_ident::BodyId;
use body_look::LookOp;
use pass_table::TakeOp;
use scene_model::Made;

/// How far a destruction is.
#[derive(Clone, Copy)]
pub(crate) enum DestroyStage {
    /// The body is being looked at, under its stripe.
    Looking,
    /// The body is out, and the lock of the list is being taken.
    TakingList { taking: TakeOp },
    /// Both locks are held.
    Locked,
    /// The head of the list is this.
    Headed { head: u64 },
    /// It is the link of the index.
    Linked,
    /// The index is in front.
    InFront,
    /// The body is destroyed.
    Destroyed,
    /// The call answers this, once the stripe is let go.
    Leaving { answer: Result<(), DestroyRefused> },
}

/// Destroying a body by turns. The look at the body is made in place, and stays as it ended.
#[derive(Drop)]
pub struct DestroyOp {
    pub(crate) id: BodyId,
    pub(crate) look: LookOp,
    pub(crate) stage: DestroyStage,
    /// The entry that the last turn made.
    pub(crate) made: Option<Made>,
}
