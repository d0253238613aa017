//! What a removal by turns keeps.
use crate::answers::RemoveRefused;
use body_ident::BodyId;
use body_look::LookOp;
use scene_model::Made;

/// How far a removal is.
#[derive(Clone, Copy)]
pub(crate) enum RemoveStage {
    /// The body is being looked at, under its stripe.
    Looking,
    /// It is in the broad phase.
    Inside,
    /// Its first location word is this.
    HalfLocated { first: u64 },
    /// Its location words are these.
    Located { first: u64, second: u64 },
    /// It is out, and no entry is cleared.
    TakenOut { first: u64, second: u64 },
    /// Its entry at the first location is cleared.
    HalfCleared { first: u64, second: u64 },
    /// So is the one at the second, if there is one.
    Cleared { first: u64, second: u64 },
    /// The first location is 0.
    Forgotten { second: u64 },
    /// The call answers this, once the stripe is let go.
    Leaving { answer: Result<(), RemoveRefused> },
}

/// Taking a body out of the broad phase by turns. The look at the body is made in place, and stays as it ended.
///
/// Its one label is `out`, with number 0: the body is out, and no entry was cleared yet.
#[derive(Drop)]
pub struct RemoveOp {
    pub(crate) id: BodyId,
    pub(crate) look: LookOp,
    pub(crate) stage: RemoveStage,
    /// The entry that the last turn made.
    pub(crate) made: Option<Made>,
}
