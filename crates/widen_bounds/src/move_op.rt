//! What a move by turns keeps.
use crate::answers::MoveRefused;
use crate::widening::Widening;
use body_ident::BodyId;
use body_look::LookOp;
use fixed_box::FixBox;
use scene_model::Made;

/// How far a move is.
#[derive(Clone, Copy)]
pub(crate) enum MoveStage {
    /// The body is being looked at, under its stripe.
    Looking,
    /// It is live, and no batch holds it.
    Found,
    /// Its first location word is this.
    HalfLocated { first: u64 },
    /// The bounds from its locations up to the roots are being widened.
    Widening,
    /// The bounds are widened, and the word of this side of the box is stored next.
    Storing { side: u32 },
    /// The call answers this, once the stripe is let go.
    Leaving { answer: Result<(), MoveRefused> },
}

/// Moving a body by turns. The look at the body is made in place, and stays as it ended; so is the widening of bounds.
///
/// Its labels are `leaf`, with number 0, and `widened`, with number 1. At `leaf` the bound of the body's entry at its first
/// location contains the new box, and so does the bound of its node in the node above, where there is one. At `widened` all
/// bounds from its locations up to the roots do, and no box word is stored yet. A body without locations reaches both once
/// its locations are read.
#[derive(Drop)]
pub struct MoveOp {
    pub(crate) id: BodyId,
    pub(crate) to: FixBox,
    pub(crate) look: LookOp,
    pub(crate) widening: Widening,
    pub(crate) stage: MoveStage,
    /// The entry that the last turn made.
    pub(crate) made: Option<Made>,
}
