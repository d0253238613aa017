//! What a look at a body by turns keeps.
use body_ident::BodyId;
use core_state::Mode;
use pass_table::TakeOp;

/// How far a look goes.
#[derive(Clone, Copy, Debug, PartialEq, Eq)]
pub enum LookDepth {
    /// It tells whether the body is live.
    Life,
    /// It tells its phase too.
    Phase,
}

/// How far it is.
#[derive(Clone, Copy)]
pub(crate) enum LookStage {
    /// The stripe of the body is being taken.
    Taking,
    /// The stripe is held.
    Striped,
    /// The body is live, and its phase is asked for.
    Live,
    /// Its phase word names this slot.
    Joining { slot: u32 },
    /// It is that slot of this layer.
    Placed { slot: u32, layer: u32 },
}

/// A look at a body by turns: its stripe is taken, and then its words tell what it is.
///
/// Each turn changes it in place: what it takes the stripe by stays where it is when the stripe is held.
#[derive(Clone, Copy)]
pub struct LookOp {
    pub(crate) id: BodyId,
    pub(crate) mode: Mode,
    pub(crate) depth: LookDepth,
    pub(crate) taking: TakeOp,
    pub(crate) stage: LookStage,
}
