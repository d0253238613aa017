//! What marking the bodies of a batch by turns keeps.
use body_ident::BodyId;
use body_look::LookOp;
use fixed_box::FixBox;
use scene_model::Made;

/// Why a body was not marked, with the word that says so.
#[derive(Clone, Copy)]
pub(crate) enum MarkRefused {
    /// The id names no live body. The state word of its index is this.
    Gone { state: u64 },
    /// The body is held for a batch. The word of that batch's slot is this.
    Held { slot: u64 },
    /// The body is in the broad phase. Its phase word is this.
    AlreadyIn { phase: u64 },
    /// The body is in this other layer.
    WrongLayer { layer: u64 },
}

/// How far the marks are.
#[derive(Clone, Copy)]
pub(crate) enum MarkStage {
    /// The next body is being looked at, under its stripe.
    Looking,
    /// The body is out of the broad phase, and no batch holds it.
    Outside,
    /// It is in the layer of the batch, and so many sides of its box are loaded.
    Sides { words: [u64; 6], loaded: u32 },
    /// Its box is this.
    Boxed { bounds: FixBox },
    /// It is marked, and this stripe is to be let go.
    Leaving { stripe: u32 },
    /// It is not, for this reason, and its stripe is to be let go.
    Refusing { refused: MarkRefused },
}

/// Marking the bodies of some ids by turns, in order, for the newest batch of the pass.
#[derive(Drop)]
pub(crate) struct Marking {
    /// The layer and the slot of the batch.
    pub(crate) layer: u32,
    pub(crate) slot: u32,
    pub(crate) ids: Vec<BodyId>,
    /// As many as there are ids. The first ones are the bodies that are marked, with their boxes.
    pub(crate) bodies: Vec<(u32, FixBox)>,
    /// So many are marked.
    pub(crate) marked: u32,
    /// The look at the next body; while that body is marked, the one that has ended.
    pub(crate) look: LookOp,
    pub(crate) stage: MarkStage,
    /// The entry that the last turn made.
    pub(crate) made: Option<Made>,
}
