//! What a creation by turns keeps.
use crate::answers::Full;
use body_ident::BodyId;
use fixed_box::FixBox;
use pass_table::TakeOp;
use scene_model::Made;

/// How far a creation is.
#[derive(Clone, Copy)]
pub(crate) enum CreateStage {
    /// The lock of the list is being taken.
    Taking { taking: TakeOp },
    /// The lock is held.
    Locked,
    /// The head of the list names this index.
    First { index: u32 },
    /// Its link is this.
    Linked { index: u32, link: u64 },
    /// It is taken off the list.
    Taken { index: u32 },
    /// Its state word is this, and so many words of the body are stored.
    Fields { index: u32, state: u64, stored: u32 },
    /// All of them are.
    Filled { index: u32, state: u64 },
    /// The call answers this, once the lock is let go.
    Leaving { answer: Result<BodyId, Full> },
}

/// Creating a body by turns.
#[derive(Drop)]
pub struct CreateOp {
    pub(crate) layer: u32,
    pub(crate) bounds: FixBox,
    pub(crate) user: u32,
    pub(crate) stage: CreateStage,
    /// The entry that the last turn made.
    pub(crate) made: Option<Made>,
}
