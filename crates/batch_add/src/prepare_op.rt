//! What preparing a batch by turns keeps.
use crate::giving_up::GivingUp;
use crate::mark_op::{MarkRefused, Marking};
use crate::node_taking::NodeTaking;
use crate::slot_search::SlotSearch;
use crate::tree_drawing::TreeDrawing;
use std::alloc::Global;
use tree_bounds::TreeBounds;
use tree_plan::Planner;

/// Why what was done is undone.
#[derive(Clone, Copy)]
pub(crate) enum Undone {
    /// Fewer nodes were free than the tree needs.
    NoNodes { free: u32 },
    /// The id at this place is refused.
    Mark { at: u32, refused: MarkRefused },
}

/// How far a preparation is.
#[derive(Clone, Copy)]
pub(crate) enum PrepareStage {
    /// There are no bodies.
    Empty,
    /// A slot is being looked for.
    Searching,
    /// It is reserved, and nodes are being taken.
    TakingNodes,
    /// They are taken, and the bodies are being marked.
    Marking,
    /// All bodies are marked, and their tree is being drawn.
    Drawing,
    /// It is refused, and what was done is being undone.
    GivingUp { undone: Undone },
}

/// What the tree over the bodies is planned with.
#[derive(Drop)]
pub(crate) struct Plans {
    pub(crate) planner: Planner,
    pub(crate) bounds: TreeBounds,
}

/// Preparing a batch by turns.
///
/// It keeps each of its parts from the beginning, with all the room that it needs, and the stage tells which one is under
/// way. The bodies stay held, and the slot and the nodes the pass's, where it is dropped between two turns.
#[derive(Drop)]
pub struct PrepareOp {
    pub(crate) alloc: Global,
    pub(crate) layer: u32,
    pub(crate) slot: u32,
    pub(crate) stage: PrepareStage,
    pub(crate) search: SlotSearch,
    pub(crate) taking: NodeTaking,
    pub(crate) marking: Marking,
    pub(crate) plans: Option<Plans>,
    pub(crate) drawing: Option<TreeDrawing>,
    pub(crate) giving: Option<GivingUp>,
    /// The indexes of the ids, in order.
    pub(crate) indexes: Vec<u32>,
}
