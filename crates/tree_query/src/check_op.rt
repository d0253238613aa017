//! What the check of a candidate by turns keeps.
use pass_table::TakeOp;

/// How far a check is.
#[derive(Clone, Copy)]
pub(crate) enum CheckStage {
    /// The stripe of the body is being taken.
    Taking { taking: TakeOp },
    /// The stripe is held.
    Striped,
    /// A body is live at the index, with this sequence number.
    Live { sequence: u8 },
    /// Its phase word names this slot.
    Joining { sequence: u8, slot: u32 },
    /// It is that slot of this layer.
    Placed { sequence: u8, slot: u32, layer: u32 },
    /// It is in the broad phase.
    Inside { sequence: u8 },
    /// It lies in an asked layer, and so many sides of its box are loaded.
    Sides { sequence: u8, loaded: u32 },
    /// The check answers this, once the stripe is let go.
    Leaving { answer: Option<u8> },
}

/// The check of the body at an index by turns: its stripe is taken to read, then its words tell whether it is a hit, and then
/// the stripe is let go.
#[derive(Clone, Copy)]
pub(crate) struct Check {
    pub(crate) index: u32,
    pub(crate) stage: CheckStage,
    /// The first ones are the sides of its box that are loaded.
    pub(crate) words: [u64; 6],
}
