//! What a look at a body finds.
ghost use Rattle.std.specs.Prelude.{◌≡◌};
ghost use Rattle.body_look.specs.Found.{phase_found};

use scene_model::Phase;

/// What was found of the body of an id, with the words that say so.
#[derive(Clone, Copy, Debug, PartialEq, Eq)]
pub enum BodyFound {
    /// The id names no live body: the state word of its index is this.
    Gone { state: u64 },
    /// The body is live. Its phase was not asked for.
    Live,
    /// It is out of the broad phase, and no batch holds it.
    Out,
    /// It is in the broad phase, and its phase word names no slot.
    In,
    /// It is held for the batch of this slot of its layer: the word of the slot is this, which names a pass.
    Held { layer: u32, slot: u32, word: u64 },
    /// It is in the broad phase, with the batch of this slot of its layer: the word of the slot is this, which names a
    /// tree.
    Joined { layer: u32, slot: u32, word: u64 },
}

impl BodyFound {
    /// The phase, where the body is live and its phase was asked for.
    #[inline]
    pub fn phase(&self) -> Option<Phase>
        ensures { result ≡ phase_found self.now }
    {
        match self {
            BodyFound::Gone { .. } | BodyFound::Live => None,
            BodyFound::Out => Some(Phase::Out),
            BodyFound::Held { .. } => Some(Phase::Held),
            BodyFound::In | BodyFound::Joined { .. } => Some(Phase::In),
        }
    }
}
