//! Answers of both sides, in one form.
use batch_add::PrepareRefused;
use body_ident::BodyId;
use body_lock::Gone;
use body_slots::{DestroyRefused, Full};
use remove_body::RemoveRefused;
use scene_model::{BodyView, Phase};
use widen_bounds::MoveRefused;

/// Why a call is refused, with what it tells. `at` is the place of the id in the list that is refused, 0 where there is no list.
#[derive(Clone, Copy, Debug, PartialEq, Eq)]
pub(crate) enum Refusal {
    /// There was not enough memory. The plain scene never says so.
    Memory,
    /// At each index a body is live.
    Full { head: u64 },
    /// The id names no live body; the state word of its index is this.
    Gone { at: u32, state: u64 },
    /// The body is in this phase and cannot be destroyed.
    InUse { phase: Phase },
    /// The body is out, and its phase word is this.
    NotIn { phase: u64 },
    /// A batch holds the body; the word of its slot is this.
    Held { at: u32, slot: u64 },
    /// The body is in the broad phase.
    AlreadyIn { at: u32 },
    /// The body is in this other layer.
    WrongLayer { at: u32, layer: u64 },
    /// The list of ids is empty.
    Empty,
    /// This many slots of the layer are in use, which is all of them.
    NoSlot { used: u32 },
    /// The tree needs so many nodes, and fewer are free.
    NoNodes { need: u32, free: u32 },
}

/// What a call answers.
#[derive(Clone, Copy, Debug, PartialEq, Eq)]
pub(crate) enum Answer {
    /// It was done.
    Done,
    /// A body was created, with this id.
    Id(BodyId),
    /// A body was seen so.
    Seen(BodyView),
    /// So many bodies were found.
    Found { ids: u32 },
    /// It was refused.
    Refused(Refusal),
    /// One side has no such answer.
    Other,
}

/// What both sides answer to a call.
#[derive(Clone, Copy)]
pub(crate) struct Answers {
    pub(crate) shared: Answer,
    pub(crate) plain: Answer,
}

impl Answer {
    /// The answer of a creation.
    pub(crate) fn of_create(made: Result<BodyId, Full>) -> Answer {
        match made {
            Ok(id) => Answer::Id(id),
            Err(full) => Answer::Refused(Refusal::Full { head: full.head }),
        }
    }

    /// The answer of a destruction.
    pub(crate) fn of_destroy(done: Result<(), DestroyRefused>) -> Answer {
        match done {
            Ok(()) => Answer::Done,
            Err(DestroyRefused::Gone { state }) => Answer::Refused(Refusal::Gone { at: 0, state }),
            Err(DestroyRefused::InUse { phase }) => Answer::Refused(Refusal::InUse { phase }),
        }
    }

    /// The answer of a removal.
    pub(crate) fn of_remove(done: Result<(), RemoveRefused>) -> Answer {
        match done {
            Ok(()) => Answer::Done,
            Err(RemoveRefused::Gone { state }) => Answer::Refused(Refusal::Gone { at: 0, state }),
            Err(RemoveRefused::NotIn { phase }) => Answer::Refused(Refusal::NotIn { phase }),
            Err(RemoveRefused::Held { slot }) => Answer::Refused(Refusal::Held { at: 0, slot }),
        }
    }

    /// The answer of a move.
    pub(crate) fn of_move(done: Result<(), MoveRefused>) -> Answer {
        match done {
            Ok(()) => Answer::Done,
            Err(MoveRefused::Gone { state }) => Answer::Refused(Refusal::Gone { at: 0, state }),
            Err(MoveRefused::Held { slot }) => Answer::Refused(Refusal::Held { at: 0, slot }),
        }
    }

    /// The answer of a lock that is refused.
    pub(crate) fn of_gone(gone: Gone) -> Answer {
        Answer::Refused(Refusal::Gone {
            at: 0,
            state: gone.state,
        })
    }
}

/// How many of these words are not 0.
fn in_use(words: &[u64]) -> u32 {
    let mut used = 0u32;
    for word in words {
        if *word != 0 {
            used = used.wrapping_add(1);
        }
    }
    used
}

impl Refusal {
    /// Why a batch was not prepared.
    pub(crate) fn of_prepare(refused: PrepareRefused) -> Refusal {
        match refused {
            PrepareRefused::Memory => Refusal::Memory,
            PrepareRefused::Empty => Refusal::Empty,
            PrepareRefused::NoSlot { words } => Refusal::NoSlot {
                used: in_use(words.items()),
            },
            PrepareRefused::NoNodes { need, free } => Refusal::NoNodes { need, free },
            PrepareRefused::Gone { at, state } => Refusal::Gone { at, state },
            PrepareRefused::Held { at, slot } => Refusal::Held { at, slot },
            PrepareRefused::AlreadyIn { at, phase: _phase } => Refusal::AlreadyIn { at },
            PrepareRefused::WrongLayer { at, layer } => Refusal::WrongLayer { at, layer },
        }
    }
}
