//! What locking several bodies by turns keeps.
use crate::multi_guard::{LockedBody, MOST};
use crate::stripe_set::StripeSet;
use arrayvec::ArrayVec;
use body_ident::BodyId;
use core_state::Mode;
use pass_table::TakeOp;

/// A body that is to be locked.
#[derive(Clone, Copy)]
pub(crate) struct Wanted {
    pub(crate) id: BodyId,
}

impl Default for Wanted {
    fn default() -> Wanted {
        Wanted {
            id: BodyId::new(0, 0),
        }
    }
}

/// How far it is.
#[derive(Clone, Copy)]
pub(crate) enum MultiStage {
    /// This stripe is being taken. Those of the set below it are held.
    Taking { stripe: u32, taking: TakeOp },
    /// All are held, and the state words are being read.
    Held,
}

/// Locking several bodies by turns: all their stripes are taken, ascending, and then their state words tell which of them
/// are live.
#[derive(Drop)]
pub struct LockMultiOp {
    pub(crate) wanted: ArrayVec<Wanted, MOST>,
    pub(crate) mode: Mode,
    pub(crate) stripes: StripeSet,
    pub(crate) stage: MultiStage,
    pub(crate) bodies: ArrayVec<LockedBody, MOST>,
}
