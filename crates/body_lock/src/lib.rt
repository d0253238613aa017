//! Locks on bodies, by their ids: who holds one sees the body stand still.
//!
//! A lock on a body is its stripe and the look that the body is still the one that the id names. From then on the body
//! changes only by the holder, but that a batch which holds it may bring it into the broad phase. A guard tells what was
//! locked, and is spent where it is unlocked. Many readers may hold a stripe, or one writer. No call takes memory.
//!
//! It stands on looks at bodies. The layers above use that a view which a guard gives is the body as the scene has it.
#![tactic(auto)]

mod body_read;
mod body_write;
mod calls;
mod gone;
mod laws;
mod lock_op;
mod lock_turns;
mod multi_guard;
mod multi_op;
mod multi_turns;
mod read_op;
mod stripe_set;
mod viewing;
mod words;
mod write_op;

pub use body_read::BodyRead;
pub use body_write::BodyWrite;
pub use calls::{lock_multi, lock_read, lock_write};
pub use gone::Gone;
pub use laws::{gone_bodies_stay_gone, guards_stay_good, locked_bodies_stay};
pub use multi_guard::{MOST, MultiEntry, MultiGuard};
pub use multi_op::LockMultiOp;
pub use read_op::LockReadOp;
pub use write_op::LockWriteOp;
