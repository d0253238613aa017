//! Bodies move: bounds are widened, and then a body gets another box.
//!
//! A body is moved under its stripe. Where it is in the broad phase, the bounds of trees are widened first for the box that
//! it is to have, from each of its locations up to the root, so that whoever walks through the trees meanwhile finds it.
//! Then its box words are stored, the last of which moves it. A body that is out may be moved too.
//!
//! It stands on the look at a body, on its lock and on the typed steps.
#![tactic(auto)]

mod answers;
mod calls;
mod climbing;
mod move_op;
mod moving;
mod moving_guarded;
mod storing;
mod widening;

pub use answers::{HeldAt, MoveRefused};
pub use calls::move_body;
pub use move_op::MoveOp;
pub use moving_guarded::move_to;
