//! Bodies leave the broad phase: remove.
//!
//! A body is taken out under its stripe: its phase says out, then its entries in trees are cleared, and then its
//! locations. The call is made turn by turn, each turn one atomic step or none, or in one go. While others act too, what
//! it answers is right at a point of it, and its one change of the scene is one step. Whoever walks through the trees
//! meanwhile finds the body or nothing at its places.
//!
//! It stands on the look at a body and on the typed steps. The calls above use that a body that was removed is out, so
//! that it may be destroyed or added again.
#![tactic(auto)]

mod answers;
mod calls;
mod clearing;
mod remove_op;
mod removing;

pub use answers::RemoveRefused;
pub use calls::remove;
pub use remove_op::RemoveOp;
