//! Batches of bodies, prepared apart and then attached or given up.
//!
//! Preparing a batch holds its bodies, which are out of the broad phase, and draws the tree over them in nodes of its own,
//! where nobody walks; that may take long, and run beside anything else. Attaching it is then one store. A batch that is
//! not wanted any more is given up. Preparing and giving up are operations by turns, made of parts that are such operations
//! themselves; each is also one call, which may wait for locks. Jolt's `AddBodiesPrepare`, `AddBodiesFinalize` and
//! `AddBodiesAbort` are its outline.
//!
//! It stands on the list of free nodes, on the planned tree and its bounds, and by one clause on the guard of `body_lock`.
//! The layers above use that a batch that is prepared holds its bodies, that at the store which attaches it all of them come
//! into the broad phase, and what each refusal says.
#![tactic(auto)]

mod aborting;
mod answers;
mod calls;
mod draw_stage;
mod drawing_steps;
mod finalizing;
mod giving_steps;
mod giving_up;
mod kept_batch;
pub mod laws;
mod list_calls;
mod mark_op;
mod marking;
mod node_taking;
mod prepare_begun;
mod prepare_op;
mod prepared;
mod prepared_list;
mod preparing;
mod slot_search;
mod tree_drawing;
mod whole_batch;
mod whole_giving;
mod whole_marks;
mod whole_tree;

pub use aborting::AbortOp;
pub use answers::{PrepareRefused, SlotWords};
pub use calls::{abort, prepare};
pub use finalizing::finalize;
pub use prepare_op::PrepareOp;
pub use prepared::Prepared;
pub use prepared_list::PreparedList;
