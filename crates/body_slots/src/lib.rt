//! Bodies come into the world and leave it: create and destroy.
//!
//! A body takes the first free index, and its id has the index and how often one was created there. Both calls are
//! made turn by turn, each turn one atomic step, or in one go. While others act too, what a call answers is right at a
//! point of it, and its one change of the scene is one step.
//!
//! It stands on the look at a body, on the list of free indexes and on the typed steps. The calls above go through ids:
//! they use that an id that was answered names the body that was created, and no other one until 256 more were created
//! at its index.
#![tactic(auto)]

mod answers;
mod create_op;
mod creating;
mod destroy_op;
mod destroying;
mod whole_create;
mod whole_destroy;

pub use answers::{DestroyRefused, Full};
pub use create_op::CreateOp;
pub use destroy_op::DestroyOp;
pub use whole_create::create;
pub use whole_destroy::destroy;
