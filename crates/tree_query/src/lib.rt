//! Asking a shared world which bodies touch a shape, without locks on the way through the trees.
//!
//! `collect` walks the trees of the asked layers and puts each body that may touch the shape into a finder. `query` looks at
//! each of these under its stripe too, and leaves in the finder those that do. `CollectOp` and `QueryOp` do so turn by turn.
//!
//! It stands on worlds and passes, on looking at a body, on guards of bodies, and on the tests of shapes. Nothing stands on it.
#![tactic(auto)]

mod bit_set;
mod bits;
mod calls;
mod check_loads;
mod check_op;
mod check_turns;
mod checking;
mod checks;
mod children;
mod collect_op;
mod collect_turns;
mod collecting;
mod finder;
mod finding;
mod found_ids;
pub mod laws;
mod nodes;
mod query_op;
mod query_turns;
mod reading;
mod walk;
mod walk_steps;
mod walk_turns;

pub use calls::{collect, query};
pub use collect_op::CollectOp;
pub use finder::Finder;
pub use found_ids::FoundIds;
pub use query_op::QueryOp;
