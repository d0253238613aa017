//! The tree over a list of bodies: how many nodes it takes, and its nodes.
//!
//! A `Planner` halves the bodies on the axis on which they are spread widest, halves the halves, and so on, and
//! numbers the nodes breadth first. It takes its memory once. Bodies are halved by a selection, since only the sets
//! of the two halves matter.
//!
//! It stands on the boxes and on the scene's definition of the tree. Batches and the update of a layer stand on it.
//! The layer above uses that the planner's nodes are the definition's tree, with each body at one place and as many
//! nodes as `need` says, which are never more than the bodies but for one body.
#![tactic(auto)]

mod arrange;
mod axis;
mod indexes;
pub mod laws;
mod node_count;
mod numbering;
mod plan_child;
mod planner;
mod run;

pub use indexes::indexes_rise;
pub use node_count::{MAX_TREE_BODIES, need};
pub use plan_child::PlanChild;
pub use planner::Planner;
