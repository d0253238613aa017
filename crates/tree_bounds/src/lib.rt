//! The bounds of the children of a planned tree.
//!
//! `TreeBounds` takes its memory once. It has the planner write the box of each body where the body stands, and then goes
//! over the nodes from the last to the first, so that the bounds of a node's children stand when the node's own is asked
//! for. No body is looked for by its index.
//!
//! It stands on the boxes and on the planner. Batches and the update of a layer stand on it. The layer above uses
//! that the bound of a body is its box, and that of a node the hull of the bounds of its children.
#![tactic(auto)]

mod hull;
pub mod laws;
mod tree_bounds;

pub use tree_bounds::TreeBounds;
