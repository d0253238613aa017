//! Tests of the planner, over the public calls of `tree_plan` alone: how many nodes trees take, and that plans are the
//! trees of the definition, which stands here as a plain program.
//!
//! They are a crate of their own so that `tree_plan` is proved once, and nothing stands on it.
#![tactic(auto)]

#[cfg(test)]
mod bodies;
#[cfg(test)]
mod definition;
#[cfg(test)]
mod plans;
#[cfg(test)]
mod row;
