//! Tests of the plain scene, over the public calls of `scene_model` alone: which index and sequence number a body gets,
//! how many there are, and which a query finds.
//!
//! They are a crate of their own so that `scene_model` is proved once, and nothing stands on it.
#![tactic(auto)]

#[cfg(test)]
mod tests;
