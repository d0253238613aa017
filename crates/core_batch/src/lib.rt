//! Batches keep the invariants.
//!
//! The crate has the proof that each kind of step on batches leads from a core that meets all invariants to one that does:
//! slots that are reserved and let go, bodies that are marked, placed and taken back, nodes that are taken off the pool,
//! stored, and given back, and the attachment of a whole tree.
//!
//! It stands on the core's definitions, and on the laws that `core_guard` has of steps in general. The table of typed
//! steps stands on it.
#![tactic(auto)]

pub mod laws;
