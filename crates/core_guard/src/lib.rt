//! Locks keep the invariants.
//!
//! The crate has the proof that each of the first kinds of step leads from a core that meets all invariants to one that
//! does: opening a pass, splitting off and joining a visitor, a look, the steps on lock words, and the steps on bodies
//! and on the list of free indexes.
//!
//! Most of it serves every kind. For each invariant there is one law of a step: what has to be said of the stored word,
//! of the entry and of the view that the step leaves, so that the invariant holds on. A kind of step shows just that,
//! and nothing of the callers beside it. docs/core.md tells how a further kind is proved.
//!
//! It stands on the core's definitions. The crates for batches, queries and moves stand on it, and above them the table
//! of typed steps.
#![tactic(auto)]

pub mod laws;
