//! A run through every kind of step.
//!
//! What each kind of step asks is proved elsewhere to keep the invariants. This crate has the proof that these asks can all be
//! met together: from the opening of a small world there is a run in which each kind of step occurs, and while its update
//! goes on, another pass is half way in a walk.
//!
//! The run is made by computation. For each kind there is a test of what it asks, which answers with a proof of it or with
//! nothing; the steps are a list of such tests, and the whole is run once.
//!
//! It stands on the definitions of the core. Nothing stands on it.
#![tactic(auto)]

pub mod laws;
