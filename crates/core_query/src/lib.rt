//! Queries keep the invariants.
//!
//! The crate has the proof that the kinds of step of a walk through the trees lead from a core that meets all invariants
//! to one that does: its beginning, its loads of slots, main words, children and sides of bounds, and its end.
//!
//! It has what callers need of a walk that is under way or has nothing left to read: every body that it has to find is a
//! candidate, its record is whole, its stack is short, and where the shape is clear of the asked layers it reads roots alone.
//!
//! It stands on the core's definitions, and on what is proved of steps in general for the kinds on locks and bodies. The
//! table of typed steps stands on it.
#![tactic(auto)]

pub mod laws;
