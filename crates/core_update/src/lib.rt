//! Updates keep the invariants.
//!
//! The crate has the proof that the kinds of step of an update lead from a core that meets all invariants to one that does.
//! An update notes the slots and the bodies, makes new trees in the other arena, places the bodies in them, exchanges the
//! main words, clears the slots that it merged, and gives back what no reader reaches any more; then it switches arenas.
//!
//! It stands on the core's definitions, and on what is proved of steps in general for the kinds on locks, bodies, walks and
//! moves. The table of typed steps stands on it.
#![tactic(auto)]

pub mod laws;
