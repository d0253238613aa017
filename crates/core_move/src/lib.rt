//! Moves and removals keep the invariants.
//!
//! The crate has the proof that the kinds of step of a move and of a removal of a body lead from a core that meets all
//! invariants to one that does. A move widens the bounds from the locations of the body up to the roots, loads the parents
//! on the way, and then stores the words of the new box. A removal takes the body out, clears its entries, and then its
//! locations; once it has ended the body is in no tree that a word names.
//!
//! It stands on the core's definitions, and on what is proved of steps in general for the kinds on locks and bodies. The
//! table of typed steps stands on it.
#![tactic(auto)]

pub mod laws;
pub mod removal_laws;
