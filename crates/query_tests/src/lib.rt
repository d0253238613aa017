//! Tests of queries, moves and removals on the shared world, over its public calls alone.
//!
//! They show what no clause says: how many words a walk reads in a tree that is known, what is found where others act
//! between two turns, and that threads which query, move, add and give batches up at once come to an end.
//!
//! It stands on bodies, batches, moves, removals and queries. Nothing stands on it.
#![tactic(auto)]

#[cfg(test)]
mod crowds;
#[cfg(test)]
mod moves;
#[cfg(test)]
mod places;
#[cfg(test)]
mod turns;
#[cfg(test)]
mod walks;
