//! Tests of the shared world, over its public calls alone.
//!
//! They show what no clause says: that each call can succeed, which words the answers have, and that threads which act
//! at once come to an end and lose nothing. They stand apart from the crates that they test, so that each of those is
//! proved once.
//!
//! It stands on worlds and passes, on bodies, locks, batches and removals, and on the bounds of planned trees. Nothing stands on it.
#![tactic(auto)]

#[cfg(test)]
mod batches;
#[cfg(test)]
mod bodies;
#[cfg(test)]
mod bounds;
#[cfg(test)]
mod guards;
#[cfg(test)]
mod held_batches;
#[cfg(test)]
mod look_twice;
#[cfg(test)]
mod opened;
#[cfg(test)]
mod passes;
#[cfg(test)]
mod refusals;
#[cfg(test)]
mod removals;
#[cfg(test)]
mod slots;
#[cfg(test)]
mod world_sizes;
