//! Tests of the program, over the public calls of `broadphase` alone: the reports of scripts, how runs end, and what
//! is written where a source or a sink gives or takes little, or fails.
//!
//! They are a crate of their own so that `broadphase` is proved once, and nothing stands on it.
#![tactic(auto)]

#[cfg(test)]
mod endings;
#[cfg(test)]
mod pieces;
#[cfg(test)]
mod reports;
#[cfg(test)]
mod runs;
#[cfg(test)]
mod streams;
