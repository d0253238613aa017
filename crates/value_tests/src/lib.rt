//! Tests of what stands at the bottom, over public calls alone: boxes and shapes, ids, the words of a world, and the lines of replies.
//!
//! They are a crate of their own so that the crates which they call are proved once, and nothing stands on it.
#![tactic(auto)]

#[cfg(test)]
mod boxes;
#[cfg(test)]
mod ids;
#[cfg(test)]
mod replies;
#[cfg(test)]
mod shapes;
#[cfg(test)]
mod words;
