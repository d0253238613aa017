//! Tests of scripts as texts, over the public calls of `script_text` alone: which fault each bad line has, which lines
//! stand at the ends of what is allowed, and that a printed script is read again.
//!
//! They are a crate of their own so that `script_text` is proved once, and nothing stands on it.
#![tactic(auto)]

#[cfg(test)]
mod faults;
#[cfg(test)]
mod limits;
#[cfg(test)]
mod printed;
