//! The meaning of scripts, and playing them.
//!
//! A script is played on a host, which carries its commands out one after another: the plain player on a list of bodies, or a host
//! on a shared world. What a host keeps between two commands, what each command does and how it is answered are definitions here,
//! and so is the report. `play` writes the report of any host; the laws say what it tells.
#![tactic(auto)]

mod batches;
mod bodies;
mod books;
pub mod examples;
mod host;
pub mod laws;
mod plain_player;
mod playing;
mod taking;

pub use batches::in_layer;
pub use bodies::Change;
pub use books::{Attached, Batch, Books, Known};
pub use host::Host;
pub use plain_player::{PlainPlayer, outcome};
pub use playing::{PlayFault, play};
