//! The ids of bodies: an index and a sequence number in one 32-bit word.
//!
//! It stands on nothing; whatever speaks of a body stands on it. The layer above uses that the word and the
//! text of an id say exactly its index and its sequence number, both ways.
#![tactic(auto)]

mod body_id;
mod text;

pub use body_id::BodyId;
pub use text::same_text;
