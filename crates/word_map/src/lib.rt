//! The words of a world and their places in its table.
//!
//! A world keeps all that its callers share in one table of 64-bit words. This crate says which sizes a world may
//! have, names each word, and lays the words out: what is read together stands together, and the words that each
//! caller writes at every query stand apart.
//!
//! It stands on nothing. The script's grammar stands on `check`; the core and the typed steps stand on the map. The
//! layer above uses that distinct names have distinct places.
#![tactic(auto)]

mod body_words;
mod config;
mod law;
mod list_words;
mod map;
mod name;
mod row;
mod tree_words;

pub use body_words::{PhaseWord, StateWord};
pub use config::{
    BadConfig, Config, Field, MAX_BODIES, MAX_LAYERS, MAX_NODES, MAX_PASSES, MAX_SLOTS,
    STRIPE_COUNTS,
};
pub use law::{names_have_places, words_say_one_thing, worlds_are_bounded};
pub use list_words::ListWord;
pub use map::{Map, check};
pub use name::Name;
pub use row::{BODY_WORDS, CHILD_WORDS, NODE_WORDS};
pub use tree_words::{BoundWord, ChildWord, LocationWord, SlotWord};
