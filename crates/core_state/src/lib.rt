//! The core: what the callers of a shared world do to its words, step by step, and what stays true of them.
//!
//! A world is a table of words that many callers change by single atomic steps. The core says it as plain data: a log
//! of the steps that stored a value, from which the words and the history of the scene follow, and for each caller, a
//! pass, a view of what it knows and holds. A kind of step says what it asks of the view of the pass that makes it,
//! what it stores, which entry it adds to the history and which view it leaves. docs/core.md has the picture,
//! docs/steps.md the table of all kinds.
//!
//! It stands on the scene's histories and on the names and places of words. The crates that prove that each kind of
//! step keeps the invariants stand on it, and above them the table whose typed steps are these events. The layers above
//! use that the words are the opening words after the log's stores, and that what a pass knows is a first part of the
//! log.
//!
//! No call here does anything, and of most types no value is ever made: they are what clauses speak of.
#![tactic(auto)]

pub mod invariants;
mod item;
pub mod laws;
mod view;

pub use item::{Item, Load, Store};
pub use view::{
    Batch, Call, Joined, LockStep, Marked, Merged, Mode, NewNode, Noted, Rebuild, Role, Task, View,
    Waiting, Walk,
};
