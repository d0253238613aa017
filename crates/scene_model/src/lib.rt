//! The scene as plain data: bodies, the entries of a history, and what may follow what.
//!
//! It stands on boxes and body ids; the script's player, the shared world and all its laws stand on it. The
//! layers above use that a scene is a function of its history, and that `PlainScene` is that function as code.
#![tactic(auto)]

mod body_view;
mod entry;
pub mod laws;
mod plain_scene;

pub use body_view::{BodyView, Phase};
pub use entry::{Entry, IndexList, Made};
pub use plain_scene::PlainScene;
