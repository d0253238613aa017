//! Replies: what a command of a script is answered, and the line that says so.
//!
//! Below stand body ids, the view of a body and the words of scripts. Above stands the player.
//!
//! The promise: `reply_line` appends exactly the line of a reply, or nothing.
#![tactic(auto)]

mod id_list;
mod multi;
mod refusal;
mod reply;

pub use id_list::IdList;
pub use multi::{MultiItem, MultiList};
pub use refusal::Refusal;
pub use reply::{Reply, reply_line};
