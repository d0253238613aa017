//! The text of scripts: which bytes are a script, what it asks for, and how it is printed.
//!
//! Below stand boxes and segments and the sizes of a world. Above stand the replies and the player.
//!
//! The promise: `parse` reads exactly the bytes that are a script, and of others it names the first line that is
//! wrong and the first thing that is wrong with it; from what `print` writes it reads the same script.
#![tactic(auto)]

mod adding;
mod appending;
mod code;
mod command;
mod commands;
mod draft;
mod fields;
mod keyword;
mod limits;
mod lines;
mod name_fields;
mod names;
mod number;
mod printing;
mod reading;
mod script;
mod text;

pub use appending::{append_box, append_number, append_word};
pub use code::{Code, LineError};
pub use command::Command;
pub use limits::{MAX_LINES, MAX_MULTI};
pub use names::Names;
pub use printing::print;
pub use reading::parse;
pub use script::{CommandList, Script, ScriptFault};
pub use text::{Text, TextList};
