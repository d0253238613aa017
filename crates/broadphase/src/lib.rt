//! The program: it reads a script, plays it, and writes the report; or it only checks the script.
//!
//! It stands on every crate below, and nothing stands on it but the program itself. Its promise is the contract
//! of the top call, `run`: what it wrote is what the plain scene prints for the script that it read.
#![tactic(auto)]

mod form;
mod playing;
mod reading;
mod room;
mod status;
pub mod streams;
mod top;

pub use form::Form;
pub use reading::{MAX_BYTES, ParseEnd, run_parse};
pub use room::Room;
pub use script_player::PlayFault;
pub use status::Status;
pub use top::{run, run_check};
