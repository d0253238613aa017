//! Scripts on the plain player and on the host over a shared world: random ones, played on both, and the reports compared.
//!
//! The scripts come from a generator of a fixed seed, so each run plays the same. Their worlds are small, so that bodies, slots
//! and nodes run out, and names stand twice in a line, stand for no id or for bodies that are gone. How many commands of each
//! kind were played, and how many of them were refused for which cause, is printed, and last how many reports differed.
//!
//! It shows, by a run, that a script is answered on a shared world as on the plain scene. Nothing stands on it.
#![tactic(auto)]

mod draws;
mod game;
mod kind;
mod reports;
mod tally;
mod writing;

use game::play_all;
use std::io;
use std::io::Print;
use std::process::ExitCode;

fn main(rt: HostRuntime) -> io::Result<ExitCode> {
    match play_all(&rt, rt.alloc()) {
        Some(tally) => {
            tally.write(&rt)?;
            if tally.agrees() {
                Ok(ExitCode::SUCCESS)
            } else {
                Ok(ExitCode::FAILURE)
            }
        }
        None => {
            eprintln!(rt; "hosts_side_by_side: there is not enough memory, or a script is none")?;
            Ok(ExitCode::FAILURE)
        }
    }
}
