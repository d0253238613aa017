//! How long the parts take, each by a name: `bench NAME [time]`.
//!
//! With the word `time` a table tells what a call took, in nanoseconds; this is run by hand. Without it the same calls
//! are made once with no clock, and what they found is printed, which no machine and no schedule changes. With no words
//! at all every part is run so. Other words end it with the usage on standard error and status 2.
#![tactic(auto)]

mod batches;
mod bodies;
mod boxes;
mod lock;
mod moves;
mod pass;
mod plan;
mod queries;
mod shape;
mod table;
mod town;

use std::io::{Eprint, Print};
use std::process::ExitCode;
use std::sync::Wait;
use std::thread::Threads;
use std::time::Clock;
use std::{env, io};
use table::{Mode, Table};

/// A part that can be timed.
#[derive(Clone, Copy)]
enum Part {
    /// Shapes against boxes.
    Shape,
    /// The planner of trees.
    Plan,
    /// Steps of a pass.
    Pass,
    /// Locks on bodies.
    Lock,
    /// Bodies that are created and destroyed.
    Bodies,
    /// Batches of bodies.
    Batches,
    /// Queries.
    Queries,
    /// Bodies that are moved and taken out.
    Moves,
}

impl Part {
    const ALL: [Part; 8] = [
        Part::Shape,
        Part::Plan,
        Part::Pass,
        Part::Lock,
        Part::Bodies,
        Part::Batches,
        Part::Queries,
        Part::Moves,
    ];

    /// The part of a name.
    fn named(name: &str) -> Option<Part> {
        match name {
            "shape" => Some(Part::Shape),
            "plan" => Some(Part::Plan),
            "pass" => Some(Part::Pass),
            "lock" => Some(Part::Lock),
            "bodies" => Some(Part::Bodies),
            "batches" => Some(Part::Batches),
            "queries" => Some(Part::Queries),
            "moves" => Some(Part::Moves),
            _ => None,
        }
    }

    /// Writes the rows of the part.
    fn run<R: Clock + Print + Threads + Wait + Sync>(self, table: &Table<R>) -> io::Result<()> {
        match self {
            Part::Shape => shape::run(table),
            Part::Plan => plan::run(table),
            Part::Pass => pass::run(table),
            Part::Lock => lock::run(table),
            Part::Bodies => bodies::run(table),
            Part::Batches => batches::run(table),
            Part::Queries => queries::run(table),
            Part::Moves => moves::run(table),
        }
    }
}

/// What the words of the command line ask for.
enum Request {
    /// All parts, with no clock.
    All,
    /// One part.
    One(Part, Mode),
    /// Nothing that there is.
    Unknown,
}

/// Reads the words that follow the program's name.
fn request_of(words: &[String]) -> Request {
    match words {
        [] => Request::All,
        [name] => of_part(name.as_str(), Mode::Count),
        [name, time] if time.as_str() == "time" => of_part(name.as_str(), Mode::Time),
        _ => Request::Unknown,
    }
}

fn of_part(name: &str, mode: Mode) -> Request {
    match Part::named(name) {
        Some(part) => Request::One(part, mode),
        None => Request::Unknown,
    }
}

fn main(rt: HostRuntime) -> io::Result<ExitCode> {
    let mut words = env::args(&rt)?;
    let _program = words.next();
    let words: Vec<String> = words.collect(rt.alloc())?;
    match request_of(words.as_slice()) {
        Request::All => {
            let table = Table::new(&rt, rt.alloc(), Mode::Count)?;
            for part in Part::ALL {
                part.run(&table)?;
            }
            Ok(ExitCode::SUCCESS)
        }
        Request::One(part, mode) => {
            part.run(&Table::new(&rt, rt.alloc(), mode)?)?;
            Ok(ExitCode::SUCCESS)
        }
        Request::Unknown => {
            eprintln!(rt;
                "usage: bench [NAME [time]], where NAME is shape, plan, pass, lock, bodies, batches, queries or moves"
            )?;
            Ok(ExitCode::from(2))
        }
    }
}
