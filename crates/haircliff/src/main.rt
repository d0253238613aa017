//! The program: `broadphase::run` on the words of the command line, standard input and standard output.
#![tactic(auto)]

use broadphase::{Room, Status, run};
use std::process::ExitCode;
use std::{env, io};
use world_io::{NoGate, StdSink, StdSource};

/// The words of the command line, without the program's own name.
fn words(rt: &HostRuntime) -> io::Result<Vec<String>> {
    let mut all = env::args(rt)?;
    let _own_name = all.next();
    Ok(all.collect(rt.alloc())?)
}

/// How a run ends whose words cannot be had: for want of memory, or since they are no text and so no command.
fn without_words(error: &io::Error) -> Status {
    if error.kind() == io::ErrorKind::OutOfMemory {
        Status::Memory
    } else {
        Status::Usage
    }
}

fn main(rt: HostRuntime) -> ExitCode {
    let words = match words(&rt) {
        Ok(words) => words,
        Err(error) => return ExitCode::from(without_words(&error).exit_code()),
    };
    let mut source = StdSource::new(rt.stdin());
    let mut sink = StdSink::new(rt.stdout());
    let mut room = Room::new();
    let status = run(
        &rt,
        rt.alloc(),
        words.as_slice(),
        &mut source,
        &mut sink,
        &NoGate,
        &mut room,
    );
    ExitCode::from(status.exit_code())
}
