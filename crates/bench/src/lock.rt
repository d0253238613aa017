//! Bodies locked by their ids, seen and unlocked, on one thread and on four.

mod crew;
mod work;

use crate::table::Table;
use crew::Crew;
use std::alloc::AllocError;
use std::io;
use std::io::Print;
use std::sync::Wait;
use std::thread::Threads;
use std::time::Clock;
use work::{Found, ROUNDS};

/// A run on one thread or on four, and its nanoseconds.
fn measure<R: Clock + Print + Threads + Wait + Sync>(
    table: &Table<R>,
    crew: Crew,
    four: bool,
) -> io::Result<(Found, u128, Crew)> {
    let rt = table.runtime();
    let start = table.start()?;
    let (found, crew) = if four { crew.four(rt) } else { crew.one(rt) };
    let nanos = table.since(start)?;
    Ok((found, nanos, crew))
}

/// Writes the row of one thread or of four, with the time on each of them.
fn row<R: Clock + Print + Threads + Wait + Sync>(
    table: &Table<R>,
    what: &str,
    crew: Crew,
    four: bool,
) -> io::Result<Crew> {
    let (mut found, mut least, mut crew) = measure(table, crew, four)?;
    for _ in 1..table.runs() {
        let (again, nanos, next) = measure(table, crew, four)?;
        found = again;
        crew = next;
        least = least.min(nanos);
    }
    let Found { seen, gone, users } = found;
    let found = format!(in table.alloc(); "{seen} seen, {gone} gone, user numbers {users}")?;
    table.write(what, found.as_str(), least, u64::from(ROUNDS))?;
    Ok(crew)
}

/// Writes a row for one thread, and one for four at once.
pub(crate) fn run<R: Clock + Print + Threads + Wait + Sync>(table: &Table<R>) -> io::Result<()> {
    let crew = Crew::open(table.runtime(), table.alloc()).ok_or(AllocError)?;
    let crew = row(table, "lock, one thread", crew, false)?;
    row(table, "lock, four threads", crew, true)?;
    Ok(())
}
