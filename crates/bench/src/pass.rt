//! The typed steps of a pass beside the bare steps of a table.

mod bare;
mod storing;
mod typed;
mod work;

use crate::table::{Job, Table};
use bare::{BareLoad, BarePair, BareStore, BareTry};
use std::alloc::{AllocError, Global};
use std::io;
use std::io::Print;
use std::time::Clock;
use storing::TypedStore;
use typed::{TypedLoad, TypedPair, TypedTry};
use work::{ROUNDS, Work, rounds};

/// All rounds of some work, and the sum of the words that they found.
#[derive(Drop)]
struct Rounds<W> {
    work: W,
    sum: u64,
}

impl<W: Work + Drop> Job for Rounds<W> {
    fn run(self) -> Rounds<W> {
        let Rounds { work, .. } = self;
        let (sum, work) = rounds(work);
        Rounds { work, sum }
    }

    fn calls(&self) -> u64 {
        u64::from(ROUNDS)
    }

    fn found(&self, alloc: Global) -> Result<String, AllocError> {
        let sum = self.sum;
        format!(in alloc; "sum {sum}")
    }
}

/// Writes the row of some work, which is `None` for want of memory.
fn row<R: Clock + Print, W: Work + Drop>(
    table: &Table<R>,
    what: &str,
    work: Option<W>,
) -> io::Result<()> {
    let work = work.ok_or(AllocError)?;
    table.row(what, Rounds { work, sum: 0 })?;
    Ok(())
}

/// Writes a row for each step, typed and bare.
pub(crate) fn run<R: Clock + Print>(table: &Table<R>) -> io::Result<()> {
    let alloc = table.alloc();
    row(table, "pass, load", TypedLoad::open(alloc))?;
    row(table, "pass, bare load", BareLoad::open(alloc))?;
    row(table, "pass, store", TypedStore::open(alloc))?;
    row(table, "pass, bare store", BareStore::open(alloc))?;
    row(table, "pass, take and release", TypedPair::open(alloc))?;
    row(table, "pass, bare take and release", BarePair::open(alloc))?;
    row(table, "pass, try and release", TypedTry::open(alloc))?;
    row(table, "pass, bare try and release", BareTry::open(alloc))
}
