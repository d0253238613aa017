//! Jobs, the clock, and the rows that tell how long they took.

use std::alloc::{AllocError, Global};
use std::io;
use std::io::Print;
use std::time::{Clock, Instant};

/// How many runs of a job are timed. The least counts.
const RUNS: u32 = 9;

/// Whether jobs are timed.
#[derive(Clone, Copy, PartialEq)]
pub(crate) enum Mode {
    /// Each job is run once, with no clock, and what it found is written.
    Count,
    /// Each job is run several times, and how long a call took in the quickest run is written too.
    Time,
}

/// Calls that are made in one run, and what they found.
pub(crate) trait Job {
    /// Makes what a run uses up, where it uses something up. It is called before each run, and is no part of its time.
    fn prepare(&mut self) -> Result<(), AllocError> {
        Ok(())
    }

    /// One run. What works is the run's own, so that it can stay in registers.
    fn run(self) -> Self;

    /// How many calls a run makes, of one thread where it has several.
    fn calls(&self) -> u64;

    /// What the last run found: the same each time, on each machine.
    fn found(&self, alloc: Global) -> Result<String, AllocError>;
}

/// Where the rows of jobs are written.
#[derive(Drop)]
pub(crate) struct Table<'a, R> {
    rt: &'a R,
    alloc: Global,
    mode: Mode,
}

impl<'a, R: Clock + Print> Table<'a, R> {
    /// Writes the head of the table where jobs are timed.
    pub(crate) fn new(rt: &'a R, alloc: Global, mode: Mode) -> io::Result<Table<'a, R>> {
        if mode == Mode::Time {
            println!(rt; "{:<40} {:>12}  found", "what", "ns a call")?;
        }
        Ok(Table { rt, alloc, mode })
    }

    /// The runtime, for jobs that are made ready by it.
    pub(crate) fn runtime(&self) -> &'a R {
        self.rt
    }

    /// What jobs allocate by.
    pub(crate) fn alloc(&self) -> Global {
        self.alloc
    }

    /// Runs a job and writes its row.
    pub(crate) fn row<J: Job + Drop>(&self, what: &str, job: J) -> io::Result<J> {
        let (mut job, mut least) = self.measure(job)?;
        for _ in 1..self.runs() {
            let (next, nanos) = self.measure(job)?;
            job = next;
            least = least.min(nanos);
        }
        let found = job.found(self.alloc)?;
        self.write(what, found.as_str(), least, job.calls())?;
        Ok(job)
    }

    /// One run and its nanoseconds.
    fn measure<J: Job + Drop>(&self, job: J) -> io::Result<(J, u128)> {
        let mut job = job;
        job.prepare()?;
        let start = self.start()?;
        let job = job.run();
        let nanos = self.since(start)?;
        Ok((job, nanos))
    }

    /// How many runs a row has: one where they are not timed.
    pub(crate) fn runs(&self) -> u32 {
        match self.mode {
            Mode::Count => 1,
            Mode::Time => RUNS,
        }
    }

    /// The time at the beginning of a run, where runs are timed.
    pub(crate) fn start(&self) -> io::Result<Option<Instant>> {
        match self.mode {
            Mode::Count => Ok(None),
            Mode::Time => Ok(Some(Instant::now(self.rt)?)),
        }
    }

    /// The nanoseconds from the beginning of a run until now, and 0 where it is not timed.
    pub(crate) fn since(&self, start: Option<Instant>) -> io::Result<u128> {
        match start {
            Some(start) => Ok(start.elapsed(self.rt)?.as_nanos()),
            None => Ok(0),
        }
    }

    /// Writes a row: what the runs found, and where they were timed what a call of the quickest took.
    pub(crate) fn write(&self, what: &str, found: &str, nanos: u128, calls: u64) -> io::Result<()> {
        if self.mode == Mode::Count {
            return println!(self.rt; "{what}: {found}");
        }
        let hundredths = nanos.saturating_mul(100) / u128::from(calls.max(1));
        let whole = hundredths / 100;
        let part = hundredths % 100;
        println!(self.rt; "{what:<40} {whole:>9}.{part:02}  {found}")
    }
}
