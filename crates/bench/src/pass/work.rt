//! The work that is timed: rounds over two words.
ghost use Rattle.std.specs.Prelude.{◌<◌};

/// How many rounds a run has.
pub(crate) const ROUNDS: u32 = 4_000_000;

/// Something that is done in rounds.
pub(crate) trait Work {
    /// One round, on one of two locks or with their number. Answers the word that it found last, or a number that tells
    /// what was done.
    fn round(&mut self, lock: u32) -> u64
        requires lock { lock < 2 };
}

/// All rounds of a run, on both locks in turn. Answers the sum of the words found, so that no round can be left out.
///
/// What works is the function's own, so that on both sides what is in no table can stay in registers.
pub(crate) fn rounds<W: Work + Drop>(work: W) -> (u64, W) {
    let mut work = work;
    let mut found = 0u64;
    for number in 0..ROUNDS {
        found = found.wrapping_add(work.round(number % 2));
    }
    (found, work)
}
