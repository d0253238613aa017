//! Numbers by a generator of a fixed seed.
ghost use Rattle.std.specs.Prelude.{◌<◌, ◌≤◌};

use rand_core::utils::NextWord;
use rand_pcg::Pcg32;

/// The generator.
#[derive(Drop)]
pub(crate) struct Draws {
    random: Pcg32,
}

impl Draws {
    /// The generator at its beginning; the same each time.
    pub(crate) fn new() -> Draws {
        Draws {
            random: Pcg32::new(42, 54),
        }
    }

    /// A number from 0 on, below so many.
    pub(crate) fn below(&mut self, many: u32) -> u32
        requires { 0 < many }
        ensures { result < many }
    {
        self.random.next_word() % many
    }

    /// A number from 1 on, up to a greatest one.
    pub(crate) fn up_to(&mut self, most: u32) -> u32
        requires some { 0 < most }
        requires few { most ≤ 256 }
        ensures some { 1 ≤ result }
        ensures most { result ≤ most }
    {
        1 + self.below(most)
    }

    /// Once in so many times.
    pub(crate) fn is_one_in(&mut self, many: u32) -> bool
        requires { 0 < many }
    {
        self.below(many) == 0
    }
}
