//! The places that an operation by turns comes to.
ghost use Rattle.std.specs.Prelude.{◌≡◌};

use std::marker::Model;

/// A place that an operation comes to, by its number.
///
/// The labels of one operation are numbered in the order in which it reaches them, so it has reached a label where the
/// last one that it reached is at least that one.
#[derive(Clone, Copy, Debug, PartialEq, Eq, PartialOrd, Ord)]
pub struct Label {
    number: u32,
}

impl Model for Label {
    ghost use Rattle.std.specs.Prelude.{ℕ};

    ghost Value = { ℕ };

    ghost view = { λ label. label.number };

    ghost inverse = { λ number. record { number = number } };
}

impl Label {
    /// The label with this number.
    pub const fn new(number: u32) -> Label
        ensures { result ≡ number }
    {
        Label { number }
    }

    /// Its number.
    pub const fn number(self) -> u32
        ensures { result ≡ self }
    {
        self.number
    }
}
