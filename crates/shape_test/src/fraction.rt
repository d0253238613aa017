ghost use Rattle.std.specs.Prelude.{◌≡◌, ◌*◌, ◌<◌, ◌≤◌, ◌⊎◌, ◌↔◌, IsTrue};

use crate::span::Span;

/// The fraction n/m of a segment's way, from 0/1 where it begins to m/m where it ends.
#[derive(Clone, Copy, Debug, PartialEq, Eq)]
pub struct Frac {
    pub n: u64,
    pub m: u64,
}

impl Frac {
    ghost use Rattle.shape_test.specs.Fraction.{IsSmall, IsLater};

    /// This fraction, or the one at which the span begins where that is later.
    #[inline(always)]
    pub(crate) fn or_enter(self, span: &Span) -> Frac
        requires { IsSmall self }
        ensures small { IsSmall result }
        ensures value { IsLater self span.now result }
    {
        if self.n * span.length < span.enter * self.m {
            Frac {
                n: span.enter,
                m: span.length,
            }
        } else {
            self
        }
    }

    /// Whether this fraction is not past the end of the span.
    #[inline(always)]
    pub(crate) fn is_before_end(self, span: &Span) -> bool
        requires { IsSmall self }
        ensures { IsTrue result ↔ (self.n * span.now.length ≤ span.now.leave * self.m) }
    {
        self.n * span.length <= span.leave * self.m
    }
}
