ghost use Rattle.std.specs.Prelude.{◌↔◌, ◌≤◌, IsTrue, IfSome, IfNone};
ghost use Rattle.fixed_box.specs.Touch.{Touch};
ghost use Rattle.fixed_box.specs.declared.Shape.TheVariants.{Segment as Ray};
ghost use Rattle.shape_test.specs.Fraction.{IsSmall};
ghost use Rattle.shape_test.specs.Spans.{AreSpans, IsLatest, EndAfter};

use crate::fraction::Frac;
use crate::gap::touches_bounds;
use crate::span::Span;
use fixed_box::{FixBox, Segment};

/// The parts of a segment's way on which it is between the sides of a box, for each axis.
#[derive(Clone, Copy)]
pub(crate) struct Spans {
    x: Span,
    y: Span,
    z: Span,
}

impl Spans {
    /// The three spans, and `None` where on some axis the segment is beside the box on all of its way.
    #[inline(always)]
    pub(crate) fn on(s: &Segment, b: &FixBox) -> Option<Spans>
        ensures some { IfSome result (AreSpans s.now b.now) }
        ensures none { IfNone result (¬ Touch (Ray s.now) b.now) }
    {
        if touches_bounds(s, b) {
            Some(Spans {
                x: Span::on(s, b, 0),
                y: Span::on(s, b, 1),
                z: Span::on(s, b, 2),
            })
        } else {
            None
        }
    }

    /// The latest of the fractions of the way at which the spans begin, 0/1 where all begin at once.
    #[inline(always)]
    pub(crate) fn latest_enter(&self) -> Frac
        ensures { IsLatest self.now result }
    {
        Frac { n: 0, m: 1 }
            .or_enter(&self.x)
            .or_enter(&self.y)
            .or_enter(&self.z)
    }

    /// Whether no span ends before this fraction.
    #[inline(always)]
    pub(crate) fn end_after(&self, f: Frac) -> bool
        requires { IsSmall f }
        ensures { IsTrue result ↔ EndAfter self.now f }
    {
        f.is_before_end(&self.x) & f.is_before_end(&self.y) & f.is_before_end(&self.z)
    }
}
