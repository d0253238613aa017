ghost use Rattle.std.specs.Prelude.{◌≡◌, ◌<◌, ◌↔◌, pos, ◌≤ℤ◌, IsTrue};
ghost use Rattle.fixed_box.specs.Corner.{OnEachAxis};
ghost use Rattle.shape_test.specs.Gap.{gap_of};

use crate::axis::{coordinate, step};
use fixed_box::{FixBox, Segment};

/// How far the box is above or below all of the segment's way on an axis, 0 or less where it is neither.
#[inline(always)]
fn gap(s: &Segment, b: &FixBox, axis: usize) -> i32
    requires { axis < 3 }
    ensures { result ≡ gap_of s.now b.now axis }
{
    let begin = coordinate(&s.o, axis);
    let end = begin + step(s, axis);
    let above = coordinate(&b.lo, axis) - begin.max(end);
    let below = begin.min(end) - coordinate(&b.hi, axis);
    above.max(below)
}

/// Whether the box touches the bounds of the segment's way.
///
/// Most boxes fall out here: one comparison tests all three gaps, and what they need of the segment alone is
/// worked out once for many boxes.
#[inline(always)]
pub(crate) fn touches_bounds(s: &Segment, b: &FixBox) -> bool
    ensures { IsTrue result ↔ OnEachAxis (λ axis. gap_of s.now b.now axis ≤ℤ pos 0) }
{
    gap(s, b, 0).max(gap(s, b, 1)).max(gap(s, b, 2)) <= 0
}
