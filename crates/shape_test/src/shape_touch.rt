ghost use Rattle.std.specs.Prelude.{◌≡◌, ◌<◌, ◌↔◌, pos, ◌-ℤ◌, ◌≤ℤ◌, IsTrue};
ghost use Rattle.std.specs.Int.{int_max};
ghost use Rattle.fixed_box.specs.Corner.{on_axis};
ghost use Rattle.fixed_box.specs.FixBox.{is_within};
ghost use Rattle.fixed_box.specs.Touch.{Touch};
ghost use Rattle.shape_test.specs.Touched.{is_touched};

use crate::axis::coordinate;
use crate::segment_entry::entry;
use fixed_box::{Coord, FixBox, Shape};

/// How far the point is above or below the box on an axis, 0 or less where it is neither.
#[inline(always)]
fn gap(p: &[Coord; 3], b: &FixBox, axis: usize) -> i32
    requires { axis < 3 }
    ensures { let at = on_axis p.now axis in
        result ≡ int_max (on_axis b.now.lo axis -ℤ at) (at -ℤ on_axis b.now.hi axis) }
{
    let at = coordinate(p, axis);
    let below = coordinate(&b.lo, axis) - at;
    let above = at - coordinate(&b.hi, axis);
    below.max(above)
}

/// Whether the point is in the box or on its surface.
#[inline(always)]
fn is_within(p: &[Coord; 3], b: &FixBox) -> bool
    ensures { IsTrue result ↔ IsTrue (is_within p.now b.now) }
{
    gap(p, b, 0).max(gap(p, b, 1)).max(gap(p, b, 2)) <= 0
}

/// Whether the shape has a point in the box or on its surface.
///
/// It takes a few comparisons for boxes and points, and for the segments whose bounds the box does not touch.
#[inline]
pub fn touch(shape: &Shape, b: &FixBox) -> bool
    ensures meaning { IsTrue result ↔ Touch shape.now b.now }
    ensures exact { result ≡ is_touched shape.now b.now }
{
    match shape {
        Shape::Box(a) => a.touches(b),
        Shape::Point(p) => is_within(p, b),
        Shape::Segment(s) => entry(s, b).is_some(),
    }
}
