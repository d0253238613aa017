//! The numbers of segments and boxes on one axis: 0 for x, 1 for y, 2 for z.

ghost use Rattle.std.specs.Prelude.{◌≡◌, ◌<◌};
ghost use Rattle.fixed_box.specs.Range.{InRange, IsStep};
ghost use Rattle.fixed_box.specs.Corner.{on_axis, along};

use fixed_box::{Coord, Segment};

/// The coordinate on an axis.
#[inline(always)]
#[tactic(auto, using(fixed_box::proofs::Axis::reads))]
pub(crate) fn coordinate(corner: &[Coord; 3], axis: usize) -> i32
    requires { axis < 3 }
    ensures value { result ≡ on_axis corner.now axis }
    ensures range { InRange result }
{
    corner[axis].value
}

/// The step of a segment along an axis.
#[inline(always)]
#[tactic(auto, using(fixed_box::proofs::Axis::reads, crate::proofs::Passing::IsStep_on))]
pub(crate) fn step(s: &Segment, axis: usize) -> i32
    requires { axis < 3 }
    ensures value { result ≡ along s.now.d axis }
    ensures range { IsStep result }
{
    s.d[axis]
}
