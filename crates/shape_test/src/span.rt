ghost use Rattle.std.specs.Prelude.{◌≤◌};

use crate::run::Run;
use fixed_box::{FixBox, Segment};

/// The part of a segment's way on which it is between the sides of a box on one axis: from `enter / length`
/// to `leave / length` of the way. Where the length is 0 it is all of the way.
#[derive(Clone, Copy)]
pub(crate) struct Span {
    pub(crate) enter: u64,
    pub(crate) leave: u64,
    pub(crate) length: u64,
    pub(crate) ghost on_the_way: { enter ≤ length },
    pub(crate) ghost ordered: { enter ≤ leave },
    pub(crate) ghost small: { (length ≤ 16777215) × (leave ≤ 16777215) },
}

impl Span {
    ghost use Rattle.std.specs.Prelude.{◌<◌, pos, ◌≤ℤ◌};
    ghost use Rattle.shape_test.specs.Gap.{gap_of};
    ghost use Rattle.shape_test.specs.Run.{IsSpan};
    ghost use Rattle.shape_test.specs.Spans.{IsSpanOn};

    /// The span of a run that comes between the sides.
    #[inline(always)]
    fn of(run: Run) -> Span
        requires near { run.near ≤ℤ run.length }
        requires far { pos 0 ≤ℤ run.far }
        ensures { IsSpan run result }
    {
        Span {
            enter: run.near.max(0) as u64,
            leave: run.far as u64,
            length: run.length as u64,
        }
    }

    /// The span on an axis on which the box is neither above nor below all of the way.
    #[inline(always)]
    pub(crate) fn on(s: &Segment, b: &FixBox, axis: usize) -> Span
        requires axis { axis < 3 }
        requires near { gap_of s.now b.now axis ≤ℤ pos 0 }
        ensures { IsSpanOn s.now b.now axis result }
    {
        Span::of(Run::on(s, b, axis))
    }
}
