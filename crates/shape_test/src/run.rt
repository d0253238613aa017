ghost use Rattle.std.specs.Prelude.{◌≡◌, ◌<◌, pos, ◌≤ℤ◌};
ghost use Rattle.fixed_box.specs.Range.{IsStep};

use crate::axis::{coordinate, step};
use fixed_box::{FixBox, Segment};

/// How a segment passes a box on one axis, seen from where it begins and in the direction that it goes:
/// how far off the near and the far side of the box are, and how far the segment goes.
#[derive(Clone, Copy)]
pub(crate) struct Run {
    pub(crate) near: i32,
    pub(crate) far: i32,
    pub(crate) length: i32,
    pub(crate) ghost in_range: { IsStep near × IsStep far × IsStep length },
    pub(crate) ghost ordered: { near ≤ℤ far },
    pub(crate) ghost onward: { pos 0 ≤ℤ length },
}

impl Run {
    ghost use Rattle.shape_test.specs.Run.{IsRun};

    /// The run on an axis.
    #[inline(always)]
    pub(crate) fn on(s: &Segment, b: &FixBox, axis: usize) -> Run
        requires { axis < 3 }
        ensures { IsRun s.now b.now axis result }
    {
        let begin = coordinate(&s.o, axis);
        let step = step(s, axis);
        let low = coordinate(&b.lo, axis);
        let high = coordinate(&b.hi, axis);
        if step < 0 {
            return Run {
                near: begin - high,
                far: begin - low,
                length: -step,
            };
        }
        Run {
            near: low - begin,
            far: high - begin,
            length: step,
        }
    }
}
