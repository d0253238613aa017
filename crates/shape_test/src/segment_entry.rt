ghost use Rattle.std.specs.Prelude.{◌↔◌, IsSome, IfSome};
ghost use Rattle.fixed_box.specs.Touch.{Touch};
ghost use Rattle.fixed_box.specs.declared.Shape.TheVariants.{Segment as Ray};
ghost use Rattle.shape_test.specs.Entry.{IsEntry};

use crate::fraction::Frac;
use crate::spans::Spans;
use fixed_box::{FixBox, Segment};

/// The first fraction of its way at which the segment is in the box, and `None` where it does not touch it.
///
/// It is 0/1 where the segment begins in the box. Else its denominator is the absolute value of the
/// segment's step along the first of x, y, z on which the segment comes between the sides at that fraction.
#[inline]
pub fn entry(s: &Segment, b: &FixBox) -> Option<Frac>
    ensures touch { IsSome result ↔ Touch (Ray s.now) b.now }
    ensures value { IfSome result (IsEntry s.now b.now) }
{
    let spans = Spans::on(s, b)?;
    let enter = spans.latest_enter();
    if spans.end_after(enter) {
        Some(enter)
    } else {
        None
    }
}
