ghost use Rattle.std.specs.Prelude.{◌≡◌, ◌↔◌, ◌≤ℤ◌, pos, negsuc, IsTrue, IsSome, IfSome};
ghost use Rattle.fixed_box.specs.Range.{IsStep};
ghost use Rattle.fixed_box.specs.Corner.{OnEachAxis, along, IsReach};

use crate::coord::Coord;

/// The points from `o` to `o + d`, both included, in 1/1024 metre.
///
/// Its end may lie out of the range of coordinates. With `d` all zero it is the one point `o`.
#[derive(Clone, Copy, Debug, PartialEq, Eq)]
pub struct Segment {
    pub o: [Coord; 3],
    pub d: [i32; 3],
    pub ghost in_reach: { IsReach o d },
}

/// Whether a step is -16,777,215 to 16,777,215.
fn is_step(v: i32) -> bool
    ensures { IsTrue result ↔ IsStep v }
{
    -Segment::LONGEST <= v && v <= Segment::LONGEST
}

impl Segment {
    /// The longest step on one axis, either way: as far as two coordinates can be apart.
    pub const LONGEST: i32 = 16_777_215;

    /// The segment from `o` with these steps, and `None` where some step is out of -16,777,215 to
    /// 16,777,215.
    pub fn new(o: [Coord; 3], d: [i32; 3]) -> Option<Segment>
        ensures in_reach { IsSome result ↔ OnEachAxis (λ axis. IsStep (along d axis)) }
        ensures value { IfSome result (λ s. (s.o ≡ o) × (s.d ≡ d)) }
    {
        if is_step(d[0]) && is_step(d[1]) && is_step(d[2]) {
            Some(Segment { o, d })
        } else {
            None
        }
    }
}
