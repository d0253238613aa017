//! Corners of boxes: three coordinates, on the axes x, y, z.

ghost use Rattle.std.specs.Prelude.{◌≡◌, ◌↔◌, IsTrue};
ghost use Rattle.fixed_box.specs.Corner.{is_at_most, IsLeast, IsGreatest, CanShift, IsShifted};

use crate::coord::Coord;

/// Whether on each axis the one corner is at most the other.
#[inline]
#[tactic(auto, using(crate::proofs::Axis::reads))]
pub(crate) fn is_at_most(a: &[Coord; 3], b: &[Coord; 3]) -> bool
    ensures { result ≡ is_at_most a.now b.now }
{
    (a[0].value <= b[0].value) & (a[1].value <= b[1].value) & (a[2].value <= b[2].value)
}

/// On each axis the lesser of two.
#[inline]
#[tactic(auto, using(crate::proofs::Axis::reads))]
pub(crate) fn least(a: &[Coord; 3], b: &[Coord; 3]) -> [Coord; 3]
    ensures { IsLeast a.now b.now result }
{
    [a[0].min(b[0]), a[1].min(b[1]), a[2].min(b[2])]
}

/// On each axis the greater of two.
#[inline]
#[tactic(auto, using(crate::proofs::Axis::reads))]
pub(crate) fn greatest(a: &[Coord; 3], b: &[Coord; 3]) -> [Coord; 3]
    ensures { IsGreatest a.now b.now result }
{
    [a[0].max(b[0]), a[1].max(b[1]), a[2].max(b[2])]
}

/// Whether the corner stays in range where it is moved by `v`.
#[inline]
#[tactic(auto, using(crate::proofs::Axis::reads))]
pub(crate) fn can_shift(corner: &[Coord; 3], v: [i32; 3]) -> bool
    ensures { IsTrue result ↔ CanShift corner.now v }
{
    corner[0].can_shift(v[0]) & corner[1].can_shift(v[1]) & corner[2].can_shift(v[2])
}

/// The corner moved by `v`.
#[inline]
#[tactic(auto, using(crate::proofs::Axis::reads))]
pub(crate) fn shift(corner: &[Coord; 3], v: [i32; 3]) -> [Coord; 3]
    requires { CanShift corner.now v }
    ensures { IsShifted corner.now v result }
{
    [
        corner[0].shift(v[0]),
        corner[1].shift(v[1]),
        corner[2].shift(v[2]),
    ]
}
