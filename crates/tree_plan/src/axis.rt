ghost use Rattle.std.specs.Prelude.{◌≡◌, ◌<◌, ◌+◌, ◌*◌, pos, ◌+ℤ◌, ◌-ℤ◌, unsigned_abs, length};
ghost use Rattle.std.specs.List.{All};
ghost use Rattle.std.specs.Int.{int_min, int_max};
ghost use Rattle.scene_model.specs.Tree.{centre, spread, widest};
ghost use Rattle.tree_plan.specs.Axes.{IsCentre, axis_number, key_of, IsExtent};

use fixed_box::{Coord, FixBox};

/// One of the three axes.
#[derive(Clone, Copy, Debug, PartialEq, Eq)]
pub(crate) enum Axis {
    X,
    Y,
    Z,
}

/// The doubled centre between two coordinates, in 1/1024 metre.
fn doubled_centre(low: Coord, high: Coord) -> i32
    ensures value { result ≡ low.value +ℤ high.value }
    ensures in_range { IsCentre result }
{
    low.value + high.value
}

/// The doubled centre of a body on an axis, in 1/1024 metre.
fn centre(body: &(u32, FixBox), axis: Axis) -> i32
    ensures value { result ≡ centre (axis_number axis) body.now }
    ensures in_range { IsCentre result }
{
    let bounds = &body.1;
    match axis {
        Axis::X => doubled_centre(bounds.lo[0], bounds.hi[0]),
        Axis::Y => doubled_centre(bounds.lo[1], bounds.hi[1]),
        Axis::Z => doubled_centre(bounds.lo[2], bounds.hi[2]),
    }
}

/// A doubled centre above an index.
fn pack(centre: i32, index: u32) -> u64
    requires { IsCentre centre }
    ensures { result ≡ unsigned_abs (centre +ℤ pos 16777216) * 4294967296 + index }
{
    let raised = centre + 16_777_216;
    raised as u64 * 4_294_967_296 + u64::from(index)
}

/// The key of a body on an axis: its doubled centre above its index. The lesser key comes first.
pub(crate) fn key(body: &(u32, FixBox), axis: Axis) -> u64
    ensures { result ≡ key_of (axis_number axis) body.now }
{
    pack(centre(body, axis), body.0)
}

/// The least and the greatest of some doubled centres.
#[derive(Clone, Copy, Debug)]
struct Extent {
    low: i32,
    high: i32,
}

impl Extent {
    /// From a body's centre to itself.
    fn of(body: &(u32, FixBox), axis: Axis) -> Extent
        ensures low { result.low ≡ centre (axis_number axis) body.now }
        ensures high { result.high ≡ centre (axis_number axis) body.now }
        ensures in_range { IsCentre result.low }
    {
        let centre = centre(body, axis);
        Extent {
            low: centre,
            high: centre,
        }
    }

    /// With one body more.
    fn with(self, body: &(u32, FixBox), axis: Axis) -> Extent
        ensures low { result.low ≡ int_min self.low (centre (axis_number axis) body.now) }
        ensures high { result.high ≡ int_max self.high (centre (axis_number axis) body.now) }
        ensures low_in { IsCentre self.low → IsCentre result.low }
        ensures high_in { IsCentre self.high → IsCentre result.high }
    {
        let centre = centre(body, axis);
        let low = if centre < self.low { centre } else { self.low };
        let high = if centre < self.high {
            self.high
        } else {
            centre
        };
        Extent { low, high }
    }

    /// How far the greatest is above the least.
    fn spread(self) -> i32
        requires low { IsCentre self.low }
        requires high { IsCentre self.high }
        ensures { result ≡ self.high -ℤ self.low }
    {
        self.high - self.low
    }
}

/// The extents of some bodies on the three axes.
#[derive(Clone, Copy, Debug)]
struct Extents {
    x: Extent,
    y: Extent,
    z: Extent,
}

/// An index, which fits its type.
fn index_of(index: u32) -> u32
    ensures value { result ≡ index }
    ensures small { result < 4294967296 }
{
    index
}

/// One pass over the bodies finds their extents on all axes.
fn extents_of(bodies: &[(u32, FixBox)]) -> Extents
    requires { 0 < length bodies.now }
    ensures indexes { All (λ b. b.0 < 4294967296) bodies.now }
    ensures x { IsExtent 0 bodies.now result.x.low result.x.high }
    ensures y { IsExtent 1 bodies.now result.y.low result.y.high }
    ensures z { IsExtent 2 bodies.now result.z.low result.z.high }
{
    let first = &bodies[0];
    let mut x = Extent::of(first, Axis::X);
    let mut y = Extent::of(first, Axis::Y);
    let mut z = Extent::of(first, Axis::Z);
    for body in bodies {
        // To read an index tells the proof that it fits.
        let _index = index_of(body.0);
        x = x.with(body, Axis::X);
        y = y.with(body, Axis::Y);
        z = z.with(body, Axis::Z);
    }
    Extents { x, y, z }
}

/// The axis on which the bodies are spread widest, the first of x, y, z where equal.
pub(crate) fn widest(bodies: &[(u32, FixBox)]) -> Axis
    requires { 0 < length bodies.now }
    ensures axis { axis_number result ≡ widest bodies.now }
    ensures indexes { All (λ b. b.0 < 4294967296) bodies.now }
{
    let extents = extents_of(bodies);
    let x = extents.x.spread();
    let y = extents.y.spread();
    let z = extents.z.spread();
    if x < y {
        if y < z { Axis::Z } else { Axis::Y }
    } else if x < z {
        Axis::Z
    } else {
        Axis::X
    }
}
