//! Boxes and segments by a generator of a fixed seed.
ghost use Rattle.std.specs.Prelude.{pos, ◌<◌, ◌≤ℤ◌};

use fixed_box::{Coord, FixBox, Segment};
use rand_core::utils::NextWord;
use rand_pcg::Pcg32;

/// The generator, at its beginning.
pub(crate) fn generator() -> Pcg32 {
    Pcg32::new(42, 54)
}

/// A number from 0 to 999,999, divided by so many parts.
fn part(random: &mut Pcg32, parts: u32) -> i32
    requires { 0 < parts }
    ensures low { pos 0 ≤ℤ result }
    ensures high { result ≤ℤ pos 999999 }
{
    (random.next_word() % 1_000_000 / parts) as i32
}

fn corner(random: &mut Pcg32) -> Option<[Coord; 3]> {
    let x = Coord::new(part(random, 1))?;
    let y = Coord::new(part(random, 1))?;
    let z = Coord::new(part(random, 1))?;
    Some([x, y, z])
}

fn further(random: &mut Pcg32, from: Coord, parts: u32) -> Option<Coord>
    requires { 0 < parts }
{
    Coord::new(from.get() + part(random, parts))
}

/// A box in the million units from 0 on, of up to one of so many parts of them on each side.
pub(crate) fn a_box(random: &mut Pcg32, parts: u32) -> Option<FixBox>
    requires { 0 < parts }
{
    let lo = corner(random)?;
    let x = further(random, lo[0], parts)?;
    let y = further(random, lo[1], parts)?;
    let z = further(random, lo[2], parts)?;
    FixBox::new(lo, [x, y, z])
}

/// A segment that goes up to half a million units either way on each axis.
pub(crate) fn a_segment(random: &mut Pcg32) -> Option<Segment> {
    let o = corner(random)?;
    let x = part(random, 1) - 500_000;
    let y = part(random, 1) - 500_000;
    let z = part(random, 1) - 500_000;
    Segment::new(o, [x, y, z])
}
