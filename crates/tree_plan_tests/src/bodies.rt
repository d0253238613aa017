//! Bodies to plan.

use fixed_box::{Coord, FixBox};
use std::alloc::{AllocError, Global};

/// A corner at a place.
fn corner(at: [i32; 3]) -> Option<[Coord; 3]> {
    let [x, y, z] = at;
    Some([Coord::new(x)?, Coord::new(y)?, Coord::new(z)?])
}

/// The box between two places.
pub(crate) fn box_between(lo: [i32; 3], hi: [i32; 3]) -> Option<FixBox> {
    FixBox::new(corner(lo)?, corner(hi)?)
}

/// The next number of a fixed row.
fn next(seed: u32) -> u32 {
    seed.wrapping_mul(1_664_525).wrapping_add(1_013_904_223)
}

/// So many bodies at places that are below `reach` on each axis. Their indexes have gaps.
pub(crate) fn some_bodies(
    alloc: Global,
    count: u32,
    reach: u32,
) -> Result<Vec<(u32, FixBox)>, AllocError> {
    let mut bodies = Vec::new(alloc);
    let mut seed = count;
    for k in 0..count {
        let x = next(seed);
        let y = next(x);
        seed = next(y);
        let place = |n: u32| (n / 1024 % reach.max(1) % 100_000) as i32;
        let at = [place(x), place(y), place(seed)];
        if let Some(b) = box_between(at, at) {
            bodies.push((k.wrapping_mul(3), b))?;
        }
    }
    Ok(bodies)
}
