//! The bounds of small trees that are planned.
ghost use Rattle.std.specs.Prelude.{◌≡◌, ◌≤◌};

use fixed_box::{Coord, FixBox};
use std::alloc::{AllocError, Global};
use std::test::Fail;
use tree_bounds::TreeBounds;
use tree_plan::{Planner, indexes_rise};

/// Plans the bodies, where they are few and their indexes rise, and computes the bounds.
fn fill(
    alloc: Global,
    planner: &mut Planner,
    bounds: &mut TreeBounds,
    bodies: &[(u32, FixBox)],
) -> Result<(), AllocError>
    requires planner { 100 ≤ planner.old.most }
    requires bounds { 100 ≤ bounds.old.most }
    ensures planner_most { planner.new.most ≡ planner.old.most }
    ensures bounds_most { bounds.new.most ≡ bounds.old.most }
{
    let mut bodies = bodies.to_vec(alloc)?;
    if bodies.len() <= 100 && indexes_rise(&bodies) {
        bounds.plan(planner, &mut bodies);
    }
    Ok(())
}

fn cuboid(lo: [i32; 3], hi: [i32; 3]) -> Option<FixBox> {
    let [x0, y0, z0] = lo;
    let [x1, y1, z1] = hi;
    FixBox::new(
        [Coord::new(x0)?, Coord::new(y0)?, Coord::new(z0)?],
        [Coord::new(x1)?, Coord::new(y1)?, Coord::new(z1)?],
    )
}

/// So many bodies in a row along x, each larger than the one before it, with indexes 2, 5, 8 and so on.
fn row(alloc: Global, count: u32) -> Result<Vec<(u32, FixBox)>, AllocError>
    requires { count ≤ 100 }
{
    let mut bodies = Vec::new(alloc);
    for k in 0..count {
        let n = k as i32;
        if let Some(b) = cuboid([1000 * n, -n, 0], [1000 * n + 10, 5 * n, 9 * n]) {
            bodies.push((3 * k + 2, b))?;
        }
    }
    Ok(bodies)
}

/// Whether the bound of this child of a node is the box with these corners.
fn is_bound(bounds: &TreeBounds, node: u32, child: u32, lo: [i32; 3], hi: [i32; 3]) -> bool {
    if node >= bounds.len() || child >= 4 {
        return false;
    }
    cuboid(lo, hi) == Some(bounds.bound(node, child))
}

/// Whether the bounds of these children of nodes have these corners.
fn are_bounds(bounds: &TreeBounds, children: &[(u32, u32, [i32; 3], [i32; 3])]) -> bool {
    let mut all = true;
    for (node, child, lo, hi) in children {
        all &= is_bound(bounds, *node, *child, *lo, *hi);
    }
    all
}

#[test]
fn six_in_a_row(rt: HostRuntime) -> Result<(), Fail> {
    let bodies = row(rt.alloc(), 6)?;
    let mut planner = Planner::new(rt.alloc(), 100)?;
    let mut bounds = TreeBounds::new(rt.alloc(), 100)?;
    fill(rt.alloc(), &mut planner, &mut bounds, &bodies)?;
    assert_eq!(rt; bounds.len(), 3);
    let children = [
        (0, 0, [0, -1, 0], [1010, 5, 9]),
        (0, 1, [2000, -2, 0], [2010, 10, 18]),
        (0, 2, [3000, -4, 0], [4010, 20, 36]),
        (0, 3, [5000, -5, 0], [5010, 25, 45]),
        (1, 0, [0, 0, 0], [10, 0, 0]),
        (1, 2, [1000, -1, 0], [1010, 5, 9]),
        (2, 0, [3000, -3, 0], [3010, 15, 27]),
        (2, 2, [4000, -4, 0], [4010, 20, 36]),
    ];
    assert!(rt; are_bounds(&bounds, &children));
    Ok(())
}

/// The same bounds serve for one tree after another. In the second a node stands over a node.
#[test]
fn seventeen_after_one(rt: HostRuntime) -> Result<(), Fail> {
    let one = row(rt.alloc(), 1)?;
    let many = row(rt.alloc(), 17)?;
    let mut planner = Planner::new(rt.alloc(), 100)?;
    let mut bounds = TreeBounds::new(rt.alloc(), 100)?;
    assert_eq!(rt; bounds.len(), 0);
    fill(rt.alloc(), &mut planner, &mut bounds, &one)?;
    assert_eq!(rt; bounds.len(), 1);
    assert!(rt; is_bound(&bounds, 0, 0, [0, 0, 0], [10, 0, 0]));
    fill(rt.alloc(), &mut planner, &mut bounds, &many)?;
    assert_eq!(rt; bounds.len(), 6);
    let children = [
        (0, 0, [0, -4, 0], [4010, 20, 36]),
        (0, 3, [13_000, -16, 0], [16_010, 80, 144]),
        (1, 0, [0, -1, 0], [1010, 5, 9]),
    ];
    assert!(rt; are_bounds(&bounds, &children));
    Ok(())
}
