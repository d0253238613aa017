use crate::bodies::box_between;
use fixed_box::FixBox;
use std::alloc::{AllocError, Global};
use std::test::Fail;
use tree_plan::{PlanChild, Planner, indexes_rise};

/// So many boxes in a row along x, 10 wide and 1,000 apart.
fn row_of(alloc: Global, count: u32) -> Result<Vec<(u32, FixBox)>, AllocError> {
    let mut bodies = Vec::new(alloc);
    for index in 0..count {
        let x = (index % 8192 * 1000) as i32;
        if let Some(bounds) = box_between([x, 0, 0], [x + 10, 10, 10]) {
            bodies.push((index, bounds))?;
        }
    }
    Ok(bodies)
}

/// How many levels of nodes stand from this one down, where they are no more than so many.
fn levels_from(most: u32, planner: &Planner, node: u32) -> u32 {
    if most == 0 || node >= planner.len() {
        return 0;
    }
    let mut below = 0;
    for child in 0..4 {
        if let PlanChild::Node(m) = planner.child(node, child) {
            below = below.max(levels_from(most - 1, planner, m));
        }
    }
    below.saturating_add(1)
}

// A planner with room for 17 bodies plans them: the tree has 6 nodes and 3 levels, and the first two share the deepest.
#[test]
fn seventeen_in_a_row(rt: HostRuntime) -> Result<(), Fail> {
    let mut bodies = row_of(rt.alloc(), 17)?;
    let mut planner = Planner::new(rt.alloc(), 17)?;
    if bodies.len() <= 17 && indexes_rise(&bodies) {
        planner.fill(&mut bodies);
    }
    assert_eq!(rt; planner.len(), 6);
    assert_eq!(rt; levels_from(11, &planner, 0), 3);
    assert_eq!(rt; planner.child(0, 0), PlanChild::Node(1));
    assert_eq!(rt; planner.child(0, 3), PlanChild::Node(4));
    assert_eq!(rt; planner.parent(4), Some((0, 3)));
    assert_eq!(rt; planner.parent(5), Some((1, 0)));
    assert_eq!(rt; planner.child(1, 0), PlanChild::Node(5));
    assert_eq!(rt; planner.child(1, 1), PlanChild::Body(2));
    assert_eq!(rt; planner.child(5, 0), PlanChild::Body(0));
    assert_eq!(rt; planner.child(5, 1), PlanChild::Nothing);
    assert_eq!(rt; planner.child(5, 2), PlanChild::Body(1));
    assert_eq!(rt; planner.child(4, 3), PlanChild::Body(16));
    Ok(())
}
