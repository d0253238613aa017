ghost use Rattle.std.specs.Prelude.{◌≡◌, ◌≤◌};

use crate::bodies::some_bodies;
use crate::definition::nodes_from;
use fixed_box::FixBox;
use std::alloc::{AllocError, Global};
use std::process::Abort;
use std::test::Fail;
use tree_plan::{Planner, indexes_rise, need};

#[test]
fn needs_of_small_and_large_trees(rt: HostRuntime) {
    let needs: [(u32, u32); 7] = [
        (0, 0),
        (1, 1),
        (4, 1),
        (5, 2),
        (16, 5),
        (17, 6),
        (65_536, 21_845),
    ];
    for (bodies, nodes) in needs {
        assert_eq!(rt; need(bodies), nodes);
    }
}

/// Plans the bodies where they are few and their indexes rise.
fn fill(planner: &mut Planner, bodies: &mut [(u32, FixBox)])
    requires { 1000 ≤ planner.old.most }
    ensures { planner.new.most ≡ planner.old.most }
{
    if bodies.len() <= 1000 && indexes_rise(bodies) {
        planner.fill(bodies);
    }
}

/// A planner that has planned the bodies, and then again from the order in which it left them.
fn planned(
    alloc: Global,
    bodies: &mut [(u32, FixBox)],
    again: bool,
) -> Result<Planner, AllocError> {
    let mut planner = Planner::new(alloc, 1000)?;
    if bodies.len() <= 1000 && indexes_rise(bodies) {
        planner.fill(bodies);
        if again {
            planner.fill(bodies);
        }
    }
    Ok(planner)
}

/// Plans the bodies and compares the plan with the definition.
fn compare(
    rt: &impl Abort,
    alloc: Global,
    bodies: &mut [(u32, FixBox)],
    again: bool,
) -> Result<(), Fail> {
    let given = bodies.to_vec(alloc)?;
    let planner = planned(alloc, bodies, again)?;
    assert!(rt; given.len() <= 1000);
    assert_eq!(rt; planner.len(), need(given.len() as u32));
    if planner.len() > 0 {
        assert_eq!(rt; planner.parent(0), None);
        assert_eq!(rt; nodes_from(alloc, 11, &planner, 0, &given)?, planner.len());
    }
    Ok(())
}

#[test]
fn plans_of_up_to_70_bodies_are_the_definition(rt: HostRuntime) -> Result<(), Fail> {
    for count in 0..71 {
        let mut bodies = some_bodies(rt.alloc(), count, 100_000)?;
        compare(&rt, rt.alloc(), &mut bodies, false)?;
    }
    Ok(())
}

/// At a reach of 1 all stand at one point.
#[test]
fn equal_centres_are_told_apart_by_index(rt: HostRuntime) -> Result<(), Fail> {
    for reach in 1..4 {
        let mut bodies = some_bodies(rt.alloc(), 40, reach)?;
        compare(&rt, rt.alloc(), &mut bodies, true)?;
    }
    Ok(())
}

#[test]
fn a_planner_serves_again(rt: HostRuntime) -> Result<(), Fail> {
    let mut few = some_bodies(rt.alloc(), 3, 1000)?;
    let mut many = some_bodies(rt.alloc(), 30, 1000)?;
    let mut planner = Planner::new(rt.alloc(), 1000)?;
    assert_eq!(rt; planner.len(), 0);
    fill(&mut planner, &mut many);
    assert_eq!(rt; planner.len(), need(30));
    fill(&mut planner, &mut few);
    assert_eq!(rt; planner.len(), 1);
    assert_eq!(rt; planner.parent(0), None);
    Ok(())
}

#[test]
fn indexes_that_repeat_do_not_rise(rt: HostRuntime) -> Result<(), Fail> {
    let mut bodies = some_bodies(rt.alloc(), 3, 1000)?;
    assert!(rt; indexes_rise(&bodies));
    if let Some(body) = bodies.last().copied() {
        bodies.push(body)?;
    }
    assert!(rt; !indexes_rise(&bodies));
    Ok(())
}
