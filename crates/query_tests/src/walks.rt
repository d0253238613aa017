//! What queries find in small worlds, and how many words they read.

use crate::places::{add, add_row, ask, between, holds, open_two, point, put, sizes};
use batch_add::{abort, prepare};
use fixed_box::Shape;
use std::test::Fail;
use tree_query::{Finder, collect};

#[test]
fn a_point_beside_all_bodies_costs_59_loads(rt: HostRuntime) -> Result<(), Fail> {
    let alloc = rt.alloc();
    let Some((world, mut pass, _other)) = open_two(alloc, sizes(1_000, 2, 1_000)) else {
        panic!(rt; "no world")
    };
    assert!(rt; add_row(&rt, alloc, &world, &mut pass, 0, 500) == Some(true));
    assert!(rt; add_row(&rt, alloc, &world, &mut pass, 500_000, 500) == Some(true));
    let Some(shape) = point([-5, 5, 5]) else {
        panic!(rt; "no point")
    };
    let mut finder = Finder::new(alloc, 1_000)?;
    collect(&world, &mut pass, &shape, 1, &mut finder);
    assert!(rt; holds(&finder, &[]));
    assert!(rt; finder.loads() == 59);
    Ok(())
}

#[test]
fn a_batch_is_found_once_it_is_attached(rt: HostRuntime) -> Result<(), Fail> {
    let alloc = rt.alloc();
    let Some((world, mut pass, _other)) = open_two(alloc, sizes(4, 2, 4)) else {
        panic!(rt; "no world")
    };
    let Some(bounds) = between([0, 0, 0], [9, 9, 9]) else {
        panic!(rt; "no box")
    };
    let shape = Shape::Box(bounds);
    let mut finder = Finder::new(alloc, 4)?;
    let Some(id) = put(&rt, &world, &mut pass, [0, 0, 0], [10, 10, 10]) else {
        panic!(rt; "no body")
    };
    let Ok(batch) = prepare(&rt, alloc, &world, &mut pass, 0, &[id]) else {
        panic!(rt; "not prepared")
    };
    // While it is asked the batch stays good, so that it can be given up afterwards.
    collect(&world, &mut pass, &shape, 1, &mut finder);
    let early = holds(&finder, &[]);
    abort(&rt, &world, &mut pass, batch);
    assert!(rt; early);
    ask(&rt, &world, &mut pass, &shape, &mut finder);
    assert!(rt; holds(&finder, &[]));
    assert!(rt; add(&rt, alloc, &world, &mut pass, &[id]));
    ask(&rt, &world, &mut pass, &shape, &mut finder);
    assert!(rt; holds(&finder, &[id]));
    Ok(())
}
