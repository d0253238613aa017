//! Queries by turns, and what others do between two turns.

use crate::moves::shift;
use crate::places::{add, between, go_to, holds, open_two, put, sizes};
use fixed_box::Shape;
use pass_table::drive;
use std::test::Fail;
use tree_query::{Finder, QueryOp};

#[test]
fn what_joins_behind_the_walk_is_not_found(rt: HostRuntime) -> Result<(), Fail> {
    let alloc = rt.alloc();
    let Some((world, mut pass, mut other)) = open_two(alloc, sizes(4, 2, 4)) else {
        panic!(rt; "no world")
    };
    let Some(bounds) = between([0, 0, 0], [9, 9, 9]) else {
        panic!(rt; "no box")
    };
    let finder = Finder::new(alloc, 4)?;
    let mut asking = QueryOp::new(&world, &mut other, &Shape::Box(bounds), 1, finder);
    // The label 0: both slots were read, and were empty.
    if !go_to(&world, &mut other, &mut asking, 0) {
        panic!(rt; "no label")
    }
    let Some(id) = put(&rt, &world, &mut pass, [0, 0, 0], [10, 10, 10]) else {
        panic!(rt; "no body")
    };
    assert!(rt; add(&rt, alloc, &world, &mut pass, &[id]));
    let finder = drive(&rt, &world, &mut other, &mut asking);
    assert!(rt; holds(&finder, &[]));
    Ok(())
}

#[test]
fn a_candidate_that_moved_away_is_not_answered(rt: HostRuntime) -> Result<(), Fail> {
    let alloc = rt.alloc();
    let Some((world, mut pass, mut other)) = open_two(alloc, sizes(4, 2, 4)) else {
        panic!(rt; "no world")
    };
    let (Some(id), Some(bounds)) = (
        put(&rt, &world, &mut pass, [0, 0, 0], [10, 10, 10]),
        between([0, 0, 0], [20, 20, 20]),
    ) else {
        panic!(rt; "no body")
    };
    assert!(rt; add(&rt, alloc, &world, &mut pass, &[id]));
    let finder = Finder::new(alloc, 4)?;
    let mut asking = QueryOp::new(&world, &mut other, &Shape::Box(bounds), 1, finder);
    // The label 2: the walk is at its end, and no candidate was checked.
    if !go_to(&world, &mut other, &mut asking, 2) {
        panic!(rt; "no label")
    }
    let moved = shift(&rt, &world, &mut pass, id, [100, 0, 0], [110, 10, 10]);
    let finder = drive(&rt, &world, &mut other, &mut asking);
    assert!(rt; moved == Some(Ok(())));
    assert!(rt; holds(&finder, &[]));
    Ok(())
}
