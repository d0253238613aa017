//! Bodies that move while others ask, move beside them, or take them out.
ghost use Rattle.std.specs.Prelude.{◌≡◌, ◌<◌, ◌≤◌, All, IfSome, length};
ghost use Rattle.pass_table.specs.Passes.{IsIdle};

use crate::places::{add, add_row, ask, between, go_to, holds, open_two, point, put, sizes};
use batch_add::{finalize, prepare};
use body_ident::BodyId;
use body_lock::{lock_read, lock_write};
use body_slots::{DestroyRefused, destroy};
use fixed_box::Shape;
use pass_table::{Pass, World, drive};
use remove_body::{RemoveRefused, remove};
use scene_model::{BodyView, Phase};
use std::sync::Wait;
use std::test::Fail;
use tree_query::Finder;
use widen_bounds::{MoveOp, MoveRefused, move_body, move_to};
use word_map::Config;

/// Moves a body to the box between two corners. `None` where the corners make no box.
pub(crate) fn shift<R: Wait>(
    rt: &R,
    world: &World,
    pass: &mut Pass,
    id: BodyId,
    lo: [i32; 3],
    hi: [i32; 3],
) -> Option<Result<(), MoveRefused>>
    requires idle { IsIdle world.now pass.old }
    requires below { id.index < world.now.map.bodies }
    ensures idle { IsIdle world.now pass.new }
{
    let to = between(lo, hi)?;
    Some(move_body(rt, world, pass, id, to))
}

/// The sizes of a world of four stripes, so that two bodies may move at once.
fn four_stripes() -> Config
    ensures { (result.bodies ≡ 32) × (result.layers ≡ 1) }
{
    Config {
        stripes: 4,
        ..sizes(32, 4, 16)
    }
}

#[test]
fn two_bodies_of_one_node_move_at_once(rt: HostRuntime) -> Result<(), Fail> {
    let alloc = rt.alloc();
    let Some((world, mut pass, mut other)) = open_two(alloc, four_stripes()) else {
        panic!(rt; "no world")
    };
    let (a, b) = (BodyId::new(0, 1), BodyId::new(1, 1));
    let mut finder = Finder::new(alloc, 32)?;
    // The tree over 17 bodies in a row has three levels, and the first two share a node of the deepest one.
    assert!(rt; add_row(&rt, alloc, &world, &mut pass, 0, 17) == Some(true));
    let (Some(up), Some(near), Some(far)) = (
        between([0, 100_000, 0], [10, 100_010, 10]),
        point([1_005, 50_005, 5]),
        point([5, 100_005, 5]),
    ) else {
        panic!(rt; "no box")
    };
    let mut moving = MoveOp::new(&world, &mut other, a, up);
    // The label 0: of the way up the bounds of the body's entry and of its node are widened. They contain the new box of
    // the other body too, and the bounds above do not.
    if !go_to(&world, &mut other, &mut moving, 0) {
        panic!(rt; "no label")
    }
    let moved = shift(
        &rt,
        &world,
        &mut pass,
        b,
        [1_000, 50_000, 0],
        [1_010, 50_010, 10],
    );
    ask(&rt, &world, &mut pass, &near, &mut finder);
    let early = holds(&finder, &[b]);
    let answer = drive(&rt, &world, &mut other, &mut moving);
    assert!(rt; moved == Some(Ok(())));
    assert!(rt; early);
    assert!(rt; answer == Ok(()));
    ask(&rt, &world, &mut pass, &far, &mut finder);
    assert!(rt; holds(&finder, &[a]));
    Ok(())
}

/// The body that the id names, as it is seen under its lock.
fn seen<R: Wait>(rt: &R, world: &World, pass: &mut Pass, id: BodyId) -> Option<BodyView>
    requires idle { IsIdle world.now pass.old }
    requires below { id.index < world.now.map.bodies }
    ensures idle { IsIdle world.now pass.new }
{
    let guard = lock_read(rt, world, pass, id).ok()?;
    let view = guard.view(world, pass);
    guard.unlock(world, pass);
    Some(view)
}

#[test]
fn a_held_body_does_not_move_and_a_body_in_the_broad_phase_does(
    rt: HostRuntime,
) -> Result<(), Fail> {
    let alloc = rt.alloc();
    let Some((world, mut pass, mut other)) = open_two(alloc, sizes(4, 1, 4)) else {
        panic!(rt; "no world")
    };
    let (Some(id), Some(bounds)) = (
        put(&rt, &world, &mut pass, [0, 0, 0], [1, 1, 1]),
        between([1, 1, 1], [2, 2, 2]),
    ) else {
        panic!(rt; "no body")
    };
    let Ok(batch) = prepare(&rt, alloc, &world, &mut pass, 0, &[id]) else {
        panic!(rt; "not prepared")
    };
    // The word of the slot is one more than the number of the pass that reserved it.
    let early = shift(&rt, &world, &mut other, id, [1, 1, 1], [2, 2, 2]);
    finalize(&world, &mut pass, batch);
    assert!(rt; early == Some(Err(MoveRefused::Held { slot: 1 })));
    assert!(rt; shift(&rt, &world, &mut other, id, [1, 1, 1], [2, 2, 2]) == Some(Ok(())));
    let used = destroy(&rt, &world, &mut other, id);
    assert!(rt; used == Err(DestroyRefused::InUse { phase: Phase::In }));
    let moved = BodyView {
        id,
        layer: 0,
        bounds,
        user: 0,
        phase: Phase::In,
    };
    assert!(rt; seen(&rt, &world, &mut other, id) == Some(moved));
    assert!(rt; remove(&rt, &world, &mut other, id) == Ok(()));
    assert!(rt; remove(&rt, &world, &mut other, id) == Err(RemoveRefused::NotIn { phase: 0 }));
    // A body that is out is moved too, and is out still.
    assert!(rt; shift(&rt, &world, &mut other, id, [3, 3, 3], [4, 4, 4]) == Some(Ok(())));
    assert!(rt; destroy(&rt, &world, &mut other, id).is_ok());
    let late = shift(&rt, &world, &mut other, id, [0, 0, 0], [1, 1, 1]);
    assert!(rt; late == Some(Err(MoveRefused::Gone { state: 1 })));
    Ok(())
}

#[test]
fn a_body_moves_under_its_guard(rt: HostRuntime) -> Result<(), Fail> {
    let alloc = rt.alloc();
    let Some((world, mut pass, _other)) = open_two(alloc, sizes(4, 1, 4)) else {
        panic!(rt; "no world")
    };
    let (Some(id), Some(to)) = (
        put(&rt, &world, &mut pass, [0, 0, 0], [1, 1, 1]),
        between([5, 5, 5], [6, 6, 6]),
    ) else {
        panic!(rt; "no body")
    };
    assert!(rt; add(&rt, alloc, &world, &mut pass, &[id]));
    let Ok(mut guard) = lock_write(&rt, &world, &mut pass, id) else {
        panic!(rt; "not locked")
    };
    let answer = move_to(&world, &mut pass, &mut guard, to);
    let bounds = guard.view(&world, &mut pass).bounds;
    guard.unlock(&world, &mut pass);
    assert!(rt; answer.is_ok());
    assert!(rt; bounds == to);
    let mut finder = Finder::new(alloc, 4)?;
    ask(&rt, &world, &mut pass, &Shape::Box(to), &mut finder);
    assert!(rt; holds(&finder, &[id]));
    Ok(())
}
