//! Small worlds of one layer with bodies in boxes, and what tests ask of them.
ghost use Rattle.std.specs.Prelude.{◌≡◌, ◌<◌, ◌≤◌, true, All, IfSome, length};
ghost use Rattle.pass_table.specs.Passes.{view_of, IsOf, IsIdle};
ghost use Rattle.pass_table.specs.Turning.{IsUnderWay};
ghost use Rattle.tree_query.specs.Finding.{room_of};

use batch_add::{finalize, prepare};
use body_ident::BodyId;
use body_slots::create;
use fixed_box::{Coord, FixBox, Shape};
use pass_table::{Operation, Pass, Turn, World, open_world};
use std::alloc::Global;
use std::sync::Wait;
use tree_query::{Finder, query};
use word_map::Config;

/// The sizes of a world of one layer and one stripe, for two passes.
pub(crate) fn sizes(bodies: u32, slots: u32, nodes: u32) -> Config
    ensures { (result.bodies ≡ bodies) × (result.layers ≡ 1) }
{
    Config {
        bodies,
        stripes: 1,
        layers: 1,
        slots,
        nodes,
        passes: 2,
    }
}

/// A world of these sizes and its first two passes, of which none has done anything.
pub(crate) fn open_two(alloc: Global, config: Config) -> Option<(World, Pass, Pass)>
    ensures sizes { IfSome result (λ opened. opened.0.map ≡ config) }
    ensures first { IfSome result (λ opened. IsIdle opened.0 opened.1) }
    ensures second { IfSome result (λ opened. IsIdle opened.0 opened.2) }
{
    let Ok((world, mut list)) = open_world(alloc, config) else {
        return None;
    };
    let first = list.next()?;
    let second = list.next()?;
    Some((world, first, second))
}

/// A corner of space. `None` where a coordinate is out of its range.
fn corner(at: [i32; 3]) -> Option<[Coord; 3]> {
    Some([Coord::new(at[0])?, Coord::new(at[1])?, Coord::new(at[2])?])
}

/// The box between two corners.
pub(crate) fn between(lo: [i32; 3], hi: [i32; 3]) -> Option<FixBox> {
    FixBox::new(corner(lo)?, corner(hi)?)
}

/// The shape of a point.
pub(crate) fn point(at: [i32; 3]) -> Option<Shape> {
    Some(Shape::Point(corner(at)?))
}

/// Creates a body in layer 0. `None` where there is no room or the corners make no box.
pub(crate) fn put<R: Wait>(
    rt: &R,
    world: &World,
    pass: &mut Pass,
    lo: [i32; 3],
    hi: [i32; 3],
) -> Option<BodyId>
    requires idle { IsIdle world.now pass.old }
    requires layers { 0 < world.now.map.layers }
    ensures idle { IsIdle world.now pass.new }
    ensures below { IfSome result (λ id. id.index < world.now.map.bodies) }
{
    create(rt, world, pass, 0, between(lo, hi)?, 0).ok()
}

/// Brings bodies into the broad phase in one batch. It answers whether it did.
pub(crate) fn add<R: Wait>(
    rt: &R,
    alloc: Global,
    world: &World,
    pass: &mut Pass,
    ids: &[BodyId],
) -> bool
    requires idle { IsIdle world.now pass.old }
    requires layers { 0 < world.now.map.layers }
    requires below { All (λ id. id.index < world.now.map.bodies) ids.now }
    ensures idle { IsIdle world.now pass.new }
{
    if ids.len() > world.config().bodies as usize {
        return false;
    }
    match prepare(rt, alloc, world, pass, 0, ids) {
        Ok(batch) => {
            finalize(world, pass, batch);
            true
        }
        Err(_) => false,
    }
}

/// Creates so many bodies in a row along an axis, from one coordinate on: boxes 10 units wide, a thousand units apart.
fn put_row<R: Wait>(
    rt: &R,
    alloc: Global,
    world: &World,
    pass: &mut Pass,
    from: i32,
    count: u32,
) -> Option<Vec<BodyId>>
    requires idle { IsIdle world.now pass.old }
    requires layers { 0 < world.now.map.layers }
    ensures idle { IsIdle world.now pass.new }
    ensures below { IfSome result (λ ids. All (λ id. id.index < world.now.map.bodies) ids.items) }
{
    let mut ids = Vec::new(alloc);
    let mut x = from;
    for _ in 0..count {
        let id = put(rt, world, pass, [x, 0, 0], [x.wrapping_add(10), 10, 10])?;
        let Ok(()) = ids.push(id) else {
            return None;
        };
        x = x.wrapping_add(1_000);
    }
    Some(ids)
}

/// Creates such a row and brings it in as one batch. It answers whether all of it came in.
pub(crate) fn add_row<R: Wait>(
    rt: &R,
    alloc: Global,
    world: &World,
    pass: &mut Pass,
    from: i32,
    count: u32,
) -> Option<bool>
    requires idle { IsIdle world.now pass.old }
    requires layers { 0 < world.now.map.layers }
    ensures idle { IsIdle world.now pass.new }
{
    let ids = put_row(rt, alloc, world, pass, from, count)?;
    Some(add(rt, alloc, world, pass, &ids))
}

/// Asks for the bodies of layer 0 that a shape touches.
pub(crate) fn ask<R: Wait>(
    rt: &R,
    world: &World,
    pass: &mut Pass,
    shape: &Shape,
    finder: &mut Finder,
)
    requires idle { IsIdle world.now pass.old }
    requires room { world.now.map.bodies ≤ room_of finder.old }
    ensures idle { IsIdle world.now pass.new }
    ensures room { room_of finder.new ≡ room_of finder.old }
{
    query(rt, world, pass, shape, 1, finder);
}

/// Whether a finder holds just these ids, in this order.
pub(crate) fn holds(finder: &Finder, ids: &[BodyId]) -> bool {
    let mut left = ids.iter();
    for id in finder.ids() {
        if left.next() != Some(&id) {
            return false;
        }
    }
    left.next().is_none()
}

/// Makes turns of an operation until it has reached a label. It answers whether it did; else the operation is at its end.
pub(crate) fn go_to<O: Operation>(
    world: &World,
    pass: &mut Pass,
    operation: &mut O,
    number: u32,
) -> bool
where
    O::Done: Drop,
    requires of { IsOf world.now pass.old }
    requires under_way { IsUnderWay O.under_way operation.old (view_of pass.old) }
    ensures of { IsOf world.now pass.new }
    ensures under_way { result ≡ true → IsUnderWay O.under_way operation.new (view_of pass.new) }
{
    for _ in 0..2_000 {
        if operation
            .label()
            .is_some_and(|label| label.number() >= number)
        {
            return true;
        }
        if let Turn::Done(_) = operation.turn(world, pass) {
            return false;
        }
    }
    false
}
