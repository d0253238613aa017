//! Bodies that tests create and destroy.
ghost use Rattle.std.specs.Prelude.{◌≡◌, ◌<◌, ◌≤◌, IfOk};
ghost use Rattle.pass_table.specs.Passes.{IsIdle};

use body_ident::BodyId;
use body_slots::{DestroyRefused, Full, create, destroy};
use fixed_box::{Coord, FixBox};
use pass_table::{Pass, World};
use std::sync::Wait;

/// The box of the one point in the middle of space.
fn point() -> FixBox {
    let Some(zero) = Coord::new(0) else {
        unreachable!()
    };
    let Some(point) = FixBox::new([zero; 3], [zero; 3]) else {
        unreachable!()
    };
    point
}

/// Creates a body with this user number in layer 0. Its box is one point.
pub(crate) fn create_body<R: Wait>(
    rt: &R,
    world: &World,
    pass: &mut Pass,
    user: u32,
) -> Result<BodyId, Full>
    requires idle { IsIdle world.now pass.old }
    requires layers { 0 < world.now.map.layers }
    ensures idle { IsIdle world.now pass.new }
    ensures below { IfOk result (λ id. id.index < world.now.map.bodies) }
{
    create(rt, world, pass, 0, point(), user)
}

/// Creates a body in the second layer.
pub(crate) fn create_in_second<R: Wait>(
    rt: &R,
    world: &World,
    pass: &mut Pass,
) -> Result<BodyId, Full>
    requires idle { IsIdle world.now pass.old }
    requires layers { 1 < world.now.map.layers }
    ensures idle { IsIdle world.now pass.new }
{
    create(rt, world, pass, 1, point(), 7)
}

/// Creates the first bodies of a new world, so many of them. Answers whether they have the first indexes, in order.
pub(crate) fn create_first<R: Wait>(rt: &R, world: &World, pass: &mut Pass, count: u32) -> bool
    requires idle { IsIdle world.now pass.old }
    requires layers { 0 < world.now.map.layers }
    requires few { count ≤ 8 }
    ensures idle { IsIdle world.now pass.new }
{
    let mut all = true;
    for index in 0..count {
        all &= create_body(rt, world, pass, 7) == Ok(BodyId::new(index, 1));
    }
    all
}

/// Destroys a body.
pub(crate) fn destroy_body<R: Wait>(
    rt: &R,
    world: &World,
    pass: &mut Pass,
    id: BodyId,
) -> Result<(), DestroyRefused>
    requires idle { IsIdle world.now pass.old }
    requires below { id.index < world.now.map.bodies }
    ensures idle { IsIdle world.now pass.new }
{
    destroy(rt, world, pass, id)
}
