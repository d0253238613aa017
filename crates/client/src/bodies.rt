//! Calls on bodies, each counted.
ghost use Rattle.std.specs.Prelude.{◌≡◌, ◌<◌, IfSome};
ghost use Rattle.pass_table.specs.Belongings.{belongings_of};
ghost use Rattle.pass_table.specs.Passes.{view_of, IsIdle};

use crate::tally::{Deed, Tally};
use body_ident::BodyId;
use body_lock::lock_read;
use body_slots::{create, destroy};
use fixed_box::FixBox;
use pass_table::{Pass, World};
use std::sync::Wait;

/// Creates a body whose box is one point in the middle of space. `None` where it was refused.
fn create_point<R: Wait>(
    rt: &R,
    world: &World,
    pass: &mut Pass,
    layer: u32,
    user: u32,
) -> Option<BodyId>
    requires idle { IsIdle world.now pass.old }
    requires in_layers { layer < world.now.map.layers }
    ensures idle { IsIdle world.now pass.new }
    ensures keeps { belongings_of (view_of pass.new) ≡ belongings_of (view_of pass.old) }
    ensures below { IfSome result (λ id. id.index < world.now.map.bodies) }
{
    let bounds = FixBox::from_words([8_388_609; 6])?;
    create(rt, world, pass, layer, bounds, user).ok()
}

/// Creates a body, and counts it. `None` where it was refused.
pub(crate) fn begin<R: Wait>(
    rt: &R,
    world: &World,
    pass: &mut Pass,
    layer: u32,
    user: u32,
    tally: &mut Tally,
) -> Option<BodyId>
    requires idle { IsIdle world.now pass.old }
    requires in_layers { layer < world.now.map.layers }
    ensures idle { IsIdle world.now pass.new }
    ensures keeps { belongings_of (view_of pass.new) ≡ belongings_of (view_of pass.old) }
    ensures below { IfSome result (λ id. id.index < world.now.map.bodies) }
{
    let begun = create_point(rt, world, pass, layer, user);
    tally.count(if begun.is_some() {
        Deed::Created
    } else {
        Deed::Refused
    });
    begun
}

/// Locks a body to read, looks at it and unlocks it: its user number, `None` where it is gone.
fn user_of<R: Wait>(rt: &R, world: &World, pass: &mut Pass, id: BodyId) -> Option<u32>
    requires idle { IsIdle world.now pass.old }
    requires below { id.index < world.now.map.bodies }
    ensures idle { IsIdle world.now pass.new }
    ensures keeps { belongings_of (view_of pass.new) ≡ belongings_of (view_of pass.old) }
{
    let guard = lock_read(rt, world, pass, id).ok()?;
    let seen = guard.view(world, pass);
    guard.unlock(world, pass);
    Some(seen.user)
}

/// Reads a body that was created with a user number, and counts whether it has it.
pub(crate) fn read<R: Wait>(
    rt: &R,
    world: &World,
    pass: &mut Pass,
    id: BodyId,
    user: u32,
    tally: &mut Tally,
)
    requires idle { IsIdle world.now pass.old }
    requires below { id.index < world.now.map.bodies }
    ensures idle { IsIdle world.now pass.new }
    ensures keeps { belongings_of (view_of pass.new) ≡ belongings_of (view_of pass.old) }
{
    let seen = user_of(rt, world, pass, id);
    tally.count(if seen == Some(user) {
        Deed::Read
    } else {
        Deed::Refused
    });
}

/// Destroys a body, and counts it.
pub(crate) fn end<R: Wait>(rt: &R, world: &World, pass: &mut Pass, id: BodyId, tally: &mut Tally)
    requires idle { IsIdle world.now pass.old }
    requires below { id.index < world.now.map.bodies }
    ensures idle { IsIdle world.now pass.new }
    ensures keeps { belongings_of (view_of pass.new) ≡ belongings_of (view_of pass.old) }
{
    let ended = destroy(rt, world, pass, id).is_ok();
    tally.count(if ended {
        Deed::Destroyed
    } else {
        Deed::Refused
    });
}
