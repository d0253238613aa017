//! Bodies that are created, read under their locks, and destroyed again.
ghost use Rattle.std.specs.Prelude.{◌≡◌, ◌<◌};
ghost use Rattle.pass_table.specs.Belongings.{belongings_of};
ghost use Rattle.pass_table.specs.Passes.{view_of, IsIdle};

use crate::bodies::{begin, end, read};
use crate::tally::Tally;
use pass_table::{Pass, World};
use std::sync::Wait;

/// How many lives each of the two threads makes.
const LIVES: u32 = 1_000;

/// One life: a body is created, read and destroyed. All that the pass has is as it was, so its batches are good still.
pub(crate) fn live<R: Wait>(
    rt: &R,
    world: &World,
    pass: &mut Pass,
    layer: u32,
    user: u32,
    tally: &mut Tally,
)
    requires idle { IsIdle world.now pass.old }
    requires in_layers { layer < world.now.map.layers }
    ensures idle { IsIdle world.now pass.new }
    ensures keeps { belongings_of (view_of pass.new) ≡ belongings_of (view_of pass.old) }
{
    let Some(id) = begin(rt, world, pass, layer, user, tally) else {
        return;
    };
    read(rt, world, pass, id, user, tally);
    end(rt, world, pass, id, tally);
}

/// What one thread does: many lives, one after the other.
pub(crate) fn lives<R: Wait>(rt: &R, world: &World, pass: Pass) -> Tally
    requires idle { IsIdle world.now pass }
    requires layers { 0 < world.now.map.layers }
{
    let mut pass = pass;
    let mut tally = Tally::NOTHING;
    for user in 0..LIVES {
        live(rt, world, &mut pass, 0, user, &mut tally);
    }
    tally
}
