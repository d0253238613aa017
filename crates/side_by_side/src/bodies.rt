//! Calls on one body.
ghost use Rattle.std.specs.Prelude.{◌≡◌, ◌<◌, ◌≤◌};
ghost use Rattle.pass_table.specs.Belongings.{belongings_of};
ghost use Rattle.pass_table.specs.Passes.{view_of, IsIdle};

use crate::answers::{Answer, Answers};
use crate::game::Game;
use body_ident::BodyId;
use body_lock::{lock_read, lock_write};
use body_slots::{create, destroy};
use pass_table::{Pass, World};
use remove_body::remove;
use std::alloc::AllocError;
use std::sync::Wait;
use widen_bounds::move_body;

/// Creates a body on both sides.
pub(crate) fn create_both<R: Wait>(
    rt: &R,
    world: &World,
    pass: &mut Pass,
    game: &mut Game,
) -> Result<Answers, AllocError>
    requires idle { IsIdle world.now pass.old }
    requires layers { 8 ≤ world.now.map.layers }
    ensures idle { IsIdle world.now pass.new }
    ensures keeps { belongings_of (view_of pass.new) ≡ belongings_of (view_of pass.old) }
{
    let layer = game.draws.layer();
    let bounds = game.draws.bounds();
    let user = game.draws.word();
    let shared = Answer::of_create(create(rt, world, pass, layer, bounds, user));
    let plain = game.plain.create(layer, bounds, user)?;
    Ok(Answers { shared, plain })
}

/// Destroys a body on both sides.
pub(crate) fn destroy_both<R: Wait>(
    rt: &R,
    world: &World,
    pass: &mut Pass,
    game: &mut Game,
) -> Result<Answers, AllocError>
    requires idle { IsIdle world.now pass.old }
    requires bodies { 64 ≤ world.now.map.bodies }
    ensures idle { IsIdle world.now pass.new }
    ensures keeps { belongings_of (view_of pass.new) ≡ belongings_of (view_of pass.old) }
{
    let id = game.draws.id(&game.plain);
    let shared = Answer::of_destroy(destroy(rt, world, pass, id));
    let plain = game.plain.destroy(id)?;
    Ok(Answers { shared, plain })
}

/// Takes a body out of the broad phase on both sides.
pub(crate) fn remove_both<R: Wait>(
    rt: &R,
    world: &World,
    pass: &mut Pass,
    game: &mut Game,
) -> Result<Answers, AllocError>
    requires idle { IsIdle world.now pass.old }
    requires bodies { 64 ≤ world.now.map.bodies }
    ensures idle { IsIdle world.now pass.new }
    ensures keeps { belongings_of (view_of pass.new) ≡ belongings_of (view_of pass.old) }
{
    let id = game.draws.id(&game.plain);
    let shared = Answer::of_remove(remove(rt, world, pass, id));
    let plain = game.plain.remove(id)?;
    Ok(Answers { shared, plain })
}

/// Gives a body another box on both sides.
pub(crate) fn move_both<R: Wait>(
    rt: &R,
    world: &World,
    pass: &mut Pass,
    game: &mut Game,
) -> Result<Answers, AllocError>
    requires idle { IsIdle world.now pass.old }
    requires bodies { 64 ≤ world.now.map.bodies }
    ensures idle { IsIdle world.now pass.new }
    ensures keeps { belongings_of (view_of pass.new) ≡ belongings_of (view_of pass.old) }
{
    let id = game.draws.id(&game.plain);
    let to = game.draws.bounds();
    let shared = Answer::of_move(move_body(rt, world, pass, id, to));
    let plain = game.plain.move_body(id, to)?;
    Ok(Answers { shared, plain })
}

/// What a body is, seen under its lock to read.
fn view<R: Wait>(rt: &R, world: &World, pass: &mut Pass, id: BodyId) -> Answer
    requires idle { IsIdle world.now pass.old }
    requires below { id.index < world.now.map.bodies }
    ensures idle { IsIdle world.now pass.new }
    ensures keeps { belongings_of (view_of pass.new) ≡ belongings_of (view_of pass.old) }
{
    match lock_read(rt, world, pass, id) {
        Ok(guard) => {
            let seen = guard.view(world, pass);
            guard.unlock(world, pass);
            Answer::Seen(seen)
        }
        Err(gone) => Answer::of_gone(gone),
    }
}

/// Looks at a body on both sides.
pub(crate) fn view_both<R: Wait>(rt: &R, world: &World, pass: &mut Pass, game: &mut Game) -> Answers
    requires idle { IsIdle world.now pass.old }
    requires bodies { 64 ≤ world.now.map.bodies }
    ensures idle { IsIdle world.now pass.new }
    ensures keeps { belongings_of (view_of pass.new) ≡ belongings_of (view_of pass.old) }
{
    let id = game.draws.id(&game.plain);
    let shared = view(rt, world, pass, id);
    let plain = game.plain.view(id);
    Answers { shared, plain }
}

/// Gives a body another user number under its lock to write, and looks at it then.
fn set_user<R: Wait>(rt: &R, world: &World, pass: &mut Pass, id: BodyId, user: u32) -> Answer
    requires idle { IsIdle world.now pass.old }
    requires below { id.index < world.now.map.bodies }
    ensures idle { IsIdle world.now pass.new }
    ensures keeps { belongings_of (view_of pass.new) ≡ belongings_of (view_of pass.old) }
{
    match lock_write(rt, world, pass, id) {
        Ok(guard) => {
            let mut guard = guard;
            guard.set_user(world, pass, user);
            let seen = guard.view(world, pass);
            guard.unlock(world, pass);
            Answer::Seen(seen)
        }
        Err(gone) => Answer::of_gone(gone),
    }
}

/// Gives a body another user number on both sides.
pub(crate) fn set_user_both<R: Wait>(
    rt: &R,
    world: &World,
    pass: &mut Pass,
    game: &mut Game,
) -> Result<Answers, AllocError>
    requires idle { IsIdle world.now pass.old }
    requires bodies { 64 ≤ world.now.map.bodies }
    ensures idle { IsIdle world.now pass.new }
    ensures keeps { belongings_of (view_of pass.new) ≡ belongings_of (view_of pass.old) }
{
    let id = game.draws.id(&game.plain);
    let user = game.draws.word();
    let shared = set_user(rt, world, pass, id, user);
    let plain = game.plain.set_user(id, user)?;
    Ok(Answers { shared, plain })
}
