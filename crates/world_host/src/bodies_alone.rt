//! Calls on one body, made by the one pass of a world.
ghost use Rattle.std.specs.Prelude.{◌≡◌, ◌<◌, MatchOption, IfSome};
ghost use Rattle.script_player.specs.Body.{body_of};
ghost use Rattle.script_player.specs.declared.bodies.Change.TheVariants as changes;
ghost use Rattle.pass_table.specs.Passes.{view_of};
ghost use Rattle.world_host.specs.Alone.{IsLone};
ghost use Rattle.world_host.specs.Answers.{WasCreated, WasFull, ChangesAlone};

use crate::users_alone::set_user_alone;
use body_ident::BodyId;
use body_slots::{DestroyRefused, create, destroy};
use fixed_box::FixBox;
use pass_table::{Pass, World};
use remove_body::{RemoveRefused, remove};
use reply_text::Refusal;
use script_player::Change;
use std::sync::Wait;
use widen_bounds::{MoveRefused, move_body};

/// Creates a body. `None` where at each index a body is live.
pub(crate) fn create_alone<R: Wait>(
    rt: &R,
    world: &World,
    pass: &mut Pass,
    layer: u32,
    bounds: FixBox,
    user: u32,
) -> Option<BodyId>
    requires lone { IsLone world.now pass.old }
    requires in_layers { layer < world.now.map.layers }
    ensures lone { IsLone world.now pass.new }
    ensures below { IfSome result (λ id. id.index < world.now.map.bodies) }
    ensures created { MatchOption result (WasFull (view_of pass.old) (view_of pass.new)) (WasCreated layer bounds user (view_of pass.old) (view_of pass.new)) }
{
    match create(rt, world, pass, layer, bounds, user) {
        Ok(id) => Some(id),
        Err(_) => None,
    }
}

/// Destroys the body that the id names, and answers why it cannot.
fn destroy_alone<R: Wait>(rt: &R, world: &World, pass: &mut Pass, id: BodyId) -> Option<Refusal>
    requires lone { IsLone world.now pass.old }
    requires below { id.index < world.now.map.bodies }
    ensures lone { IsLone world.now pass.new }
    ensures changed { ChangesAlone changes.Destroy id (view_of pass.old) (view_of pass.new) result }
{
    match destroy(rt, world, pass, id) {
        Ok(()) => None,
        Err(DestroyRefused::Gone { .. }) => Some(Refusal::Gone),
        Err(DestroyRefused::InUse { .. }) => Some(Refusal::InUse),
    }
}

/// Takes the body that the id names out of the broad phase, and answers why it cannot.
fn remove_alone<R: Wait>(rt: &R, world: &World, pass: &mut Pass, id: BodyId) -> Option<Refusal>
    requires lone { IsLone world.now pass.old }
    requires below { id.index < world.now.map.bodies }
    ensures lone { IsLone world.now pass.new }
    ensures changed { ChangesAlone changes.Remove id (view_of pass.old) (view_of pass.new) result }
{
    match remove(rt, world, pass, id) {
        Ok(()) => None,
        Err(RemoveRefused::Gone { .. }) => Some(Refusal::Gone),
        Err(RemoveRefused::NotIn { .. }) => Some(Refusal::NotIn),
        Err(RemoveRefused::Held { .. }) => Some(Refusal::Held),
    }
}

/// Gives the body that the id names another box, and answers why it cannot.
fn move_alone<R: Wait>(
    rt: &R,
    world: &World,
    pass: &mut Pass,
    id: BodyId,
    to: FixBox,
) -> Option<Refusal>
    requires lone { IsLone world.now pass.old }
    requires below { id.index < world.now.map.bodies }
    ensures lone { IsLone world.now pass.new }
    ensures changed { ChangesAlone (changes.Move to) id (view_of pass.old) (view_of pass.new) result }
{
    match move_body(rt, world, pass, id, to) {
        Ok(()) => None,
        Err(MoveRefused::Gone { .. }) => Some(Refusal::Gone),
        Err(MoveRefused::Held { .. }) => Some(Refusal::Held),
    }
}

/// Changes the body that the id names, and answers why it cannot.
pub(crate) fn change_alone<R: Wait>(
    rt: &R,
    world: &World,
    pass: &mut Pass,
    id: BodyId,
    change: Change,
) -> Option<Refusal>
    requires lone { IsLone world.now pass.old }
    requires below { id.index < world.now.map.bodies }
    ensures lone { IsLone world.now pass.new }
    ensures changed { ChangesAlone change id (view_of pass.old) (view_of pass.new) result }
{
    match change {
        Change::Destroy => destroy_alone(rt, world, pass, id),
        Change::Remove => remove_alone(rt, world, pass, id),
        Change::Move(to) => move_alone(rt, world, pass, id, to),
        Change::SetUser(user) => set_user_alone(rt, world, pass, id, user),
    }
}
