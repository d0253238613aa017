//! Reading a body and giving it another user number under its lock, by the one pass of a world.
ghost use Rattle.std.specs.Prelude.{◌≡◌, ◌<◌, []};
ghost use Rattle.script_player.specs.Body.{body_of};
ghost use Rattle.script_player.specs.declared.bodies.Change.TheVariants as changes;
ghost use Rattle.pass_table.specs.Passes.{view_of};
ghost use Rattle.world_host.specs.Alone.{scene_of, IsLone, Leaves};
ghost use Rattle.world_host.specs.Answers.{ChangesAlone};

use body_ident::BodyId;
use body_lock::{lock_read, lock_write};
use pass_table::{Pass, World};
use reply_text::Refusal;
use scene_model::BodyView;
use std::sync::Wait;

/// The body that the id names; `None` where it is gone.
pub(crate) fn view_alone<R: Wait>(
    rt: &R,
    world: &World,
    pass: &mut Pass,
    id: BodyId,
) -> Option<BodyView>
    requires lone { IsLone world.now pass.old }
    requires below { id.index < world.now.map.bodies }
    ensures lone { IsLone world.now pass.new }
    ensures leaves { Leaves (view_of pass.old) (view_of pass.new) [] }
    ensures seen { result ≡ body_of (scene_of (view_of pass.old)) id }
{
    match lock_read(rt, world, pass, id) {
        Ok(guard) => {
            let seen = guard.view(world, pass);
            guard.unlock(world, pass);
            Some(seen)
        }
        Err(_) => None,
    }
}

/// Gives the body that the id names another user number, and answers why it cannot.
pub(crate) fn set_user_alone<R: Wait>(
    rt: &R,
    world: &World,
    pass: &mut Pass,
    id: BodyId,
    user: u32,
) -> Option<Refusal>
    requires lone { IsLone world.now pass.old }
    requires below { id.index < world.now.map.bodies }
    ensures lone { IsLone world.now pass.new }
    ensures changed { ChangesAlone (changes.SetUser user) id (view_of pass.old) (view_of pass.new) result }
{
    match lock_write(rt, world, pass, id) {
        Ok(guard) => {
            let mut guard = guard;
            guard.set_user(world, pass, user);
            guard.unlock(world, pass);
            None
        }
        Err(_) => Some(Refusal::Gone),
    }
}
