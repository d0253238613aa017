//! Steps on the words of a body whose lock is held.
ghost use Rattle.std.specs.Prelude.{◌<◌, ℕ};
ghost use Rattle.word_map.specs.Names.{stripe_of};
ghost use Rattle.core_state.specs.declared.view.Mode.TheVariants.{Write};
ghost use Rattle.core_state.specs.View.{IsPass};
ghost use Rattle.pass_table.specs.Holding.{MayLetGo, LetGo};
ghost use Rattle.pass_table.specs.Passes.{view_of, IsOf};
ghost use Rattle.pass_table.specs.Bodies.{IsGuarding};
ghost use Rattle.body_lock.specs.Seeing.{HasSetUser};

use body_ident::BodyId;
use pass_table::{Pass, World, release, step_16};
use word_map::Name;

/// Stores the user number of the body, in one step.
pub(crate) fn store_user(world: &World, pass: &mut Pass, id: BodyId, user: u32)
    requires of { IsOf world.now pass.old }
    requires guarding { (number : ℕ) × IsGuarding number id Write (view_of pass.old) }
    ensures of { IsOf world.now pass.new }
    ensures set { (number : ℕ) → IsPass (view_of pass.old) number → HasSetUser (view_of pass.old) (view_of pass.new) number id.index user }
{
    step_16(world, pass, Name::User(id.index()), u64::from(user));
}

/// Lets the stripe of the body go, in one step.
pub(crate) fn unlock(world: &World, pass: &mut Pass, id: BodyId)
    requires of { IsOf world.now pass.old }
    requires below { id.index < world.now.map.bodies }
    requires may { MayLetGo (view_of pass.old) (stripe_of world.now.map id.index) }
    ensures of { IsOf world.now pass.new }
    ensures step { (found : ℕ) × LetGo (view_of pass.old) (stripe_of world.now.map id.index) found (view_of pass.new) }
{
    let stripe = world.stripe_of(id.index());
    release(world, pass, stripe);
}
