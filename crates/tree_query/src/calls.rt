//! The calls that ask a world which bodies touch a shape.
ghost use Rattle.std.specs.Prelude.{◌≡◌, ℕ, ◌≤◌, false};
ghost use Rattle.body_ident.specs.Id.{Id};
ghost use Rattle.core_state.specs.declared.view.Mode.{Mode};
ghost use Rattle.pass_table.specs.Bodies.{IsGuarding, IsAlone};
ghost use Rattle.pass_table.specs.Belongings.{belongings_of};
ghost use Rattle.pass_table.specs.Knowing.{KnowsLawful};
ghost use Rattle.pass_table.specs.Passes.{view_of, IsOf, IsIdle};
ghost use Rattle.body_lock.specs.declared.multi_guard.MultiGuard.{MultiGuard};
ghost use Rattle.body_lock.specs.Multi.{IsMultiGood};
ghost use Rattle.tree_query.specs.Finding.{room_of};
ghost use Rattle.tree_query.specs.Answers.{HasCollected, HasQueried};

use crate::checking::check_all;
use crate::collecting::walk_all;
use crate::finder::Finder;
use fixed_box::Shape;
use pass_table::{Pass, World};
use std::sync::Wait;

/// Collects the bodies that may touch a shape. Each body that is in the broad phase all through the call, in a layer of the
/// mask and with a box that touches the shape, is then in the finder. So may be others, whose boxes were wider once or are not
/// in the broad phase any more: they are candidates, each with sequence number 0, and none was looked at.
///
/// Bit k of the mask stands for layer k; bits at or above the number of layers are ignored. What the finder held before is
/// gone. It was made for at least as many bodies as the world has.
///
/// The call never waits, needs no memory and is not refused. The pass does not walk when it begins; it may hold locks and have
/// batches prepared, and these stay as they are. Beside it other passes may do all that they may.
pub fn collect(world: &World, pass: &mut Pass, shape: &Shape, mask: u8, finder: &mut Finder)
    requires of { IsOf world.now pass.old }
    requires still { (view_of pass.old).walk.is_on ≡ false }
    requires room { world.now.map.bodies ≤ room_of finder.old }
    ensures of { IsOf world.now pass.new }
    ensures idle { IsIdle world.now pass.old → IsIdle world.now pass.new }
    ensures lawful { KnowsLawful (view_of pass.new) }
    ensures keeps { belongings_of (view_of pass.new) ≡ belongings_of (view_of pass.old) }
    ensures locks { (view_of pass.new).locks ≡ (view_of pass.old).locks }
    ensures guards { (number : ℕ) (id : Id) (mode : Mode) → IsGuarding number id mode (view_of pass.old) → IsGuarding number id mode (view_of pass.new) }
    ensures alone { (number : ℕ) (id : Id) (mode : Mode) → IsAlone number id mode (view_of pass.old) → IsAlone number id mode (view_of pass.new) }
    ensures multi { (guard : MultiGuard) → IsMultiGood guard (view_of pass.old) → IsMultiGood guard (view_of pass.new) }
    ensures collected { HasCollected shape.now mask (view_of pass.old) (view_of pass.new) finder.new }
    ensures room { room_of finder.new ≡ room_of finder.old }
{
    walk_all(world, pass, shape, mask, finder);
}

/// Answers the bodies that touch a shape: the finder then holds their ids, ascending by index. While others act the answer is
/// right for the whole time of the call, from what the pass had seen when it began. Each body that was in the broad phase at
/// every point of it, in a layer of the mask and with a box that touched the shape, is answered; and each that is answered was
/// so at some point of it.
///
/// Bit k of the mask stands for layer k; bits at or above the number of layers are ignored. What the finder held before is
/// gone. It was made for at least as many bodies as the world has.
///
/// It walks as `collect` does, and then looks at each candidate under its stripe, one after the other, so it waits where another
/// pass holds one to write. It needs no memory and is not refused. What the pass has prepared stays as it is.
pub fn query<R: Wait>(
    rt: &R,
    world: &World,
    pass: &mut Pass,
    shape: &Shape,
    mask: u8,
    finder: &mut Finder,
)
    requires idle { IsIdle world.now pass.old }
    requires room { world.now.map.bodies ≤ room_of finder.old }
    ensures idle { IsIdle world.now pass.new }
    ensures lawful { KnowsLawful (view_of pass.new) }
    ensures keeps { belongings_of (view_of pass.new) ≡ belongings_of (view_of pass.old) }
    ensures queried { HasQueried shape.now mask (view_of pass.old) (view_of pass.new) finder.new }
    ensures room { room_of finder.new ≡ room_of finder.old }
{
    collect(world, pass, shape, mask, finder);
    check_all(rt, world, pass, shape, mask, finder);
}
