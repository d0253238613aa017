//! Operations that are made in one call.
ghost use Rattle.std.specs.Prelude.{◌≡◌};
ghost use Rattle.core_state.specs.declared.view.View.{View};
ghost use Rattle.pass_table.specs.Turning.{IsUnderWay};
ghost use Rattle.pass_table.specs.Passes.{view_of, IsOf};

use crate::operation::Operation;
use crate::pass::Pass;
use crate::turn::Turn;
use crate::world::World;
use crossbeam_utils::Backoff;
use std::sync::Wait;

/// Makes turns of an operation until it is done.
///
/// What it answers is so for the whole time since the operation was begun. Where a turn finds a lock held by others, the
/// next one comes a little later.
#[inline(always)]
pub fn drive<R: Wait, O: Operation>(
    rt: &R,
    world: &World,
    pass: &mut Pass,
    operation: &mut O,
) -> O::Done
    requires of { IsOf world.now pass.old }
    requires under_way { IsUnderWay O.under_way operation.old (view_of pass.old) }
    ensures of { IsOf world.now pass.new }
    ensures answers { (first : O) (start : View) → O.under_way first start operation.old (view_of pass.old) → O.answers first start operation.new (view_of pass.new) result }
{
    let backoff = Backoff::new();
    for _ in rt.forever() {
        match operation.turn(world, pass) {
            Turn::Done(answer) => return answer,
            Turn::More => {}
            Turn::Again { .. } => backoff.snooze(),
        }
    }
    unreachable!()
}
