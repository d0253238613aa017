//! Moving a body in one call.
ghost use Rattle.std.specs.Prelude.{◌≡◌, ◌<◌, [], IfErr, OnOk};
ghost use Rattle.pass_table.specs.Passes.{view_of, IsIdle};
ghost use Rattle.pass_table.specs.Work.{Tells, SparesLocations};
ghost use Rattle.pass_table.specs.Belongings.{belongings_of};
ghost use Rattle.pass_table.specs.Knowing.{KnowsLawful};
ghost use Rattle.widen_bounds.specs.Answers.{HasMoved, WasRefused};

use crate::answers::MoveRefused;
use crate::move_op::MoveOp;
use body_ident::BodyId;
use fixed_box::FixBox;
use pass_table::{Pass, World, drive};
use std::sync::Wait;

/// Gives the body that the id names another box, in or out of the broad phase, and waits until no other pass holds its
/// stripe.
///
/// It is refused where the body is gone, and where a batch holds it. Others may act meanwhile: the body has the new box from
/// one step on. Where it is in the broad phase, all bounds above it contain both boxes by then, so that whoever walks through
/// the trees misses it in neither.
pub fn move_body<R: Wait>(
    rt: &R,
    world: &World,
    pass: &mut Pass,
    id: BodyId,
    to: FixBox,
) -> Result<(), MoveRefused>
    requires idle { IsIdle world.now pass.old }
    requires below { id.index < world.now.map.bodies }
    ensures idle { IsIdle world.now pass.new }
    ensures lawful { KnowsLawful (view_of pass.new) }
    ensures tells { Tells (view_of pass.old) (view_of pass.new) [] }
    ensures spares { SparesLocations (view_of pass.old) (view_of pass.new) }
    ensures keeps { belongings_of (view_of pass.new) ≡ belongings_of (view_of pass.old) }
    ensures moved { OnOk result (HasMoved id to (view_of pass.old) (view_of pass.new)) }
    ensures refused { IfErr result (WasRefused id (view_of pass.old) (view_of pass.new)) }
{
    let mut moving = MoveOp::new(world, pass, id, to);
    drive(rt, world, pass, &mut moving)
}
