//! Taking a body out of the broad phase in one call.
ghost use Rattle.std.specs.Prelude.{◌≡◌, ◌<◌, [], IfErr, OnOk};
ghost use Rattle.pass_table.specs.Passes.{view_of, IsIdle};
ghost use Rattle.pass_table.specs.Work.{Tells};
ghost use Rattle.pass_table.specs.Belongings.{belongings_of};
ghost use Rattle.pass_table.specs.Knowing.{KnowsLawful};
ghost use Rattle.remove_body.specs.Answers.{HasRemoved, WasRefused};

use crate::answers::RemoveRefused;
use crate::remove_op::RemoveOp;
use body_ident::BodyId;
use pass_table::{Pass, World, drive};
use std::sync::Wait;

/// Takes the body that the id names out of the broad phase. It stays live, and may be destroyed or added again.
///
/// It is refused where the body is gone, where it is out, and where a batch holds it, by the first of these that is so.
/// Others may act meanwhile: the body is taken out in one step, and a walk that began before may still find it.
pub fn remove<R: Wait>(
    rt: &R,
    world: &World,
    pass: &mut Pass,
    id: BodyId,
) -> Result<(), RemoveRefused>
    requires idle { IsIdle world.now pass.old }
    requires below { id.index < world.now.map.bodies }
    ensures idle { IsIdle world.now pass.new }
    ensures lawful { KnowsLawful (view_of pass.new) }
    ensures tells { Tells (view_of pass.old) (view_of pass.new) [] }
    ensures keeps { belongings_of (view_of pass.new) ≡ belongings_of (view_of pass.old) }
    ensures removed { OnOk result (HasRemoved id (view_of pass.old) (view_of pass.new)) }
    ensures refused { IfErr result (WasRefused id (view_of pass.old) (view_of pass.new)) }
{
    let mut removing = RemoveOp::new(world, pass, id);
    drive(rt, world, pass, &mut removing)
}
