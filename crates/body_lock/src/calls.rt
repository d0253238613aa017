//! Locking a body in one call.
ghost use Rattle.std.specs.Prelude.{◌≡◌, ◌<◌, ◌≤◌, [], false, length, All, OnErr};
ghost use Rattle.pass_table.specs.Trying.{mode_if};
ghost use Rattle.pass_table.specs.Calls.{Adds};
ghost use Rattle.pass_table.specs.Work.{Tells};
ghost use Rattle.pass_table.specs.Belongings.{belongings_of};
ghost use Rattle.pass_table.specs.Passes.{view_of, IsOf, IsIdle};
ghost use Rattle.body_lock.specs.Answers.{LocksAll, ReadAnswers, WriteAnswers};

use crate::body_read::BodyRead;
use crate::body_write::BodyWrite;
use crate::gone::Gone;
use crate::multi_guard::MultiGuard;
use crate::multi_op::LockMultiOp;
use crate::read_op::LockReadOp;
use crate::write_op::LockWriteOp;
use body_ident::BodyId;
use pass_table::{Pass, World, drive};
use std::sync::Wait;

/// Locks the body that the id names, to read, and waits until no pass holds its stripe to write. Others may read it too.
///
/// It is refused exactly where, under the lock, no body is live at the index or another one; the lock is then let go.
pub fn lock_read<R: Wait>(
    rt: &R,
    world: &World,
    pass: &mut Pass,
    id: BodyId,
) -> Result<BodyRead, Gone>
    requires idle { IsIdle world.now pass.old }
    requires below { id.index < world.now.map.bodies }
    ensures of { IsOf world.now pass.new }
    ensures idle { OnErr result (IsIdle world.now pass.new) }
    ensures adds { Adds (view_of pass.old) (view_of pass.new) [] }
    ensures tells { Tells (view_of pass.old) (view_of pass.new) [] }
    ensures keeps { belongings_of (view_of pass.new) ≡ belongings_of (view_of pass.old) }
    ensures answers { ReadAnswers id (view_of pass.old) (view_of pass.new) result }
{
    let mut locking = LockReadOp::new(world, pass, id);
    drive(rt, world, pass, &mut locking)
}

/// Locks the body that the id names, to write, and waits until no other pass holds its stripe.
///
/// It is refused exactly where, under the lock, no body is live at the index or another one; the lock is then let go.
pub fn lock_write<R: Wait>(
    rt: &R,
    world: &World,
    pass: &mut Pass,
    id: BodyId,
) -> Result<BodyWrite, Gone>
    requires idle { IsIdle world.now pass.old }
    requires below { id.index < world.now.map.bodies }
    ensures of { IsOf world.now pass.new }
    ensures idle { OnErr result (IsIdle world.now pass.new) }
    ensures adds { Adds (view_of pass.old) (view_of pass.new) [] }
    ensures tells { Tells (view_of pass.old) (view_of pass.new) [] }
    ensures keeps { belongings_of (view_of pass.new) ≡ belongings_of (view_of pass.old) }
    ensures answers { WriteAnswers id (view_of pass.old) (view_of pass.new) result }
{
    let mut locking = LockWriteOp::new(world, pass, id);
    drive(rt, world, pass, &mut locking)
}

/// Locks several bodies at once, 1 to 64, and waits until all their stripes are taken. An id may stand there more than
/// once. It is not refused: of each body the guard tells whether it was reached. All that it tells is so at one point of the
/// call, the last load, at which all stripes are held.
pub fn lock_multi<R: Wait>(
    rt: &R,
    world: &World,
    pass: &mut Pass,
    ids: &[BodyId],
    write: bool,
) -> MultiGuard
    requires idle { IsIdle world.now pass.old }
    requires some { 0 < length ids.now }
    requires few { length ids.now ≤ 64 }
    requires below { All (λ id. id.index < world.now.map.bodies) ids.now }
    ensures of { IsOf world.now pass.new }
    ensures adds { Adds (view_of pass.old) (view_of pass.new) [] }
    ensures tells { Tells (view_of pass.old) (view_of pass.new) [] }
    ensures keeps { belongings_of (view_of pass.new) ≡ belongings_of (view_of pass.old) }
    ensures locked { LocksAll ids.now (mode_if write) (view_of pass.old) (view_of pass.new) result }
{
    let mut locking = LockMultiOp::new(world, pass, ids, write);
    drive(rt, world, pass, &mut locking)
}
