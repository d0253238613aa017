//! Batches that are prepared in one call or turn by turn.
ghost use Rattle.std.specs.Prelude.{◌<◌, ◌≤◌, length, All, IfOk};
ghost use Rattle.pass_table.specs.Passes.{view_of, IsIdle};
ghost use Rattle.batch_add.specs.declared.prepared_list.PreparedList.{PreparedList};
ghost use Rattle.batch_add.specs.Prepared.{IsGood};
ghost use Rattle.batch_add.specs.PreparedLists.{AreGood, IsBeside};

use batch_add::{PrepareOp, PrepareRefused, Prepared, prepare};
use body_ident::BodyId;
use pass_table::{Pass, World, drive};
use std::alloc::Global;
use std::sync::Wait;

/// How batches are prepared.
#[derive(Clone, Copy)]
pub(crate) enum Preparing {
    /// Each in one call.
    Call,
    /// Turn by turn.
    Turns,
}

/// Prepares a batch of the bodies of these ids turn by turn, in the first layer.
fn prepare_by_turns<R: Wait>(
    rt: &R,
    alloc: Global,
    world: &World,
    pass: &mut Pass,
    ids: &[BodyId],
) -> Result<Prepared, PrepareRefused>
    requires idle { IsIdle world.now pass.old }
    requires layers { 0 < world.now.map.layers }
    requires below { All (λ id. id.index < world.now.map.bodies) ids.now }
    requires few { length ids.now ≤ world.now.map.bodies }
    ensures idle { IsIdle world.now pass.new }
    ensures good { IfOk result (λ batch. IsGood batch (view_of pass.new)) }
    ensures lists { (list : PreparedList) → AreGood list (view_of pass.old) → AreGood list (view_of pass.new) }
    ensures listed { IfOk result (λ batch. (list : PreparedList) → AreGood list (view_of pass.old) → IsBeside batch list) }
{
    match PrepareOp::new(alloc, world, pass, 0, ids) {
        Ok(mut preparing) => drive(rt, world, pass, &mut preparing),
        Err(_) => Err(PrepareRefused::Memory),
    }
}

impl Preparing {
    /// Prepares a batch of the bodies of these ids, in the first layer.
    pub(crate) fn prepare<R: Wait>(
        self,
        rt: &R,
        alloc: Global,
        world: &World,
        pass: &mut Pass,
        ids: &[BodyId],
    ) -> Result<Prepared, PrepareRefused>
        requires idle { IsIdle world.now pass.old }
        requires layers { 0 < world.now.map.layers }
        requires below { All (λ id. id.index < world.now.map.bodies) ids.now }
        requires few { length ids.now ≤ world.now.map.bodies }
        ensures idle { IsIdle world.now pass.new }
        ensures good { IfOk result (λ batch. IsGood batch (view_of pass.new)) }
        ensures lists { (list : PreparedList) → AreGood list (view_of pass.old) → AreGood list (view_of pass.new) }
        ensures listed { IfOk result (λ batch. (list : PreparedList) → AreGood list (view_of pass.old) → IsBeside batch list) }
    {
        match self {
            Preparing::Call => prepare(rt, alloc, world, pass, 0, ids),
            Preparing::Turns => prepare_by_turns(rt, alloc, world, pass, ids),
        }
    }
}
