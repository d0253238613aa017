//! Preparing a batch and giving it up, each in one call.
ghost use Rattle.std.specs.Prelude.{◌≡◌, ◌<◌, ◌≤◌, length, All, IfOk, IfErr};
ghost use Rattle.pass_table.specs.Belongings.{belongings_of};
ghost use Rattle.pass_table.specs.Passes.{view_of, IsIdle};
ghost use Rattle.batch_add.specs.declared.prepared.Prepared.{Prepared};
ghost use Rattle.batch_add.specs.declared.prepared_list.PreparedList.{PreparedList};
ghost use Rattle.batch_add.specs.Prepared.{IsGood, IsApart};
ghost use Rattle.batch_add.specs.PreparedLists.{AreGood, IsBeside};
ghost use Rattle.batch_add.specs.Answers.{PrepareAnswers, HasAborted};

use crate::aborting::kept_of;
use crate::answers::PrepareRefused;
use crate::prepare_op::PrepareOp;
use crate::prepared::Prepared;
use body_ident::BodyId;
use pass_table::{Pass, World};
use std::alloc::Global;
use std::sync::Wait;

/// Prepares a batch: the bodies of these ids, all in this layer and out of the broad phase, are held for it, and the tree over
/// them is drawn apart. They come into the broad phase when it is finalized.
///
/// It may wait for locks. All memory is taken before its first step. It is refused, in this order, for want of memory, for an
/// empty list, where no slot of the layer is empty, where too few nodes are free, and for the first id that cannot be marked;
/// then all that was done is undone, and the pass has what it had. In any case each batch of the pass that was good is good
/// still; the new one is for another slot.
pub fn prepare<R: Wait>(
    rt: &R,
    alloc: Global,
    world: &World,
    pass: &mut Pass,
    layer: u32,
    ids: &[BodyId],
) -> Result<Prepared, PrepareRefused>
    requires idle { IsIdle world.now pass.old }
    requires in_layers { layer < world.now.map.layers }
    requires below { All (λ id. id.index < world.now.map.bodies) ids.now }
    requires few { length ids.now ≤ world.now.map.bodies }
    ensures idle { IsIdle world.now pass.new }
    ensures answers { PrepareAnswers layer ids.now (view_of pass.old) (view_of pass.new) result }
    ensures good { IfOk result (λ batch. IsGood batch (view_of pass.new)) }
    ensures others { (other : Prepared) → IsGood other (view_of pass.old) → IsGood other (view_of pass.new) }
    ensures apart { IfOk result (λ batch. (other : Prepared) → IsGood other (view_of pass.old) → IsApart other batch) }
    ensures beside { IfOk result (λ batch. (other : Prepared) → IsGood other (view_of pass.old) → IsApart batch other) }
    ensures lists { (list : PreparedList) → AreGood list (view_of pass.old) → AreGood list (view_of pass.new) }
    ensures listed { IfOk result (λ batch. (list : PreparedList) → AreGood list (view_of pass.old) → IsBeside batch list) }
    ensures keeps { IfErr result (λ refused. belongings_of (view_of pass.new) ≡ belongings_of (view_of pass.old)) }
{
    match PrepareOp::new(alloc, world, pass, layer, ids) {
        Ok(mut preparing) => preparing.finish(rt, world, pass),
        Err(_) => Err(PrepareRefused::Memory),
    }
}

/// Gives a batch up: its bodies are unmarked, in order, its slot is empty again, and its nodes are in the pool again.
///
/// It may wait for locks. It takes no memory and is not refused. Each other batch of the pass that was good is good still.
pub fn abort<R: Wait>(rt: &R, world: &World, pass: &mut Pass, batch: Prepared)
    requires idle { IsIdle world.now pass.old }
    requires good { IsGood batch (view_of pass.old) }
    ensures idle { IsIdle world.now pass.new }
    ensures aborted { HasAborted batch (view_of pass.old) (view_of pass.new) }
    ensures others { (other : Prepared) → IsGood other (view_of pass.old) → IsApart other batch → IsGood other (view_of pass.new) }
    ensures lists { (list : PreparedList) → AreGood list (view_of pass.old) → IsBeside batch list → AreGood list (view_of pass.new) }
{
    let kept = kept_of(world, pass, batch);
    kept.give_up(rt, world, pass);
}
