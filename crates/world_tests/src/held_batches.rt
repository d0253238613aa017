//! Batches that tests prepare, attach and give up, and what the refusals say.
ghost use Rattle.std.specs.Prelude.{◌≡◌, ◌<◌, ◌≤◌, length, All, IfOk};
ghost use Rattle.pass_table.specs.Passes.{view_of, IsIdle};
ghost use Rattle.batch_add.specs.Prepared.{IsGood};

use batch_add::{PrepareRefused, Prepared, abort, finalize, prepare};
use body_ident::BodyId;
use pass_table::{Pass, World};
use std::alloc::Global;
use std::sync::Wait;
use word_map::Config;

/// The sizes of a world of 8 bodies in one layer, for three passes.
pub(crate) fn batch_sizes(slots: u32, nodes: u32) -> Config
    ensures { (result.bodies ≡ 8) × (result.layers ≡ 1) × (result.slots ≡ slots) }
{
    Config {
        bodies: 8,
        stripes: 1,
        layers: 1,
        slots,
        nodes,
        passes: 3,
    }
}

/// Prepares a batch in layer 0.
pub(crate) fn hold<R: Wait>(
    rt: &R,
    alloc: Global,
    world: &World,
    pass: &mut Pass,
    ids: &[BodyId],
) -> Result<Prepared, PrepareRefused>
    requires idle { IsIdle world.now pass.old }
    requires layers { 0 < world.now.map.layers }
    requires below { All (λ id. id.index < world.now.map.bodies) ids.now }
    requires few { length ids.now ≤ world.now.map.bodies }
    ensures idle { IsIdle world.now pass.new }
    ensures good { IfOk result (λ batch. IsGood batch (view_of pass.new)) }
{
    prepare(rt, alloc, world, pass, 0, ids)
}

/// Attaches a batch.
pub(crate) fn attach(world: &World, pass: &mut Pass, batch: Prepared)
    requires idle { IsIdle world.now pass.old }
    requires good { IsGood batch (view_of pass.old) }
    ensures idle { IsIdle world.now pass.new }
{
    finalize(world, pass, batch);
}

/// Gives a batch up.
pub(crate) fn drop_batch<R: Wait>(rt: &R, world: &World, pass: &mut Pass, batch: Prepared)
    requires idle { IsIdle world.now pass.old }
    requires good { IsGood batch (view_of pass.old) }
    ensures idle { IsIdle world.now pass.new }
{
    abort(rt, world, pass, batch);
}

/// Whether it was refused since no slot is empty, and these are the words of the slots.
pub(crate) fn is_without_slot(answer: Result<Prepared, PrepareRefused>, slots: &[u64]) -> bool {
    match answer {
        Err(PrepareRefused::NoSlot { words }) => words.items() == slots,
        Err(_) => false,
        Ok(batch) => {
            batch.leave();
            false
        }
    }
}

/// Whether it was refused since it needs so many nodes, and so many are free.
pub(crate) fn is_without_nodes(
    answer: Result<Prepared, PrepareRefused>,
    needed: u32,
    left: u32,
) -> bool {
    match answer {
        Err(PrepareRefused::NoNodes { need, free }) => need == needed && free == left,
        Err(_) => false,
        Ok(batch) => {
            batch.leave();
            false
        }
    }
}

/// Whether it was refused since the second body is held for a batch of the first pass.
pub(crate) fn is_held_second(answer: Result<Prepared, PrepareRefused>) -> bool {
    match answer {
        Err(PrepareRefused::Held { at, slot }) => at == 1 && slot == 1,
        Err(_) => false,
        Ok(batch) => {
            batch.leave();
            false
        }
    }
}

/// Whether it was refused since the slots hold trees whose roots are these, in any order.
pub(crate) fn is_without(answer: Result<Prepared, PrepareRefused>, roots: [u64; 3]) -> bool {
    match answer {
        Err(PrepareRefused::NoSlot { words }) => {
            words.items().len() == 3 && roots.iter().all(|root| words.items().contains(root))
        }
        Err(_) => false,
        Ok(batch) => {
            batch.leave();
            false
        }
    }
}
