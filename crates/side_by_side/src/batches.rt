//! Calls on batches. Those that are prepared are held in a list.
ghost use Rattle.std.specs.Prelude.{◌≡◌, ◌<◌, ◌≤◌, length, All};
ghost use Rattle.pass_table.specs.Passes.{view_of, IsIdle};
ghost use Rattle.batch_add.specs.Prepared.{IsGood};
ghost use Rattle.batch_add.specs.PreparedLists.{batches_of, AreGood, IsBeside};

use crate::answers::{Answer, Answers, Refusal};
use crate::game::Game;
use batch_add::{Prepared, PreparedList, abort, finalize, prepare};
use body_ident::BodyId;
use pass_table::{Pass, World};
use std::alloc::{AllocError, Global};
use std::sync::Wait;

/// Whether a batch has the bodies of these ids, and this layer.
fn is_of(batch: &Prepared, layer: u32, ids: &[BodyId]) -> bool {
    let indexes = batch.indexes();
    batch.layer() == layer
        && indexes.len() == ids.len()
        && indexes
            .iter()
            .zip(ids.iter())
            .all(|(index, id)| *index == id.index())
}

/// Puts a batch into the list. Where there is not enough memory for that it is given up, and the answer is `false`.
fn keep<R: Wait>(
    rt: &R,
    world: &World,
    pass: &mut Pass,
    held: &mut PreparedList,
    batch: Prepared,
) -> bool
    requires idle { IsIdle world.now pass.old }
    requires good { AreGood held.old (view_of pass.old) }
    requires this { IsGood batch (view_of pass.old) }
    requires beside { IsBeside batch held.old }
    ensures idle { IsIdle world.now pass.new }
    ensures good { AreGood held.new (view_of pass.new) }
{
    match held.push(batch) {
        Ok(()) => true,
        Err(back) => {
            abort(rt, world, pass, back);
            false
        }
    }
}

/// Prepares a batch of the shared world, and puts it into the list.
fn prepare_shared<R: Wait>(
    rt: &R,
    alloc: Global,
    world: &World,
    pass: &mut Pass,
    held: &mut PreparedList,
    layer: u32,
    ids: &[BodyId],
) -> Answer
    requires idle { IsIdle world.now pass.old }
    requires good { AreGood held.old (view_of pass.old) }
    requires in_layers { layer < world.now.map.layers }
    requires below { All (λ id. id.index < world.now.map.bodies) ids.now }
    requires few { length ids.now ≤ world.now.map.bodies }
    ensures idle { IsIdle world.now pass.new }
    ensures good { AreGood held.new (view_of pass.new) }
{
    match prepare(rt, alloc, world, pass, layer, ids) {
        Ok(batch) => {
            let is_right = is_of(&batch, layer, ids);
            if keep(rt, world, pass, held, batch) && is_right {
                Answer::Done
            } else {
                Answer::Other
            }
        }
        Err(refused) => Answer::Refused(Refusal::of_prepare(refused)),
    }
}

/// Prepares a batch of some ids on both sides.
fn prepare_ids<R: Wait>(
    rt: &R,
    alloc: Global,
    world: &World,
    pass: &mut Pass,
    held: &mut PreparedList,
    game: &mut Game,
    layer: u32,
    ids: &[BodyId],
) -> Result<Answers, AllocError>
    requires idle { IsIdle world.now pass.old }
    requires good { AreGood held.old (view_of pass.old) }
    requires layers { 8 ≤ world.now.map.layers }
    requires bodies { 64 ≤ world.now.map.bodies }
    requires in_layers { layer < 8 }
    requires below { All (λ id. id.index < 64) ids.now }
    requires few { length ids.now ≤ 4 }
    ensures idle { IsIdle world.now pass.new }
    ensures good { AreGood held.new (view_of pass.new) }
{
    let shared = prepare_shared(rt, alloc, world, pass, held, layer, ids);
    let plain = game.plain.prepare(layer, ids)?;
    Ok(Answers { shared, plain })
}

/// Prepares a batch of none to four bodies of a layer on both sides.
pub(crate) fn prepare_both<R: Wait>(
    rt: &R,
    alloc: Global,
    world: &World,
    pass: &mut Pass,
    held: &mut PreparedList,
    game: &mut Game,
) -> Result<Answers, AllocError>
    requires idle { IsIdle world.now pass.old }
    requires good { AreGood held.old (view_of pass.old) }
    requires layers { 8 ≤ world.now.map.layers }
    requires bodies { 64 ≤ world.now.map.bodies }
    ensures idle { IsIdle world.now pass.new }
    ensures good { AreGood held.new (view_of pass.new) }
{
    let layer = game.draws.layer();
    let from = game.draws.below(64);
    let one = game.draws.id_for(&game.plain, layer, from);
    let two = game.draws.id_for(&game.plain, layer, one.index());
    let three = game.draws.id_for(&game.plain, layer, two.index());
    let four = game.draws.id_for(&game.plain, layer, three.index());
    let ids = [one, two, three, four];
    let many = game.draws.bodies() as usize;
    prepare_ids(rt, alloc, world, pass, held, game, layer, &ids[..many])
}

/// Attaches the batch at a place of the list on both sides.
pub(crate) fn finalize_both(
    world: &World,
    pass: &mut Pass,
    held: &mut PreparedList,
    game: &mut Game,
    place: usize,
) -> Result<Answers, AllocError>
    requires idle { IsIdle world.now pass.old }
    requires good { AreGood held.old (view_of pass.old) }
    requires there { place < length (batches_of held.old) }
    ensures idle { IsIdle world.now pass.new }
    ensures good { AreGood held.new (view_of pass.new) }
{
    let batch = held.take(place);
    let plain = game.plain.finalize(batch.indexes());
    finalize(world, pass, batch);
    let shared = Answer::Done;
    let plain = plain?;
    Ok(Answers { shared, plain })
}

/// Gives the batch at a place of the list up on both sides.
pub(crate) fn abort_both<R: Wait>(
    rt: &R,
    world: &World,
    pass: &mut Pass,
    held: &mut PreparedList,
    game: &mut Game,
    place: usize,
) -> Result<Answers, AllocError>
    requires idle { IsIdle world.now pass.old }
    requires good { AreGood held.old (view_of pass.old) }
    requires there { place < length (batches_of held.old) }
    ensures idle { IsIdle world.now pass.new }
    ensures good { AreGood held.new (view_of pass.new) }
{
    let batch = held.take(place);
    let plain = game.plain.abort(batch.layer(), batch.indexes());
    abort(rt, world, pass, batch);
    let shared = Answer::Done;
    let plain = plain?;
    Ok(Answers { shared, plain })
}
