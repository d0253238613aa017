//! One call after the other.
ghost use Rattle.std.specs.Prelude.{◌≡◌, ◌<◌, ◌≤◌, length};
ghost use Rattle.pass_table.specs.Passes.{view_of, IsIdle};
ghost use Rattle.batch_add.specs.PreparedLists.{batches_of, AreGood};

use crate::answers::Answers;
use crate::batches::{abort_both, finalize_both, prepare_both};
use crate::bodies::{create_both, destroy_both, move_both, remove_both, set_user_both, view_both};
use crate::game::Game;
use crate::kind::Kind;
use crate::queries::query_both;
use batch_add::PreparedList;
use pass_table::{Pass, World};
use std::alloc::{AllocError, Global};
use std::sync::Wait;

/// How many calls are made.
const CALLS: u32 = 20_000;

/// Makes a call of a kind on both sides: one that ends no batch.
fn call<R: Wait>(
    rt: &R,
    alloc: Global,
    world: &World,
    pass: &mut Pass,
    held: &mut PreparedList,
    game: &mut Game,
    kind: Kind,
) -> Result<Answers, AllocError>
    requires idle { IsIdle world.now pass.old }
    requires good { AreGood held.old (view_of pass.old) }
    requires layers { 8 ≤ world.now.map.layers }
    requires bodies { world.now.map.bodies ≡ 64 }
    ensures idle { IsIdle world.now pass.new }
    ensures good { AreGood held.new (view_of pass.new) }
{
    match kind {
        Kind::Create => create_both(rt, world, pass, game),
        Kind::Destroy => destroy_both(rt, world, pass, game),
        Kind::Move => move_both(rt, world, pass, game),
        Kind::Remove => remove_both(rt, world, pass, game),
        Kind::SetUser => set_user_both(rt, world, pass, game),
        Kind::View => Ok(view_both(rt, world, pass, game)),
        Kind::QueryBox | Kind::QueryPoint | Kind::QuerySegment => {
            query_both(rt, world, pass, game, kind)
        }
        Kind::Prepare | Kind::Finalize | Kind::Abort => {
            prepare_both(rt, alloc, world, pass, held, game)
        }
    }
}

/// Ends a batch on both sides: attaches it or gives it up.
fn end<R: Wait>(
    rt: &R,
    world: &World,
    pass: &mut Pass,
    held: &mut PreparedList,
    game: &mut Game,
    kind: Kind,
    place: usize,
) -> Result<Answers, AllocError>
    requires idle { IsIdle world.now pass.old }
    requires good { AreGood held.old (view_of pass.old) }
    requires there { place < length (batches_of held.old) }
    ensures idle { IsIdle world.now pass.new }
    ensures good { AreGood held.new (view_of pass.new) }
{
    match kind {
        Kind::Finalize => finalize_both(world, pass, held, game, place),
        _ => abort_both(rt, world, pass, held, game, place),
    }
}

/// One call, of a kind that is drawn. Where no batch is prepared none can be ended, and one is prepared.
fn turn<R: Wait>(
    rt: &R,
    alloc: Global,
    world: &World,
    pass: &mut Pass,
    held: &mut PreparedList,
    game: &mut Game,
) -> Result<(), AllocError>
    requires idle { IsIdle world.now pass.old }
    requires good { AreGood held.old (view_of pass.old) }
    requires layers { 8 ≤ world.now.map.layers }
    requires bodies { world.now.map.bodies ≡ 64 }
    ensures idle { IsIdle world.now pass.new }
    ensures good { AreGood held.new (view_of pass.new) }
{
    let kind = Kind::drawn(game.draws.below(100));
    let batches = held.len();
    if kind.ends_batch() && batches > 0 {
        let place = game.draws.word() as usize % batches;
        let answers = end(rt, world, pass, held, game, kind, place)?;
        game.tally.add(kind, answers);
    } else {
        let kind = kind.with_no_batch();
        let answers = call(rt, alloc, world, pass, held, game, kind)?;
        game.tally.add(kind, answers);
    }
    Ok(())
}

/// All calls. Batches that are still prepared in the end are left.
pub(crate) fn play<R: Wait>(
    rt: &R,
    alloc: Global,
    world: &World,
    pass: Pass,
    game: &mut Game,
) -> Result<(), AllocError>
    requires idle { IsIdle world.now pass }
    requires layers { 8 ≤ world.now.map.layers }
    requires bodies { world.now.map.bodies ≡ 64 }
{
    let mut pass = pass;
    let mut held = PreparedList::new(alloc);
    for _ in 0..CALLS {
        turn(rt, alloc, world, &mut pass, &mut held, game)?;
    }
    Ok(())
}
