//! Batches that are prepared, two at once, attached and given up, with other calls in between.
ghost use Rattle.std.specs.Prelude.{◌≡◌, ◌+◌, ◌<◌, ◌≤◌, All, length};
ghost use Rattle.pass_table.specs.Passes.{view_of, IsIdle};
ghost use Rattle.batch_add.specs.PreparedLists.{batches_of, AreGood};

use crate::bodies::{begin, end};
use crate::lives::live;
use crate::tally::{Deed, Tally};
use batch_add::PreparedList;
use body_ident::BodyId;
use body_lock::lock_read;
use pass_table::{Pass, World};
use std::alloc::Global;
use std::sync::Wait;

/// How often each of the two threads streams.
const ROUNDS: u32 = 32;

/// The user number of the bodies of batches.
const USER: u32 = 7;

/// Attaches the batch at a place of a list, under the lock of a body where this one is live. Answers the user number that was
/// seen then.
fn attach<R: Wait>(
    rt: &R,
    world: &World,
    pass: &mut Pass,
    id: BodyId,
    batches: &mut PreparedList,
    place: usize,
) -> Option<u32>
    requires idle { IsIdle world.now pass.old }
    requires below { id.index < world.now.map.bodies }
    requires good { AreGood batches.old (view_of pass.old) }
    requires there { place < length (batches_of batches.old) }
    ensures idle { IsIdle world.now pass.new }
    ensures good { AreGood batches.new (view_of pass.new) }
    ensures count { length (batches_of batches.new) + 1 ≡ length (batches_of batches.old) }
{
    match lock_read(rt, world, pass, id) {
        Ok(guard) => {
            batches.finalize_under(world, pass, &guard, place);
            let seen = guard.view(world, pass);
            guard.unlock(world, pass);
            Some(seen.user)
        }
        Err(_) => {
            batches.finalize(world, pass, place);
            None
        }
    }
}

/// Prepares a batch of one body beside an older batch, attaches it, and makes a life. Answers whether the body is in the broad
/// phase then.
fn attach_beside<R: Wait>(
    rt: &R,
    alloc: Global,
    world: &World,
    pass: &mut Pass,
    layer: u32,
    id: BodyId,
    batches: &mut PreparedList,
    tally: &mut Tally,
) -> bool
    requires idle { IsIdle world.now pass.old }
    requires in_layers { layer < world.now.map.layers }
    requires below { id.index < world.now.map.bodies }
    requires good { AreGood batches.old (view_of pass.old) }
    requires one { length (batches_of batches.old) ≡ 1 }
    ensures idle { IsIdle world.now pass.new }
    ensures good { AreGood batches.new (view_of pass.new) }
    ensures one { length (batches_of batches.new) ≡ 1 }
{
    if batches
        .prepare(rt, alloc, world, pass, layer, &[id])
        .is_err()
    {
        tally.count(Deed::Refused);
        return false;
    }
    let seen = attach(rt, world, pass, id, batches, 1);
    tally.count(Deed::Attached);
    tally.count(if seen == Some(USER) {
        Deed::Read
    } else {
        Deed::Refused
    });
    live(rt, world, pass, layer, 1, tally);
    true
}

/// Prepares a batch of two bodies, and beside it one of a third, which is attached; then the first one is given up. Answers
/// whether the third body is in the broad phase then.
fn stream_three<R: Wait>(
    rt: &R,
    alloc: Global,
    world: &World,
    pass: &mut Pass,
    layer: u32,
    pair: [BodyId; 2],
    third: BodyId,
    tally: &mut Tally,
) -> bool
    requires idle { IsIdle world.now pass.old }
    requires in_layers { layer < world.now.map.layers }
    requires room { 2 ≤ world.now.map.bodies }
    requires pair { All (λ id. id.index < world.now.map.bodies) pair }
    requires third { third.index < world.now.map.bodies }
    ensures idle { IsIdle world.now pass.new }
{
    let mut batches = PreparedList::new(alloc);
    if batches
        .prepare(rt, alloc, world, pass, layer, &pair)
        .is_err()
    {
        tally.count(Deed::Refused);
        return false;
    }
    live(rt, world, pass, layer, 2, tally);
    let attached = attach_beside(rt, alloc, world, pass, layer, third, &mut batches, tally);
    batches.abort(rt, world, pass, 0);
    tally.count(Deed::GivenUp);
    attached
}

/// Creates a third body beside two, and streams the three. It is destroyed where it did not come into the broad phase.
fn stream_two<R: Wait>(
    rt: &R,
    alloc: Global,
    world: &World,
    pass: &mut Pass,
    layer: u32,
    pair: [BodyId; 2],
    tally: &mut Tally,
)
    requires idle { IsIdle world.now pass.old }
    requires in_layers { layer < world.now.map.layers }
    requires room { 2 ≤ world.now.map.bodies }
    requires pair { All (λ id. id.index < world.now.map.bodies) pair }
    ensures idle { IsIdle world.now pass.new }
{
    let Some(third) = begin(rt, world, pass, layer, USER, tally) else {
        return;
    };
    if !stream_three(rt, alloc, world, pass, layer, pair, third, tally) {
        end(rt, world, pass, third, tally);
    }
}

/// Creates a second body beside one, streams with both, and destroys it.
fn stream_one<R: Wait>(
    rt: &R,
    alloc: Global,
    world: &World,
    pass: &mut Pass,
    layer: u32,
    first: BodyId,
    tally: &mut Tally,
)
    requires idle { IsIdle world.now pass.old }
    requires in_layers { layer < world.now.map.layers }
    requires room { 2 ≤ world.now.map.bodies }
    requires first { first.index < world.now.map.bodies }
    ensures idle { IsIdle world.now pass.new }
{
    let Some(second) = begin(rt, world, pass, layer, USER, tally) else {
        return;
    };
    stream_two(rt, alloc, world, pass, layer, [first, second], tally);
    end(rt, world, pass, second, tally);
}

/// One round: three bodies are created and streamed, and those that are out of the broad phase then are destroyed.
fn stream_once<R: Wait>(
    rt: &R,
    alloc: Global,
    world: &World,
    pass: &mut Pass,
    layer: u32,
    tally: &mut Tally,
)
    requires idle { IsIdle world.now pass.old }
    requires in_layers { layer < world.now.map.layers }
    requires room { 2 ≤ world.now.map.bodies }
    ensures idle { IsIdle world.now pass.new }
{
    let Some(first) = begin(rt, world, pass, layer, USER, tally) else {
        return;
    };
    stream_one(rt, alloc, world, pass, layer, first, tally);
    end(rt, world, pass, first, tally);
}

/// What one thread does: it streams in a layer of its own.
pub(crate) fn stream<R: Wait>(rt: &R, alloc: Global, world: &World, pass: Pass, layer: u32) -> Tally
    requires idle { IsIdle world.now pass }
    requires in_layers { layer < world.now.map.layers }
    requires room { 2 ≤ world.now.map.bodies }
{
    let mut pass = pass;
    let mut tally = Tally::NOTHING;
    for _ in 0..ROUNDS {
        stream_once(rt, alloc, world, &mut pass, layer, &mut tally);
    }
    tally
}
