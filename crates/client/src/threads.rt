//! The four threads.
ghost use Rattle.std.specs.Prelude.{◌<◌, ◌≤◌};
ghost use Rattle.pass_table.specs.Passes.{IsIdle};

use crate::lives::lives;
use crate::stream::stream;
use crate::tally::Tally;
use pass_table::{Pass, World};
use std::alloc::Global;
use std::sync::Wait;
use std::thread::{Threads, join};

/// A thread that makes lives, beside one that streams in a layer.
fn pair<R: Threads + Wait + Sync>(
    rt: &R,
    alloc: Global,
    world: &World,
    living: Pass,
    streaming: Pass,
    layer: u32,
) -> Tally
    requires living { IsIdle world.now living }
    requires streaming { IsIdle world.now streaming }
    requires in_layers { layer < world.now.map.layers }
    requires room { 2 ≤ world.now.map.bodies }
{
    let (one, other) = join(
        rt,
        || lives(rt, world, living),
        || stream(rt, alloc, world, streaming, layer),
    );
    one.and(other)
}

/// Two such pairs, each with a layer of its own.
pub(crate) fn share<R: Threads + Wait + Sync>(
    rt: &R,
    alloc: Global,
    world: &World,
    first: Pass,
    second: Pass,
    third: Pass,
    fourth: Pass,
) -> Tally
    requires first { IsIdle world.now first }
    requires second { IsIdle world.now second }
    requires third { IsIdle world.now third }
    requires fourth { IsIdle world.now fourth }
    requires layers { 1 < world.now.map.layers }
    requires room { 2 ≤ world.now.map.bodies }
{
    let (one, other) = join(
        rt,
        ||
            requires living { IsIdle world.now first }
            requires streaming { IsIdle world.now second }
            requires layers { 1 < world.now.map.layers }
            requires room { 2 ≤ world.now.map.bodies }
        { pair(rt, alloc, world, first, second, 0) },
        ||
            requires living { IsIdle world.now third }
            requires streaming { IsIdle world.now fourth }
            requires layers { 1 < world.now.map.layers }
            requires room { 2 ≤ world.now.map.bodies }
        { pair(rt, alloc, world, third, fourth, 1) },
    );
    one.and(other)
}
